// Reads a sheet from standard input and prints it in its own order, or why it is refused.
#![tactic(auto)]

ghost use Rattle.std.specs.Prelude.{◌≤◌, length, IfOk};

use arranging::arrange;
use printing::print_refusal;
use std::io::{self, Read};

const ROOM: usize = 65536;

// Reads until the buffer is full or the input ends, and answers how many bytes of it were read.
fn read_full<R: Read>(reader: &mut R, buffer: &mut [u8]) -> io::Result<usize>
    ensures { IfOk result (λ n. n ≤ length buffer.new) }
{
    let mut done = 0;
    for _ in 0..u64::MAX {
        if done == buffer.len() {
            break;
        }
        let n = reader.read(&mut buffer[done..])?;
        if n == 0 {
            break;
        }
        done += n;
    }
    Ok(done)
}

// Writes the first n bytes.
fn write(rt: &impl Print, out: &[u8], n: usize) -> io::Result<()> {
    if n <= out.len() {
        return rt.write_all(&out[..n]);
    }
    Ok(())
}

fn main(rt: HostRuntime) -> io::Result<()> {
    // No sheet has more than 20,268 bytes (`sheet-short`): of longer input the first bytes tell why it is none.
    let mut sheet = [0u8; ROOM];
    let n = read_full(&mut rt.reader(), &mut sheet)?;
    match arrange(&mut sheet[..n]) {
        Ok(()) => write(&rt, &sheet, n),
        Err(refusal) => {
            let told = print_refusal(u64::from(refusal.reason), refusal.place, &mut sheet);
            write(&rt, &sheet, told)
        }
    }
}
