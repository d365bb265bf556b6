// Answers calls, one a line from standard input to its end, each by one line on standard output.
#![tactic(auto)]

mod answers;
mod before;
mod call;
mod cross;
mod divide;
mod edge_class;
mod kinds;
mod left;
mod lines;
mod neigh;
mod nextup;
mod orient;
mod pairs;
mod segcmp;
mod words;

use lines::Gathered;
use std::io::{self, Read};

const BUFFER: usize = 65536;

// No call is longer.
const LINE: usize = 512;

// Reads once and answers the lines that end there; what was answered before a read that fails is written too.
fn turn<R: Read>(
    rt: &impl Print,
    reader: &mut R,
    input: &mut [u8],
    line: &mut [u8],
    out: &mut [u8],
    g: Gathered,
) -> io::Result<Gathered> {
    match reader.read(input) {
        Ok(0) => Ok(lines::stopped(g)),
        Ok(n) => lines::take(rt, &input[..n], line, out, g),
        Err(e) => {
            lines::end(rt, line, out, g)?;
            Err(e)
        }
    }
}

// A proved loop has to end, and nothing says that the input does: no run uses up so many turns.
fn run<R: Read>(
    rt: &impl Print,
    reader: &mut R,
    input: &mut [u8],
    line: &mut [u8],
    out: &mut [u8],
) -> io::Result<()> {
    let mut g = lines::none();
    for _ in 0..u64::MAX {
        if !g.more {
            break;
        }
        g = turn(rt, reader, input, line, out, g)?;
    }
    lines::end(rt, line, out, g)
}

fn main(rt: HostRuntime) -> io::Result<()> {
    let mut input = [0u8; BUFFER];
    let mut line = [0u8; LINE];
    let mut out = [0u8; BUFFER];
    run(&rt, &mut rt.reader(), &mut input, &mut line, &mut out)
}
