// What an entry tells, and what it leaves, written.
use division::Divided;
use neighbours::Neighbours;
use refusals::Refusal;
use std::io;
use test_pools::changes::PLACES;

fn say_if(rt: &impl Print, test: bool, text: &str) -> io::Result<()> {
    if test {
        return rt.print(text);
    }
    Ok(())
}

pub fn division(rt: &impl Print, answer: Result<Divided, Refusal>) -> io::Result<()> {
    match answer {
        Err(refusal) => print!(rt; "{refusal}"),
        Ok(d) => {
            print!(rt; "right {}, left {}", d.right, d.left)?;
            say_if(rt, d.moved, ", moved")?;
            say_if(rt, d.swapped, ", swapped")
        }
    }
}

pub fn neighbours(rt: &impl Print, answer: Neighbours) -> io::Result<()> {
    let met = answer.met;
    match met {
        Err(refusal) => print!(rt; "{refusal}")?,
        Ok(code) => print!(rt; "code {code}")?,
    }
    print!(rt; ", in use {}", answer.used)
}

// A record: its number, the bits of its point, and its twelve marks.
fn say_record(rt: &impl Print, i: usize, p: [u64; 2], m: [u32; 12]) -> io::Result<()> {
    print!(rt; "\n  {i}: {:016x} {:016x}", p[0], p[1])?;
    for mark in m {
        print!(rt; " {mark}")?;
    }
    Ok(())
}

// Every record that is not as it was kept.
pub fn changes(
    rt: &impl Print,
    points: &[[u64; 2]; PLACES],
    marks: &[[u32; 12]; PLACES],
    kept_points: &[[u64; 2]; PLACES],
    kept_marks: &[[u32; 12]; PLACES],
) -> io::Result<()> {
    let mut same = true;
    for i in 0..PLACES {
        if points[i] != kept_points[i] || marks[i] != kept_marks[i] {
            say_record(rt, i, points[i], marks[i])?;
            same = false;
        }
    }
    say_if(rt, same, ", as lent")?;
    rt.print("\n")
}
