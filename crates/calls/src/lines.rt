// Input cut into lines, and output gathered until it is worth writing.
use crate::{answers, call};
use std::io;

// Room for the longest answer.
const ROOM: usize = 4096;

#[derive(Clone, Copy)]
pub struct Gathered {
    // bytes of a line that has not ended
    pub length: usize,
    // bytes of answers that are not written
    pub waiting: usize,
    // false once the input has ended
    pub more: bool,
}

pub fn none() -> Gathered {
    Gathered {
        length: 0,
        waiting: 0,
        more: true,
    }
}

pub fn stopped(g: Gathered) -> Gathered {
    Gathered { more: false, ..g }
}

// Writes what waits.
fn written(rt: &impl Print, out: &[u8], g: Gathered) -> io::Result<Gathered> {
    let n = g.waiting;
    if n <= out.len() {
        rt.write_all(&out[..n])?;
        return Ok(Gathered { waiting: 0, ..g });
    }
    Ok(stopped(g))
}

// The answer to a line; one that fills its buffer may be longer, and is no call.
fn answered(line: &[u8], length: usize, out: &mut [u8], at: usize) -> usize {
    if length < line.len() {
        return call::answer(&line[..length], out, at);
    }
    answers::malformed(out, at)
}

// A line has ended.
fn ended(rt: &impl Print, line: &[u8], out: &mut [u8], g: Gathered) -> io::Result<Gathered> {
    let at = answered(line, g.length, out, g.waiting);
    let at = answers::word(out, at, b"\n");
    let next = Gathered {
        length: 0,
        waiting: at,
        ..g
    };
    if text::words::after(at, ROOM, out.len()) < out.len() {
        return Ok(next);
    }
    written(rt, out, next)
}

fn take_byte(
    rt: &impl Print,
    b: u8,
    line: &mut [u8],
    out: &mut [u8],
    g: Gathered,
) -> io::Result<Gathered> {
    if b == b'\n' {
        return ended(rt, line, out, g);
    }
    text::words::put_byte(line, 0, g.length, b);
    Ok(Gathered {
        length: text::words::after(g.length, 1, line.len()),
        ..g
    })
}

pub fn take(
    rt: &impl Print,
    piece: &[u8],
    line: &mut [u8],
    out: &mut [u8],
    g: Gathered,
) -> io::Result<Gathered> {
    let mut now = g;
    for b in piece {
        now = take_byte(rt, *b, line, out, now)?;
    }
    Ok(now)
}

// The input has ended: a last line may lack its line feed.
pub fn end(rt: &impl Print, line: &[u8], out: &mut [u8], g: Gathered) -> io::Result<()> {
    let last = if g.length > 0 {
        ended(rt, line, out, g)?
    } else {
        g
    };
    written(rt, out, last)?;
    Ok(())
}
