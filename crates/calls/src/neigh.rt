// neigh LX LY RX RY S C IO  LX LY RX RY S C IO: code N TYPE TYPE new K chain X Y L .. chain X Y L .., the code, both edge types, how many records
// were made, and each segment's events in turn. The segments are records 0 and 1, 2 and 3 of a pool that has room for four more.
use crate::{answers, left, pairs, words};
use events::pool::{enter_event, read_event};
use events::{EdgeType, ResultTransition};
use records::dividing::possible_intersection;

const FIRST: u32 = 0;

const SECOND: u32 = 2;

const USED: u32 = 4;

// No segment is in more pieces.
const PIECES: usize = 3;

// A left record whose in-out flag is IO.
fn record(
    line: &[u8],
    from: usize,
    points: &mut [[u64; 2]],
    marks: &mut [[u32; 12]],
    i: u32,
    j: u32,
) -> usize {
    let mut in_out = [false; 1];
    let at = left::record(line, from, points, marks, i, j);
    let after = words::flags(line, at, &mut in_out);
    let e = read_event(points, marks, i);
    let flagged = pairs::computed(
        e,
        EdgeType::Normal,
        ResultTransition::None,
        in_out[0],
        false,
        None,
    );
    enter_event(points, marks, i, flagged);
    after
}

fn edge_type(out: &mut [u8], at: usize, edge_type: EdgeType) -> usize {
    match edge_type {
        EdgeType::Normal => answers::word(out, at, b" normal"),
        EdgeType::NonContributing => answers::word(out, at, b" non"),
        EdgeType::SameTransition => answers::word(out, at, b" same"),
        EdgeType::DifferentTransition => answers::word(out, at, b" different"),
    }
}

// The piece of a segment that begins at record i: both ends.
fn piece(points: &[[u64; 2]], marks: &[[u32; 12]], i: u32, out: &mut [u8], from: usize) -> usize {
    let e = read_event(points, marks, i);
    let at = answers::end(out, from, e);
    answers::end(out, at, read_event(points, marks, e.partner))
}

// The new left end that a division made with this new right end.
fn next(right: u32) -> u32 {
    if right < u32::MAX { right + 1 } else { right }
}

// The pieces of the segment from the first record to the last.
fn chain(
    points: &[[u64; 2]],
    marks: &[[u32; 12]],
    first: u32,
    last: u32,
    out: &mut [u8],
    from: usize,
) -> usize {
    let mut at = answers::word(out, from, b" chain");
    let mut i = first;
    for _ in 0..PIECES {
        at = piece(points, marks, i, out, at);
        let right = read_event(points, marks, i).partner;
        if right == last {
            return at;
        }
        i = next(right);
    }
    at
}

// code N TYPE TYPE
fn done(out: &mut [u8], from: usize, code: u32, first: EdgeType, second: EdgeType) -> usize {
    let at = answers::word(out, from, b"code ");
    let at = answers::decimal(out, at, code as u64);
    let at = edge_type(out, at, first);
    edge_type(out, at, second)
}

fn told(
    points: &[[u64; 2]],
    marks: &[[u32; 12]],
    code: u32,
    made: u32,
    out: &mut [u8],
    from: usize,
) -> usize {
    let first = read_event(points, marks, FIRST).edge_type;
    let second = read_event(points, marks, SECOND).edge_type;
    let at = done(out, from, code, first, second);
    let at = answers::word(out, at, b" new ");
    let at = answers::decimal(out, at, made as u64);
    let at = chain(points, marks, FIRST, 1, out, at);
    chain(points, marks, SECOND, 3, out, at)
}

fn made(used: u32) -> u32 {
    if USED <= used { used - USED } else { 0 }
}

fn met(
    points: &mut [[u64; 2]],
    marks: &mut [[u32; 12]],
    mode: u32,
    out: &mut [u8],
    at: usize,
) -> usize {
    let n = possible_intersection(points, marks, USED, FIRST, SECOND, mode);
    let met = n.met;
    match met {
        Err(refusal) => answers::refused(out, at, refusal),
        Ok(code) => told(points, marks, code, made(n.used), out, at),
    }
}

pub fn answer(line: &[u8], from: usize, mode: u32, out: &mut [u8], at: usize) -> usize {
    let mut points = [[0u64; 2]; 8];
    let mut marks = [[0u32; 12]; 8];
    let next = record(line, from, &mut points, &mut marks, FIRST, 1);
    if record(line, next, &mut points, &mut marks, SECOND, 3) != line.len() {
        return answers::malformed(out, at);
    }
    met(&mut points, &mut marks, mode, out, at)
}
