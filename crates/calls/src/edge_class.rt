// class OP S TYPE -, or class OP S TYPE  S V IO OIO TR LINK: in-out, other-in-out, transition and below link of the edge, record 0. Its lower
// neighbour is record 2, that one's below link leads to 4, and the edge's own, from an earlier computation, to 6.
use crate::pairs::Edge;
use crate::{answers, kinds, pairs, words};
use class::Operation;
use events::pool::{enter_event, read_event};
use events::{EdgeType, Event, ResultTransition};
use numbers::Point;
use records::compute_fields;

// Coordinates by their bits.
const ZERO: u64 = 0;

const ONE: u64 = 0x3ff0_0000_0000_0000;

const MINUS_ONE: u64 = 0xbff0_0000_0000_0000;

const EDGE: u32 = 0;

const LOWER: u32 = 2;

const BELOW: u32 = 4;

const STALE: u32 = 6;

// An edge from (0, y) to (x, 1), as records i and j.
fn store(
    points: &mut [[u64; 2]],
    marks: &mut [[u32; 12]],
    i: u32,
    j: u32,
    y: u64,
    x: u64,
    subject: bool,
) {
    let from = Point { x: ZERO, y };
    let to = Point { x, y: ONE };
    pairs::store(
        points,
        marks,
        i,
        j,
        Edge {
            from,
            to,
            left: true,
            subject,
            ring: 0,
        },
    );
}

// Those that links lead to.
fn store_linked(points: &mut [[u64; 2]], marks: &mut [[u32; 12]]) {
    store(points, marks, BELOW, 5, ZERO, ONE, true);
    store(points, marks, STALE, 7, ZERO, ONE, true);
}

fn store_edge(
    points: &mut [[u64; 2]],
    marks: &mut [[u32; 12]],
    subject: bool,
    edge_type: EdgeType,
) {
    store(points, marks, EDGE, 1, ZERO, ONE, subject);
    let e = read_event(points, marks, EDGE);
    let stale = pairs::computed(
        e,
        edge_type,
        ResultTransition::None,
        false,
        false,
        Some(STALE),
    );
    enter_event(points, marks, EDGE, stale);
}

// S V IO OIO TR LINK: the lower neighbour.
fn lower(line: &[u8], from: usize, points: &mut [[u64; 2]], marks: &mut [[u32; 12]]) -> usize {
    let mut flags = [false; 4];
    let mut linked = [false; 1];
    let at = words::flags(line, from, &mut flags);
    let Some((transition, at)) = kinds::transition(line, at) else {
        return words::MISSING;
    };
    let after = words::flags(line, at, &mut linked);
    let x = if flags[1] { ZERO } else { ONE };
    let below = if linked[0] { Some(BELOW) } else { None };
    store(points, marks, LOWER, 3, MINUS_ONE, x, flags[0]);
    let e = read_event(points, marks, LOWER);
    enter_event(
        points,
        marks,
        LOWER,
        pairs::computed(e, EdgeType::Normal, transition, flags[2], flags[3], below),
    );
    after
}

fn transition(out: &mut [u8], at: usize, transition: ResultTransition) -> usize {
    match transition {
        ResultTransition::None => answers::word(out, at, b" none "),
        ResultTransition::InOut => answers::word(out, at, b" inout "),
        ResultTransition::OutIn => answers::word(out, at, b" outin "),
    }
}

fn link(out: &mut [u8], at: usize, below: Option<u32>) -> usize {
    match below {
        None => answers::word(out, at, b"-"),
        Some(n) => {
            if n == LOWER {
                return answers::word(out, at, b"prev");
            }
            if n == BELOW {
                return answers::word(out, at, b"prevprev");
            }
            answers::word(out, at, b"stale")
        }
    }
}

fn told(out: &mut [u8], from: usize, e: Event) -> usize {
    let way = e.transition;
    let below = e.below;
    let at = answers::flag(out, from, e.in_out);
    let at = answers::word(out, at, b" ");
    let at = answers::flag(out, at, e.other_in_out);
    let at = transition(out, at, way);
    link(out, at, below)
}

fn computed_above(
    points: &mut [[u64; 2]],
    marks: &mut [[u32; 12]],
    lower: Option<u32>,
    operation: Operation,
    out: &mut [u8],
    at: usize,
) -> usize {
    match compute_fields(points, marks, EDGE, lower, operation) {
        Err(refusal) => answers::refused(out, at, refusal),
        Ok(()) => told(out, at, read_event(points, marks, EDGE)),
    }
}

pub fn answer(line: &[u8], from: usize, out: &mut [u8], at: usize) -> usize {
    let mut points = [[0u64; 2]; 8];
    let mut marks = [[0u32; 12]; 8];
    let mut subject = [false; 1];
    let Some((operation, next)) = kinds::operation(line, from) else {
        return answers::malformed(out, at);
    };
    let next = words::flags(line, next, &mut subject);
    let Some((edge_type, next)) = kinds::edge_type(line, next) else {
        return answers::malformed(out, at);
    };
    store_edge(&mut points, &mut marks, subject[0], edge_type);
    store_linked(&mut points, &mut marks);
    if words::passed(line, next, b" -") == line.len() {
        return computed_above(&mut points, &mut marks, None, operation, out, at);
    }
    if lower(line, next, &mut points, &mut marks) == line.len() {
        return computed_above(&mut points, &mut marks, Some(LOWER), operation, out, at);
    }
    answers::malformed(out, at)
}
