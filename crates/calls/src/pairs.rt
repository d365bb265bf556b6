// The records of a call, in a small pool made for it: each edge's two ends.
use events::pool::enter_event;
use events::{EdgeType, Event, ResultTransition, fresh_event};
use numbers::Point;

// A left end with what an earlier computation left.
pub fn computed(
    e: Event,
    edge_type: EdgeType,
    transition: ResultTransition,
    in_out: bool,
    other_in_out: bool,
    below: Option<u32>,
) -> Event {
    Event {
        below,
        edge_type,
        transition,
        in_out,
        other_in_out,
        contour: None,
        ..e
    }
}

// An edge of the call, from one end to the other.
#[derive(Clone, Copy)]
pub struct Edge {
    pub from: Point,
    pub to: Point,
    pub left: bool,
    pub subject: bool,
    pub ring: u32,
}

// Stores both ends, as records i and j.
pub fn store(points: &mut [[u64; 2]], marks: &mut [[u32; 12]], i: u32, j: u32, e: Edge) {
    let first = fresh_event(e.from, e.left, e.subject, e.ring, j);
    let second = fresh_event(e.to, !e.left, e.subject, e.ring, i);
    enter_event(points, marks, i, first);
    enter_event(points, marks, j, second);
}
