// In which naming two segments are computed with.
ghost use Rattle.std.specs.Prelude.{◌≡◌};
ghost use Rattle.crossing.specs.Modes.{ends_in_order, comes_first, in_order, unsigned_segment, ordered_pair, named_in};

use crate::PLAIN;
use numbers::Coordinate;
use numbers::points::{is_ahead, unsigned_point};

#[derive(Clone, Copy)]
pub struct Segment {
    pub from: Coordinate,
    pub to: Coordinate,
}

#[derive(Clone, Copy)]
pub struct Pair {
    pub a: Segment,
    pub b: Segment,
}

fn ends_in_order(s: Segment) -> Segment
    ensures { result ≡ ends_in_order s }
{
    let from = s.from;
    let to = s.to;
    if is_ahead(to, from) {
        return Segment { from: to, to: from };
    }
    s
}

// By the first end, then the second.
fn comes_first(s: Segment, t: Segment) -> bool
    ensures { result ≡ comes_first s t }
{
    if is_ahead(s.from, t.from) {
        return true;
    }
    if is_ahead(t.from, s.from) {
        return false;
    }
    is_ahead(s.to, t.to)
}

fn in_order(s: Segment, t: Segment) -> Pair
    ensures { result ≡ in_order s t }
{
    if comes_first(t, s) {
        return Pair { a: t, b: s };
    }
    Pair { a: s, b: t }
}

fn unsigned_segment(s: Segment) -> Segment
    ensures { result ≡ unsigned_segment s }
{
    Segment {
        from: unsigned_point(s.from),
        to: unsigned_point(s.to),
    }
}

fn ordered_pair(p: Pair) -> Pair
    ensures { result ≡ ordered_pair p }
{
    let a = ends_in_order(unsigned_segment(p.a));
    let b = ends_in_order(unsigned_segment(p.b));
    in_order(a, b)
}

// As they stand in the plain mode, in order in any other.
pub fn named_in(mode: u32, p: Pair) -> Pair
    ensures { result ≡ named_in mode p }
{
    if mode == PLAIN {
        return p;
    }
    ordered_pair(p)
}
