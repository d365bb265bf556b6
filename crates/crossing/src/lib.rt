// Crossing of two segments (`segment_intersection.rs`): named as the mode has them, then the boxes, the two lines, the clamp.
#![tactic(auto)]

ghost use Rattle.std.specs.Prelude.{◌≡◌};
ghost use Rattle.crossing.specs.Crossing.{intersection_of, intersection_in, crossing_in};

use numbers::Coordinate;
use refusals::{Reason, Refusal};

mod boxes;
mod lines;
mod modes;

use modes::{Pair, Segment};

// The segments as they are named.
pub const PLAIN: u32 = 0;
// Minus zero turned into zero, then ends and segments in order: the answer does not depend on how they are named. Every number but PLAIN means this.
pub const ORDERED: u32 = 1;

#[derive(Clone, Copy)]
pub enum LineIntersection {
    None,
    Point(Coordinate),
    Overlap(Coordinate, Coordinate),
    // A coordinate of the answer is not a number.
    Lost,
}

// As they are named.
fn intersection_of(
    a1: Coordinate,
    a2: Coordinate,
    b1: Coordinate,
    b2: Coordinate,
) -> LineIntersection
    ensures { result ≡ intersection_of a1 a2 b1 b2 }
{
    match boxes::get_intersection_bounding_box(a1, a2, b1, b2) {
        None => LineIntersection::None,
        Some(bb) => {
            boxes::or_lost(boxes::constrained(lines::intersection_impl(a1, a2, b1, b2), bb))
        }
    }
}

// What two segments have in common, for any numbers.
pub fn intersection(
    mode: u32,
    a1: Coordinate,
    a2: Coordinate,
    b1: Coordinate,
    b2: Coordinate,
) -> LineIntersection
    ensures { result ≡ intersection_in mode a1 a2 b1 b2 }
{
    let a = Segment { from: a1, to: a2 };
    let b = Segment { from: b1, to: b2 };
    let named = modes::named_in(mode, Pair { a: a, b: b });
    let first = named.a;
    let second = named.b;
    intersection_of(first.from, first.to, second.from, second.to)
}

// The crossing of (ax, ay)-(bx, by) with (cx, cy)-(dx, dy); refused where one of the eight is not finite.
pub fn crossing(
    mode: u32,
    ax: f64,
    ay: f64,
    bx: f64,
    by: f64,
    cx: f64,
    cy: f64,
    dx: f64,
    dy: f64,
) -> Result<LineIntersection, Refusal>
    ensures { result ≡ crossing_in mode ax ay bx by cx cy dx dy }
{
    let given = [ax, ay, bx, by, cx, cy, dx, dy];
    let first = numbers::first_not_finite(&given);
    if first < 8 {
        return Err(Refusal {
            reason: Reason::Coordinate,
            place: first as u64,
        });
    }
    Ok(intersection(
        mode,
        Coordinate { x: ax, y: ay },
        Coordinate { x: bx, y: by },
        Coordinate { x: cx, y: cy },
        Coordinate { x: dx, y: dy },
    ))
}
