// The box that two segments share, and the clamp of an answer to it.
ghost use Rattle.std.specs.Prelude.{◌≡◌};
ghost use Rattle.crossing.specs.Boxes.{lesser, greater, box_from, shared_box, within, clamp, is_lost, constrained_to, or_lost};

use crate::LineIntersection;
use numbers::{BoundingBox, Coordinate, max, min};

fn lesser_of(a: f64, b: f64) -> f64
    ensures { result ≡ lesser a b }
{
    if a < b { a } else { b }
}

fn greater_of(a: f64, b: f64) -> f64
    ensures { result ≡ greater a b }
{
    if a < b { b } else { a }
}

fn box_from(start: Coordinate, end: Coordinate) -> Option<BoundingBox>
    ensures { result ≡ box_from start end }
{
    if start.x <= end.x {
        if start.y <= end.y {
            return Some(BoundingBox {
                min: start,
                max: end,
            });
        }
    }
    None
}

pub fn get_intersection_bounding_box(
    a1: Coordinate,
    a2: Coordinate,
    b1: Coordinate,
    b2: Coordinate,
) -> Option<BoundingBox>
    ensures { result ≡ shared_box a1 a2 b1 b2 }
{
    let start = Coordinate {
        x: max(lesser_of(a1.x, a2.x), lesser_of(b1.x, b2.x)),
        y: max(lesser_of(a1.y, a2.y), lesser_of(b1.y, b2.y)),
    };
    let end = Coordinate {
        x: min(greater_of(a1.x, a2.x), greater_of(b1.x, b2.x)),
        y: min(greater_of(a1.y, a2.y), greater_of(b1.y, b2.y)),
    };
    box_from(start, end)
}

fn constrain(p: f64, low: f64, high: f64) -> f64
    ensures { result ≡ within p low high }
{
    if p < low {
        low
    } else if p > high {
        high
    } else {
        p
    }
}

fn constrain_to_bounding_box(p: Coordinate, bb: BoundingBox) -> Coordinate
    ensures { result ≡ clamp p bb }
{
    Coordinate {
        x: constrain(p.x, bb.min.x, bb.max.x),
        y: constrain(p.y, bb.min.y, bb.max.y),
    }
}

// Each corner of the answer clamped to the box.
pub fn constrained(found: LineIntersection, bb: BoundingBox) -> LineIntersection
    ensures { result ≡ constrained_to found bb }
{
    match found {
        LineIntersection::None => LineIntersection::None,
        LineIntersection::Point(p) => LineIntersection::Point(constrain_to_bounding_box(p, bb)),
        LineIntersection::Overlap(p, q) => LineIntersection::Overlap(
            constrain_to_bounding_box(p, bb),
            constrain_to_bounding_box(q, bb),
        ),
        LineIntersection::Lost => LineIntersection::Lost,
    }
}

fn lost(p: Coordinate) -> bool
    ensures { result ≡ is_lost p }
{
    if p.x != p.x {
        return true;
    }
    p.y != p.y
}

// Lost where a coordinate of the answer is not a number.
pub fn or_lost(found: LineIntersection) -> LineIntersection
    ensures { result ≡ or_lost found }
{
    match found {
        LineIntersection::None => LineIntersection::None,
        LineIntersection::Point(p) => {
            if lost(p) {
                return LineIntersection::Lost;
            }
            found
        }
        LineIntersection::Overlap(p, q) => {
            if lost(p) {
                return LineIntersection::Lost;
            }
            if lost(q) {
                return LineIntersection::Lost;
            }
            found
        }
        LineIntersection::Lost => LineIntersection::Lost,
    }
}
