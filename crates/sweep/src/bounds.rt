// Early stop: how far each layer reaches.
ghost use Rattle.std.specs.Prelude.{◌≡◌, Bool, cond};
ghost use Rattle.std.specs.Bool.{beq};
ghost use Rattle.events.specs.Binary64.{at_binary64};
ghost use Rattle.events.specs.Pool.{pool, row_at};
ghost use Rattle.sweep.specs.Bounds.{reach_of, is_right_of, is_past};
ghost use Rattle.sweep.specs.Bounds as Spec;

use class::Operation;
use events::points::less_x;
use events::pool::read_event;
use numbers::Point;

// Of both layers.
#[derive(Clone, Copy)]
pub struct Bounds {
    pub subject: Option<Point>,
    pub clip: Option<Point>,
}

// The one with the larger x.
#[tactic(auto, unfolding(crate::specs::Bounds::farther))]
fn farther(reach: Option<Point>, p: Point) -> Option<Point>
    ensures { reach_of result ≡ Spec.farther at_binary64 (reach_of reach) p }
{
    match reach {
        None => Some(p),
        Some(q) => {
            if less_x(q, p) {
                return Some(p);
            }
            Some(q)
        }
    }
}

// With record r, where it is of the layer.
fn reach_with(
    points: &[[u64; 2]],
    marks: &[[u32; 12]],
    subject: bool,
    reach: Option<Point>,
    r: u32,
) -> Option<Point>
    ensures { reach_of result ≡ cond (beq (row_at (pool points.now marks.now) r).subject subject) (Spec.farther at_binary64 (reach_of reach) (row_at (pool points.now marks.now) r).point) (reach_of reach) }
{
    let e = read_event(points, marks, r);
    if e.subject == subject {
        return farther(reach, e.point);
    }
    reach
}

// Of one layer's loaded records.
#[tactic(auto, unfolding(crate::specs::Bounds::rightmost))]
fn rightmost(points: &[[u64; 2]], marks: &[[u32; 12]], loaded: u32, subject: bool) -> Option<Point>
    ensures { reach_of result ≡ Spec.rightmost at_binary64 (row_at (pool points.now marks.now)) subject loaded }
{
    let mut reach = None;
    for r in 0..loaded {
        reach = reach_with(points, marks, subject, reach, r);
    }
    reach
}

pub fn bounds_of(points: &[[u64; 2]], marks: &[[u32; 12]], loaded: u32) -> Bounds
    ensures subject_value { reach_of result.subject ≡ Spec.rightmost at_binary64 (row_at (pool points.now marks.now)) Bool.true loaded }
    ensures clip_value { reach_of result.clip ≡ Spec.rightmost at_binary64 (row_at (pool points.now marks.now)) Bool.false loaded }
{
    Bounds {
        subject: rightmost(points, marks, loaded, true),
        clip: rightmost(points, marks, loaded, false),
    }
}

// An empty layer's largest x is below every number.
#[tactic(auto, unfolding(crate::specs::Bounds::is_right_of))]
fn is_right_of(reach: Option<Point>, p: Point) -> bool
    ensures { result ≡ is_right_of at_binary64 (reach_of reach) p }
{
    match reach {
        None => true,
        Some(q) => less_x(q, p),
    }
}

// No event from here on matters to the operation.
#[tactic(auto, unfolding(crate::specs::Bounds::is_past))]
pub fn is_past(bounds: Bounds, operation: Operation, p: Point) -> bool
    ensures { result ≡ is_past at_binary64 operation (reach_of bounds.subject) (reach_of bounds.clip) p }
{
    match operation {
        Operation::Intersection => is_right_of(bounds.subject, p) | is_right_of(bounds.clip, p),
        Operation::Difference => is_right_of(bounds.subject, p),
        Operation::Union => false,
        Operation::Xor => false,
    }
}
