// Neighbours (`possible_intersection.rs`): two segments that have become neighbours in the status are cut where they cross or overlap.
#![tactic(auto)]

ghost use Rattle.std.specs.Prelude.{◌≡◌};
ghost use Rattle.events.specs.Binary64.{at_binary64, in_mode};
ghost use Rattle.events.specs.Pool.{pool, stored};
ghost use Rattle.neighbours.specs.Neighbours.{meeting, meet};

use events::points::{crossing, same_point};
use meeting::meet_by;
use overlap::{left_point, right_point};
use refusals::Refusal;

mod meeting;
mod overlap;
mod step;

#[derive(Clone, Copy)]
pub struct Neighbours {
    // The places in use now.
    pub used: u32,
    pub met: Result<u32, Refusal>,
}

// The segments of two left records, where the first `used` places of the pool are in use: codes 0 to 3 and their divisions as the source.
pub fn possible_intersection(
    points: &mut [[u64; 2]],
    marks: &mut [[u32; 12]],
    used: u32,
    a: u32,
    b: u32,
    mode: u32,
) -> Neighbours
    ensures { meeting (pool points.new marks.new) result.used result.met ≡ meet at_binary64 stored (in_mode mode) (pool points.old marks.old) used a b }
{
    let left_a = left_point(points, marks, used, a);
    let right_a = right_point(points, marks, used, a);
    let left_b = left_point(points, marks, used, b);
    let right_b = right_point(points, marks, used, b);
    let found = crossing(mode, left_a, right_a, left_b, right_b);
    meet_by(
        points,
        marks,
        used,
        a,
        b,
        found,
        same_point(left_a, left_b),
        same_point(right_a, right_b),
    )
}
