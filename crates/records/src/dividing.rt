// The entries that divide: what was done before a refusal by 6 or 7 stays, any other leaves all as lent.
ghost use Rattle.std.specs.Prelude.{◌≡◌};
ghost use Rattle.events.specs.Pool.{pool};
ghost use Rattle.neighbours.specs.Neighbours.{meeting};
ghost use Rattle.records.specs.Records.{outcome};
ghost use Rattle.records.specs.Dividing.{divide_segment, possible_intersection};

use crate::in_use::{check_left_two_in, check_one_in};
use division::Divided;
use neighbours::Neighbours;
use numbers::Point;
use refusals::Refusal;

// Divides the segment of left record i at a cut, where the first `used` places are in use.
pub fn divide_segment(
    points: &mut [[u64; 2]],
    marks: &mut [[u32; 12]],
    used: u32,
    i: u32,
    cut: Point,
) -> Result<Divided, Refusal>
    ensures { outcome result (pool points.new marks.new) ≡ divide_segment (pool points.old marks.old) used i cut }
{
    check_one_in(points, marks, used, i)?;
    division::divide_segment(points, marks, used, i, cut)
}

// Cuts the segments of two left records where they cross or overlap.
pub fn possible_intersection(
    points: &mut [[u64; 2]],
    marks: &mut [[u32; 12]],
    used: u32,
    a: u32,
    b: u32,
    mode: u32,
) -> Neighbours
    ensures { meeting (pool points.new marks.new) result.used result.met ≡ possible_intersection mode (pool points.old marks.old) used a b }
{
    match check_left_two_in(points, marks, used, a, b) {
        Err(refusal) => Neighbours {
            used: used,
            met: Err(refusal),
        },
        Ok(()) => neighbours::possible_intersection(points, marks, used, a, b, mode),
    }
}
