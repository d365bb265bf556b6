// One cut as a step of several: none follows a refusal.
ghost use Rattle.std.specs.Prelude.{◌≡◌, ◌+◌, Ok};
ghost use Rattle.events.specs.Binary64.{at_binary64};
ghost use Rattle.events.specs.Pool.{pool, stored};
ghost use Rattle.neighbours.specs.Step as Spec;
ghost use Rattle.neighbours.specs.Step.{step};

use division::divide_segment;
use numbers::Point;
use refusals::Refusal;

#[derive(Clone, Copy)]
pub struct Step {
    pub used: u32,
    pub stop: Result<(), Refusal>,
}

// Nothing was done.
pub fn still(used: u32) -> Step
    ensures { (result.used ≡ used) × (result.stop ≡ Ok tt) }
{
    Step {
        used: used,
        stop: Ok(()),
    }
}

// The segment of record i is cut at p.
pub fn cut(points: &mut [[u64; 2]], marks: &mut [[u32; 12]], used: u32, i: u32, p: Point) -> Step
    ensures { step (pool points.new marks.new) result.used result.stop ≡ Spec.cut at_binary64 stored (pool points.old marks.old) used i p }
{
    match divide_segment(points, marks, used, i, p) {
        Ok(d) => Step {
            used: d.left + 1,
            stop: Ok(()),
        },
        Err(refusal) => Step {
            used: used,
            stop: Err(refusal),
        },
    }
}

// The same, where the segment is to be cut at all.
pub fn cut_unless(
    points: &mut [[u64; 2]],
    marks: &mut [[u32; 12]],
    used: u32,
    not_to_be: bool,
    i: u32,
    p: Point,
) -> Step
    ensures { step (pool points.new marks.new) result.used result.stop ≡ Spec.cut_unless at_binary64 stored not_to_be (pool points.old marks.old) used i p }
{
    if not_to_be {
        return still(used);
    }
    cut(points, marks, used, i, p)
}

// One cut, and then another.
pub fn twice(
    points: &mut [[u64; 2]],
    marks: &mut [[u32; 12]],
    used: u32,
    i: u32,
    p: Point,
    j: u32,
    q: Point,
) -> Step
    ensures { step (pool points.new marks.new) result.used result.stop ≡ Spec.twice at_binary64 stored (pool points.old marks.old) used i p j q }
{
    let first = cut(points, marks, used, i, p);
    let stop = first.stop;
    match stop {
        Ok(()) => cut(points, marks, first.used, j, q),
        Err(_) => first,
    }
}

// One cut, and then another of the new left end that it made.
pub fn cut_on(
    points: &mut [[u64; 2]],
    marks: &mut [[u32; 12]],
    used: u32,
    i: u32,
    p: Point,
    q: Point,
) -> Step
    ensures { step (pool points.new marks.new) result.used result.stop ≡ Spec.twice at_binary64 stored (pool points.old marks.old) used i p (used + 1) q }
{
    let first = cut(points, marks, used, i, p);
    let stop = first.stop;
    match stop {
        Ok(()) => cut(points, marks, first.used, first.used - 1, q),
        Err(_) => first,
    }
}
