// What two neighbours have in common, and what is done about it.
ghost use Rattle.std.specs.Prelude.{◌≡◌, cond};
ghost use Rattle.events.specs.Coordinates.{point};
ghost use Rattle.events.specs.Binary64.{at_binary64, shown_meeting};
ghost use Rattle.events.specs.Pool.{pool, stored};
ghost use Rattle.neighbours.specs.Step.{step};
ghost use Rattle.neighbours.specs.Neighbours as Spec;
ghost use Rattle.neighbours.specs.Neighbours.{meeting, met_by};

use crate::Neighbours;
use crate::overlap::{lay, left_point, left_shared, right_point};
use crate::step::{Step, cut_unless, still};
use events::points::{Meeting, same_point};
use events::pool::read_used;
use numbers::Point;
use order::{before, key_used};
use refusals::{Reason, Refusal};

// p is an end of the segment of record r.
fn at_end(points: &[[u64; 2]], marks: &[[u32; 12]], used: u32, r: u32, p: Point) -> bool
    ensures { result ≡ Spec.at_end at_binary64 stored (pool points.now marks.now) used r p }
{
    if same_point(left_point(points, marks, used, r), p) {
        return true;
    }
    same_point(right_point(points, marks, used, r), p)
}

// Each segment is cut at p, unless it ends there.
fn cross(
    points: &mut [[u64; 2]],
    marks: &mut [[u32; 12]],
    used: u32,
    a: u32,
    b: u32,
    p: Point,
) -> Step
    ensures { step (pool points.new marks.new) result.used result.stop ≡ Spec.crossed at_binary64 stored (pool points.old marks.old) used a b p }
{
    let a_ends = at_end(points, marks, used, a, p);
    let b_ends = at_end(points, marks, used, b, p);
    let first = cut_unless(points, marks, used, a_ends, a, p);
    let stop = first.stop;
    match stop {
        Ok(()) => cut_unless(points, marks, first.used, b_ends, b, p),
        Err(_) => first,
    }
}

fn met(stop: Result<(), Refusal>, code: u32) -> Result<u32, Refusal>
    ensures { result ≡ met_by stop code }
{
    match stop {
        Ok(()) => Ok(code),
        Err(refusal) => Err(refusal),
    }
}

fn ended(last: Step, code: u32) -> Neighbours
    ensures { (result.used ≡ last.used) × (result.met ≡ met_by last.stop code) }
{
    let stop = last.stop;
    Neighbours {
        used: last.used,
        met: met(stop, code),
    }
}

// The segments have a point in common: nothing is done where it is a shared end.
fn meet_at(
    points: &mut [[u64; 2]],
    marks: &mut [[u32; 12]],
    used: u32,
    a: u32,
    b: u32,
    p: Point,
    one_left: bool,
    one_right: bool,
) -> Neighbours
    ensures { meeting (pool points.new marks.new) result.used result.met ≡ Spec.meet_by at_binary64 stored (point p) (pool points.old marks.old) used a b one_left one_right }
{
    if one_left {
        return ended(still(used), 0);
    }
    if one_right {
        return ended(still(used), 0);
    }
    ended(cross(points, marks, used, a, b, p), 1)
}

fn pick(test: bool, a: u32, b: u32) -> u32
    ensures { result ≡ cond test a b }
{
    if test { a } else { b }
}

// The segment of a ends before that of b, in event order.
fn ends_first(points: &[[u64; 2]], marks: &[[u32; 12]], used: u32, a: u32, b: u32) -> bool
    ensures { result ≡ Spec.ends_first at_binary64 stored (pool points.now marks.now) used a b }
{
    let right_a = read_used(points, marks, used, a).partner;
    let right_b = read_used(points, marks, used, b).partner;
    before(
        key_used(points, marks, used, right_a),
        key_used(points, marks, used, right_b),
    )
}

fn begins_first(points: &[[u64; 2]], marks: &[[u32; 12]], used: u32, a: u32, b: u32) -> bool
    ensures { result ≡ Spec.begins_first at_binary64 stored (pool points.now marks.now) used a b }
{
    before(
        key_used(points, marks, used, a),
        key_used(points, marks, used, b),
    )
}

fn one_layer(points: &[[u64; 2]], marks: &[[u32; 12]], used: u32, a: u32, b: u32) -> bool
    ensures { result ≡ Spec.one_layer at_binary64 stored (pool points.now marks.now) used a b }
{
    read_used(points, marks, used, a).subject == read_used(points, marks, used, b).subject
}

// The segments of two layers overlap.
fn overlap(
    points: &mut [[u64; 2]],
    marks: &mut [[u32; 12]],
    used: u32,
    a: u32,
    b: u32,
    one_left: bool,
    one_right: bool,
) -> Neighbours
    ensures { meeting (pool points.new marks.new) result.used result.met ≡ Spec.overlapped at_binary64 stored (pool points.old marks.old) used a b one_left one_right }
{
    let ends = ends_first(points, marks, used, a, b);
    let h = pick(ends, a, b);
    let k = pick(ends, b, a);
    if one_left {
        return ended(left_shared(points, marks, used, a, b, one_right, h, k), 2);
    }
    let first = begins_first(points, marks, used, a, b);
    let i = pick(first, a, b);
    let j = pick(first, b, a);
    ended(lay(points, marks, used, one_right, i, j, h, k), 3)
}

// By what the segments have in common. Lost is refused at the first of the pair.
pub fn meet_by(
    points: &mut [[u64; 2]],
    marks: &mut [[u32; 12]],
    used: u32,
    a: u32,
    b: u32,
    found: Meeting,
    one_left: bool,
    one_right: bool,
) -> Neighbours
    ensures { meeting (pool points.new marks.new) result.used result.met ≡ Spec.meet_by at_binary64 stored (shown_meeting found) (pool points.old marks.old) used a b one_left one_right }
{
    match found {
        Meeting::Nothing => ended(still(used), 0),
        Meeting::Lost => Neighbours {
            used: used,
            met: Err(Refusal {
                reason: Reason::Cut,
                place: a as u64,
            }),
        },
        Meeting::At(p) => meet_at(points, marks, used, a, b, p, one_left, one_right),
        Meeting::Along(_, _) => {
            if one_layer(points, marks, used, a, b) {
                return ended(still(used), 0);
            }
            overlap(points, marks, used, a, b, one_left, one_right)
        }
    }
}
