// 01's entries on single records of a pool: checked first, refused with all arrays as lent, else answered.
#![tactic(auto)]

ghost use Rattle.std.specs.Prelude.{◌≡◌};
ghost use Rattle.events.specs.Pool.{pool};
ghost use Rattle.checks.specs.OnPool.{checked_left_named};
ghost use Rattle.records.specs.Records.{is_before, compare_segments, compute_fields, named_with, outcome};

use checks::{check_left_one, check_left_two, check_two};
use class::Operation;
use class::on_pool::compute_fields_at;
use order::before_at;
use refusals::Refusal;
use segments::compare_segments_at;
use std::cmp::Ordering;

pub mod dividing;
mod in_use;

// Whether record a comes before record b in event order; both ways for a tie.
pub fn is_before(points: &[[u64; 2]], marks: &[[u32; 12]], a: u32, b: u32) -> Result<bool, Refusal>
    ensures { result ≡ is_before (pool points.now marks.now) a b }
{
    check_two(points, marks, a, b)?;
    Ok(before_at(points, marks, a, b))
}

// Where the segment of left record a stands to that of left record b.
pub fn compare_segments(
    points: &[[u64; 2]],
    marks: &[[u32; 12]],
    a: u32,
    b: u32,
    mode: u32,
) -> Result<Ordering, Refusal>
    ensures { result ≡ compare_segments mode (pool points.now marks.now) a b }
{
    check_left_two(points, marks, a, b)?;
    Ok(compare_segments_at(points, marks, a, b, mode))
}

// The left record e, then the lower neighbour where there is one.
fn check_with(
    points: &[[u64; 2]],
    marks: &[[u32; 12]],
    e: u32,
    lower: Option<u32>,
) -> Result<(), Refusal>
    ensures { result ≡ checked_left_named (pool points.now marks.now) (named_with e lower) }
{
    match lower {
        None => check_left_one(points, marks, e),
        Some(n) => check_left_two(points, marks, e, n),
    }
}

// The class of left record e above the left record that `lower` names, stored.
pub fn compute_fields(
    points: &mut [[u64; 2]],
    marks: &mut [[u32; 12]],
    e: u32,
    lower: Option<u32>,
    operation: Operation,
) -> Result<(), Refusal>
    ensures { outcome result (pool points.new marks.new) ≡ compute_fields operation (pool points.old marks.old) e lower }
{
    check_with(points, marks, e, lower)?;
    compute_fields_at(points, marks, e, lower, operation);
    Ok(())
}
