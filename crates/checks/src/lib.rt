// 01's refusals 1, 2 and 4 for the records of a pool, run once at each public entry.
#![tactic(auto)]

ghost use Rattle.std.specs.Prelude.{◌≡◌, [], ◌∷◌};
ghost use Rattle.events.specs.Binary64.{at_binary64};
ghost use Rattle.events.specs.Pool.{pool, row_at};
ghost use Rattle.checks.specs.Checks.{checked};
ghost use Rattle.checks.specs.Numbers.{numbers_from};
ghost use Rattle.checks.specs.OnPool.{checked_named, checked_left_named};

use crate::sizes::places;
use refusals::Refusal;

pub mod list;
pub mod loaded;
pub mod records;
pub mod sizes;

// What can be wrong with one record: refusal 2, refusal 4.
#[derive(Clone, Copy, Debug, PartialEq, Eq)]
pub enum Fault {
    Unfit,
    Mistaken,
    // Also where it is one of these two, which are wanted left, and is right.
    MistakenOrRight(u32, u32),
}

// For an entry that names one record: refusals 1, 2 and 4 for it and its partner.
pub fn check_one(points: &[[u64; 2]], marks: &[[u32; 12]], a: u32) -> Result<(), Refusal>
    ensures { result ≡ checked_named (pool points.now marks.now) (a ∷ []) }
{
    let n = places(points, marks);
    let named = [a, records::mate(points, marks, n, a)];
    list::check_records(points, marks, &named)
}

// For an entry that names two records.
pub fn check_two(points: &[[u64; 2]], marks: &[[u32; 12]], a: u32, b: u32) -> Result<(), Refusal>
    ensures { result ≡ checked_named (pool points.now marks.now) (a ∷ b ∷ []) }
{
    let n = places(points, marks);
    let named = [
        a,
        records::mate(points, marks, n, a),
        b,
        records::mate(points, marks, n, b),
    ];
    list::check_records(points, marks, &named)
}

// For an entry that names one record and wants it left.
pub fn check_left_one(points: &[[u64; 2]], marks: &[[u32; 12]], a: u32) -> Result<(), Refusal>
    ensures { result ≡ checked_left_named (pool points.now marks.now) (a ∷ []) }
{
    let n = places(points, marks);
    let named = [a, records::mate(points, marks, n, a)];
    list::check_for(points, marks, Fault::MistakenOrRight(a, a), &named)
}

// For an entry that names two records and wants both left.
pub fn check_left_two(
    points: &[[u64; 2]],
    marks: &[[u32; 12]],
    a: u32,
    b: u32,
) -> Result<(), Refusal>
    ensures { result ≡ checked_left_named (pool points.now marks.now) (a ∷ b ∷ []) }
{
    let n = places(points, marks);
    let named = [
        a,
        records::mate(points, marks, n, a),
        b,
        records::mate(points, marks, n, b),
    ];
    list::check_for(points, marks, Fault::MistakenOrRight(a, b), &named)
}

// For the sweep: refusals 2 and 4 for the first n records. A link to a number not below n leads outside.
pub fn check_loaded(points: &[[u64; 2]], marks: &[[u32; 12]], n: u32) -> Result<(), Refusal>
    ensures { result ≡ checked at_binary64 (row_at (pool points.now marks.now)) n (numbers_from 0 n) }
{
    loaded::check_lowest(points, marks, n, Fault::Unfit)?;
    loaded::check_lowest(points, marks, n, Fault::Mistaken)
}
