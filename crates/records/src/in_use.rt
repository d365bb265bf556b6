// The checks where only the first `used` places of a pool are in use: the records there are a pool of their own, and what lies beyond it is outside.
ghost use Rattle.std.specs.Prelude.{◌≡◌, [], ◌∷◌, Err};
ghost use Rattle.events.specs.Pool.{pool};
ghost use Rattle.checks.specs.Checks.{size_refusal};
ghost use Rattle.records.specs.InUse.{overused, checked_in, checked_left_in};

use checks::sizes::{POOL_PLACE, pool_refused};
use checks::{check_left_two, check_one};
use refusals::{Reason, Refusal};

// Refusal 1: the arrays, or more places in use than there are.
fn is_overused(points: &[[u64; 2]], marks: &[[u32; 12]], used: u32) -> bool
    ensures { result ≡ overused (pool points.now marks.now) used }
{
    if pool_refused(points, marks) {
        return true;
    }
    points.len() < used as usize
}

fn size_refused() -> Result<(), Refusal>
    ensures { result ≡ Err size_refusal }
{
    Err(Refusal {
        reason: Reason::Size,
        place: POOL_PLACE,
    })
}

// For an entry that names one record.
pub fn check_one_in(
    points: &[[u64; 2]],
    marks: &[[u32; 12]],
    used: u32,
    a: u32,
) -> Result<(), Refusal>
    ensures { result ≡ checked_in (pool points.now marks.now) used (a ∷ []) }
{
    if is_overused(points, marks, used) {
        return size_refused();
    }
    let n = used as usize;
    check_one(&points[..n], &marks[..n], a)
}

// For an entry that names two records and wants both left.
pub fn check_left_two_in(
    points: &[[u64; 2]],
    marks: &[[u32; 12]],
    used: u32,
    a: u32,
    b: u32,
) -> Result<(), Refusal>
    ensures { result ≡ checked_left_in (pool points.now marks.now) used (a ∷ b ∷ []) }
{
    if is_overused(points, marks, used) {
        return size_refused();
    }
    let n = used as usize;
    check_left_two(&points[..n], &marks[..n], a, b)
}
