// Which lists connection takes: refusals 1, 2, 4, 8 and 5, each over all records looked at before the next.
#![tactic(auto)]

ghost use Rattle.std.specs.Prelude.{◌≡◌, ◌≤◌, length};
ghost use Rattle.events.specs.Pool.{pool};
ghost use Rattle.checks.specs.Checks.{max_events};
ghost use Rattle.acceptance.specs.Seen.{zeros};
ghost use Rattle.acceptance.specs.OnPool.{accept_pool, is_refused, accept_seen, accept_sized};

use checks::sizes::{FEW, MAX_EVENTS, POOL_PLACE, pool_refused};
use fit::check_fit;
use flaws::Flaw;
use lowest::check_flaw;
use refusals::{Reason, Refusal};
use room::check_room;
use seen::tally;

mod fit;
mod flaws;
mod lowest;
mod room;
mod seen;

// Where refusal 1 tells of the list.
pub const LIST_PLACE: u64 = 0;

fn is_refused(check: Result<(), Refusal>) -> bool
    ensures { result ≡ is_refused check }
{
    match check {
        Ok(()) => false,
        Err(_) => true,
    }
}

// 2, 4, 8 and 5, where `seen` tells how often each record is listed.
fn check_list(
    points: &[[u64; 2]],
    marks: &[[u32; 12]],
    seen: &[u32],
    list: &[u32],
    corners: usize,
    contours: usize,
    holes: usize,
) -> Result<(), Refusal>
    ensures { result ≡ accept_seen (pool points.now marks.now) seen.now list.now corners contours holes }
{
    let unfit = check_fit(points, marks, list);
    if is_refused(unfit) {
        return unfit;
    }
    let misplaced = check_flaw(points, marks, seen, Flaw::Misplaced, list);
    if is_refused(misplaced) {
        return misplaced;
    }
    let half = check_flaw(points, marks, seen, Flaw::HalfListed, list);
    if is_refused(half) {
        return half;
    }
    check_room(points, marks, list, corners, contours, holes)
}

// By a tally in places where nothing is noted yet, one for each record of the pool.
fn check_in(
    points: &[[u64; 2]],
    marks: &[[u32; 12]],
    list: &[u32],
    corners: usize,
    contours: usize,
    holes: usize,
    seen: &mut [u32],
) -> Result<(), Refusal>
    requires { (length points.now ≤ length seen.old) × (seen.old ≡ zeros (length seen.old)) }
    ensures { result ≡ accept_sized (pool points.now marks.now) list.now corners contours holes }
{
    tally(seen, list);
    check_list(points, marks, seen, list, corners, contours, holes)
}

// With a tally of N places: as many as the pool has at least, and as any has at most.
fn check_of<const N: usize>(
    points: &[[u64; 2]],
    marks: &[[u32; 12]],
    list: &[u32],
    corners: usize,
    contours: usize,
    holes: usize,
) -> Result<(), Refusal>
    requires { (length points.now ≤ N) × (N ≤ max_events) }
    ensures { result ≡ accept_sized (pool points.now marks.now) list.now corners contours holes }
{
    let mut seen = [0u32; N];
    check_in(points, marks, list, corners, contours, holes, &mut seen)
}

// A list of records of the pool, with so many places for corners, contours and holes.
pub fn accept(
    points: &[[u64; 2]],
    marks: &[[u32; 12]],
    list: &[u32],
    corners: usize,
    contours: usize,
    holes: usize,
) -> Result<(), Refusal>
    ensures { result ≡ accept_pool (pool points.now marks.now) list.now corners contours holes }
{
    if list.len() > MAX_EVENTS {
        return Err(Refusal {
            reason: Reason::Size,
            place: LIST_PLACE,
        });
    }
    if pool_refused(points, marks) {
        return Err(Refusal {
            reason: Reason::Size,
            place: POOL_PLACE,
        });
    }
    if points.len() <= FEW {
        return check_of::<FEW>(points, marks, list, corners, contours, holes);
    }
    check_of::<MAX_EVENTS>(points, marks, list, corners, contours, holes)
}
