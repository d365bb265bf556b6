// What one event does: its segment enters the status or leaves it, and new neighbours meet.
ghost use Rattle.std.specs.Prelude.{◌≡◌, ◌-◌, ◌<◌, ◌≤◌, length, take};
ghost use Rattle.events.specs.Binary64.{at_binary64, in_mode};
ghost use Rattle.events.specs.Pool.{pool, stored};
ghost use Rattle.status.specs.Status.{below};
ghost use Rattle.checks.specs.Checks.{max_events};
ghost use Rattle.sweep.specs.Bounds.{reach_of, is_past};
ghost use Rattle.sweep.specs.Event as Spec;
ghost use Rattle.sweep.specs.Turn.{Does, Worked};

use crate::bounds::{Bounds, is_past};
use crate::turn::{Turn, after_meeting, end};
use class::Operation;
use events::pool::read_used;
use lists::{insert_at, remove_at};
use status::{below_at, member_at, slot_of};
use sweep_events::meetings::{between, close_up};
use sweep_events::slots::slot_below;

// The one below the one just below a place.
pub fn lowest_at(status: &[u32], n: usize, k: usize) -> Option<u32>
    ensures { result ≡ below (take n status.now) (k - 1) }
{
    if k == 0 {
        return None;
    }
    below_at(status, n, k - 1)
}

// Below the first member, from the bottom, that it compares less than.
fn enter(
    points: &mut [[u64; 2]],
    marks: &mut [[u32; 12]],
    status: &mut [u32],
    t: Turn,
    e: u32,
    operation: Operation,
    mode: u32,
) -> Turn
    requires { (t.members < length status.old) × (length status.old ≤ max_events) }
    ensures does { Does (λ s. Spec.enter at_binary64 stored (in_mode mode) operation s e) (pool points.old marks.old) (take t.members status.old) t (pool points.new marks.new) (take result.members status.new) result }
    ensures worked { Worked t result }
{
    let n = t.members as usize;
    let k = slot_below(points, marks, t.used, status, n, e, mode);
    let lower = below_at(status, n, k);
    let upper = member_at(status, n, k);
    let lowest = lowest_at(status, n, k);
    let last = between(
        points, marks, t.used, e, lower, upper, lowest, operation, mode,
    );
    insert_at(status, n, k, e);
    after_meeting(t, t.members + 1, last)
}

// The member at a place goes when its neighbours have met.
fn leave_at(
    points: &mut [[u64; 2]],
    marks: &mut [[u32; 12]],
    status: &mut [u32],
    t: Turn,
    k: usize,
    mode: u32,
) -> Turn
    requires { (k < t.members) × (t.members ≤ length status.old) }
    ensures does { Does (λ s. Spec.leave_at at_binary64 stored (in_mode mode) s k) (pool points.old marks.old) (take t.members status.old) t (pool points.new marks.new) (take result.members status.new) result }
    ensures worked { Worked t result }
{
    let n = t.members as usize;
    let lower = below_at(status, n, k);
    let upper = member_at(status, n, k + 1);
    let last = close_up(points, marks, t.used, lower, upper, mode);
    let met = last.met;
    match met {
        Err(_) => after_meeting(t, t.members, last),
        Ok(_) => {
            remove_at(status, n, k);
            after_meeting(t, t.members - 1, last)
        }
    }
}

// Left record o, if it is a member.
fn leave(
    points: &mut [[u64; 2]],
    marks: &mut [[u32; 12]],
    status: &mut [u32],
    t: Turn,
    o: u32,
    mode: u32,
) -> Turn
    requires { t.members ≤ length status.old }
    ensures does { Does (λ s. Spec.leave at_binary64 stored (in_mode mode) s o) (pool points.old marks.old) (take t.members status.old) t (pool points.new marks.new) (take result.members status.new) result }
    ensures worked { Worked t result }
{
    let n = t.members as usize;
    let k = slot_of(status, n, o);
    if k < n {
        return leave_at(points, marks, status, t, k, mode);
    }
    t
}

// Either, unless the event lies past all that matters.
pub fn work(
    points: &mut [[u64; 2]],
    marks: &mut [[u32; 12]],
    status: &mut [u32],
    t: Turn,
    e: u32,
    operation: Operation,
    mode: u32,
    bounds: Bounds,
) -> Turn
    requires { (t.members < length status.old) × (length status.old ≤ max_events) }
    ensures does { Does (λ s. Spec.turn at_binary64 stored (in_mode mode) operation (is_past at_binary64 operation (reach_of bounds.subject) (reach_of bounds.clip)) s e) (pool points.old marks.old) (take t.members status.old) t (pool points.new marks.new) (take result.members status.new) result }
    ensures worked { Worked t result }
{
    let f = read_used(points, marks, t.used, e);
    if is_past(bounds, operation, f.point) {
        return end(t);
    }
    if f.left {
        return enter(points, marks, status, t, e, operation, mode);
    }
    leave(points, marks, status, t, f.partner, mode)
}
