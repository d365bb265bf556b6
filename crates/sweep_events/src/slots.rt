// Where a left event enters the status: below the first member, from the bottom, that it compares less than.
ghost use Rattle.std.specs.Prelude.{◌≡◌, Bool, cond, eqb, take};
ghost use Rattle.events.specs.Binary64.{at_binary64, in_mode};
ghost use Rattle.events.specs.Pool.{pool, stored};
ghost use Rattle.order.specs.Keys.{shown_key, key_used};
ghost use Rattle.segments.specs.Segments.{compare_segments};
ghost use Rattle.lists.specs.Lists.{slot};
ghost use Rattle.sweep_events.specs.Event.{is_less, is_below};

use crate::clear::{after_clear, bounds_of, ready_of};
use order::{Key, key_used};
use segments::compare_segments;
use status::count;
use std::cmp::Ordering;

#[tactic(auto, unfolding(crate::specs::Event::is_less))]
fn is_less(ordering: Ordering) -> bool
    ensures { result ≡ is_less ordering }
{
    ordering.is_lt()
}

// Left record e, whose key this is, compares less than member x.
fn goes_below(
    points: &[[u64; 2]],
    marks: &[[u32; 12]],
    used: u32,
    e: u32,
    key: Key,
    x: u32,
    mode: u32,
) -> bool
    ensures { result ≡ cond (eqb e x) Bool.false (is_less (compare_segments at_binary64 (in_mode mode) (shown_key key) (key_used stored (pool points.now marks.now) used x))) }
{
    if e == x {
        return false;
    }
    is_less(compare_segments(key, key_used(points, marks, used, x), mode))
}

// The place in the status, which may be the one behind its last.
pub fn slot_below(
    points: &[[u64; 2]],
    marks: &[[u32; 12]],
    used: u32,
    status: &[u32],
    n: usize,
    e: u32,
    mode: u32,
) -> usize
    ensures { result ≡ slot (is_below at_binary64 stored (in_mode mode) (pool points.now marks.now) used e) (take n status.now) }
{
    let key = key_used(points, marks, used, e);
    let bounds = bounds_of(key);
    let ready = ready_of(points, marks, used);
    let end = count(status, n);
    // most members lie clear below: only the others are compared
    let mut i = after_clear(points, marks, used, ready, bounds, status, end, 0);
    while i < end {
        if goes_below(points, marks, used, e, key, status[i], mode) {
            return i;
        }
        i = after_clear(points, marks, used, ready, bounds, status, end, i + 1);
    }
    i
}
