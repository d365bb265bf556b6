// Of the waiting events of a pool: which of two is taken first, and whether they tie.
#![tactic(auto)]

ghost use Rattle.std.specs.Prelude.{◌≡◌};
ghost use Rattle.events.specs.Binary64.{at_binary64};
ghost use Rattle.events.specs.Coordinates.{ahead};
ghost use Rattle.events.specs.Pool.{pool, stored};
ghost use Rattle.events.specs.Store.{look};
ghost use Rattle.order.specs.Keys.{key_used};
ghost use Rattle.order.specs.Order.{before_there};
ghost use Rattle.waiting.specs.Waiting.{flagged, before_used};
ghost use Rattle.waiting.specs.Queue as Queue;

use events::points::is_ahead;
use events::pool::read_used;
use order::{are_tied, before_there, key_used};

// Whether an event at place r has not been taken.
pub fn is_waiting(waits: &[bool], r: u32) -> bool
    ensures { result ≡ flagged waits.now r }
{
    let i = r as usize;
    if i < waits.len() {
        return waits[i];
    }
    false
}

// Whether record a's point comes before record b's.
fn is_ahead_of(points: &[[u64; 2]], marks: &[[u32; 12]], used: u32, a: u32, b: u32) -> bool
    ensures { result ≡ ahead at_binary64 (look stored (pool points.now marks.now) used a).point (look stored (pool points.now marks.now) used b).point }
{
    let e = read_used(points, marks, used, a);
    let f = read_used(points, marks, used, b);
    is_ahead(e.point, f.point)
}

// Whether record a comes before record b, where both stand at one point.
fn is_before_there(points: &[[u64; 2]], marks: &[[u32; 12]], used: u32, a: u32, b: u32) -> bool
    ensures { result ≡ before_there at_binary64 (key_used stored (pool points.now marks.now) used a) (key_used stored (pool points.now marks.now) used b) }
{
    before_there(
        key_used(points, marks, used, a),
        key_used(points, marks, used, b),
    )
}

// Whether record a is taken before record b: on a tie the lower number. Most pairs are told apart by their points, before their keys are read.
pub fn leads(points: &[[u64; 2]], marks: &[[u32; 12]], used: u32, a: u32, b: u32) -> bool
    ensures { result ≡ Queue.leads (before_used (pool points.now marks.now) used) a b }
{
    if is_ahead_of(points, marks, used, a, b) {
        return true;
    }
    if is_ahead_of(points, marks, used, b, a) {
        return false;
    }
    if a < b {
        return is_before_there(points, marks, used, a, b);
    }
    !is_before_there(points, marks, used, b, a)
}

// Whether record e ties with another, if there is one.
pub fn ties_with(
    points: &[[u64; 2]],
    marks: &[[u32; 12]],
    used: u32,
    e: u32,
    other: Option<u32>,
) -> bool
    ensures { result ≡ Queue.ties_with (before_used (pool points.now marks.now) used) e other }
{
    match other {
        None => false,
        Some(r) => are_tied(
            key_used(points, marks, used, e),
            key_used(points, marks, used, r),
        ),
    }
}
