// The queue of waiting events: the first n places of an array, the next event last.
ghost use Rattle.std.specs.Prelude.{◌≡◌, cond, ◌-◌, ◌≤◌, length, take};
ghost use Rattle.events.specs.Pool.{pool, stored};
ghost use Rattle.events.specs.Store.{look};
ghost use Rattle.checks.specs.Checks.{max_events};
ghost use Rattle.waiting.specs.Waiting.{flagged, before_used};
ghost use Rattle.waiting.specs.Queue as Queue;
ghost use Rattle.sweep.specs.Sides.{SidesOf};

use events::points::{Run, has_x, higher_x, lower_x};
use events::pool::read_used;
use lists::{insert_at, remove_at};
use status::slot_of;
use waiting::{is_waiting, leads};

// Whether member a leads x, to whose point these runs belong: of most members x alone tells, and one subtraction.
fn leads_by(
    points: &[[u64; 2]],
    marks: &[[u32; 12]],
    used: u32,
    a: u32,
    x: u32,
    left: Run,
    right: Run,
) -> bool
    requires { SidesOf (look stored (pool points.now marks.now) used x).point left right }
    ensures { result ≡ Queue.leads (before_used (pool points.now marks.now) used) a x }
{
    let e = read_used(points, marks, used, a);
    if has_x(left, e.point) {
        return true;
    }
    if has_x(right, e.point) {
        return false;
    }
    leads(points, marks, used, a, x)
}

// The place of a new member, by halving.
fn place_of(
    points: &[[u64; 2]],
    marks: &[[u32; 12]],
    used: u32,
    queue: &[u32],
    n: u32,
    x: u32,
) -> usize
    requires { (n ≤ length queue.now) × (length queue.now ≤ max_events) }
    ensures value { result ≡ Queue.place (before_used (pool points.now marks.now) used) (take n queue.now) x }
    ensures upper_bound { result ≤ n }
{
    let e = read_used(points, marks, used, x);
    let left = lower_x(e.point);
    let right = higher_x(e.point);
    let mut lo = 0;
    let mut hi = n as usize;
    while lo < hi {
        let m = (lo + hi) / 2;
        if leads_by(points, marks, used, queue[m], x, left, right) {
            hi = m;
        } else {
            lo = m + 1;
        }
    }
    lo
}

// Puts x in, where there is room.
fn put(
    points: &[[u64; 2]],
    marks: &[[u32; 12]],
    used: u32,
    queue: &mut [u32],
    n: u32,
    x: u32,
) -> u32
    requires { (n ≤ length queue.old) × (length queue.old ≤ max_events) }
    ensures queue_after { take result queue.new ≡ Queue.put (before_used (pool points.now marks.now) used) (length queue.old) (take n queue.old) x }
    ensures upper_bound { result ≤ length queue.new }
{
    let end = n as usize;
    if queue.len() <= end {
        return n;
    }
    let at = place_of(points, marks, used, queue, n, x);
    insert_at(queue, end, at, x);
    n + 1
}

// Takes number o out, if it is a member.
fn take_out(queue: &mut [u32], n: u32, o: u32) -> u32
    requires { n ≤ length queue.old }
    ensures queue_after { take result queue.new ≡ Queue.without (take n queue.old) o }
    ensures upper_bound { result ≤ length queue.new }
{
    let end = n as usize;
    let at = slot_of(queue, end, o);
    if end <= at {
        return n;
    }
    remove_at(queue, end, at);
    n - 1
}

// Number o is older than `from` and waits: no other number below `from` is a member.
#[tactic(auto, unfolding(waiting::specs::Queue::is_older))]
fn is_older(waits: &[bool], from: u32, o: u32) -> bool
    ensures { result ≡ Queue.is_older from (flagged waits.now) o }
{
    if o < from {
        return is_waiting(waits, o);
    }
    false
}

// Takes number o out, if it is older and waits.
fn evict(waits: &[bool], from: u32, queue: &mut [u32], n: u32, o: u32) -> u32
    requires { n ≤ length queue.old }
    ensures queue_after { take result queue.new ≡ cond (Queue.is_older from (flagged waits.now) o) (Queue.without (take n queue.old) o) (take n queue.old) }
    ensures upper_bound { result ≤ length queue.new }
{
    if is_older(waits, from, o) {
        return take_out(queue, n, o);
    }
    n
}

// The older partners of the records from `from` on are taken out.
fn evict_all(
    points: &[[u64; 2]],
    marks: &[[u32; 12]],
    waits: &[bool],
    from: u32,
    used: u32,
    queue: &mut [u32],
    n: u32,
) -> u32
    requires { n ≤ length queue.old }
    ensures queue_after { take result queue.new ≡ Queue.evicted (λ i. (look stored (pool points.now marks.now) used i).partner) from (flagged waits.now) (used - from) (take n queue.old) }
    ensures upper_bound { result ≤ length queue.new }
{
    let mut last = n;
    for r in from..used {
        let f = read_used(points, marks, used, r);
        last = evict(waits, from, queue, last, f.partner);
    }
    last
}

// Record r is put in, and its partner if that is older and waits.
fn admit(
    points: &[[u64; 2]],
    marks: &[[u32; 12]],
    waits: &[bool],
    from: u32,
    used: u32,
    queue: &mut [u32],
    n: u32,
    r: u32,
) -> u32
    requires { (n ≤ length queue.old) × (length queue.old ≤ max_events) }
    ensures queue_after { take result queue.new ≡ Queue.admit (λ i. (look stored (pool points.now marks.now) used i).partner) from (flagged waits.now) (before_used (pool points.now marks.now) used) (length queue.old) (take n queue.old) r }
    ensures upper_bound { result ≤ length queue.new }
{
    let f = read_used(points, marks, used, r);
    let o = f.partner;
    let m = put(points, marks, used, queue, n, r);
    if is_older(waits, from, o) {
        return put(points, marks, used, queue, m, o);
    }
    m
}

// The records from `from` on are put in.
fn admit_all(
    points: &[[u64; 2]],
    marks: &[[u32; 12]],
    waits: &[bool],
    from: u32,
    used: u32,
    queue: &mut [u32],
    n: u32,
) -> u32
    requires { (n ≤ length queue.old) × (length queue.old ≤ max_events) }
    ensures queue_after { take result queue.new ≡ Queue.admitted (λ i. (look stored (pool points.now marks.now) used i).partner) from (flagged waits.now) (before_used (pool points.now marks.now) used) (length queue.old) (used - from) (take n queue.old) }
    ensures upper_bound { result ≤ length queue.new }
{
    let mut last = n;
    for r in from..used {
        last = admit(points, marks, waits, from, used, queue, last, r);
    }
    last
}

// After a step in which the places from `from` up to `used` came into use.
pub fn requeue(
    points: &[[u64; 2]],
    marks: &[[u32; 12]],
    waits: &[bool],
    from: u32,
    used: u32,
    queue: &mut [u32],
    n: u32,
) -> u32
    requires { (n ≤ length queue.old) × (length queue.old ≤ max_events) }
    ensures queue_after { take result queue.new ≡ Queue.requeued (λ i. (look stored (pool points.now marks.now) used i).partner) from (flagged waits.now) (before_used (pool points.now marks.now) used) (length queue.old) (used - from) (take n queue.old) }
    ensures upper_bound { result ≤ length queue.new }
{
    let m = evict_all(points, marks, waits, from, used, queue, n);
    admit_all(points, marks, waits, from, used, queue, m)
}
