// One step and the run: events are taken until none waits, one lies past all that matters, or one is refused.
ghost use Rattle.std.specs.Prelude.{◌≡◌, Bool, ◌<◌, ◌≤◌, length, set, take};
ghost use Rattle.events.specs.Binary64.{at_binary64, in_mode};
ghost use Rattle.events.specs.Pool.{pool, stored};
ghost use Rattle.checks.specs.Checks.{max_events};
ghost use Rattle.sweep.specs.Bounds.{reach_of, is_past};
ghost use Rattle.sweep.specs.Run as Spec;
ghost use Rattle.sweep.specs.Turn.{state, taken_turn, Fits, Queues, Beyond};

use crate::bounds::Bounds;
use crate::event::{lowest_at, work};
use crate::queue::requeue;
use crate::turn::{Turn, end, is_stopped, line_up, taking};
use class::Operation;
use status::below_at;
use waiting::ties_with;

// Event e waits no longer, and is the last of those taken.
fn take_event(waits: &mut [bool], taken: &mut [u32], t: Turn, e: u32, rival: bool) -> Turn
    requires { (e < length waits.old) × (t.count < length taken.old) × (length taken.old ≤ max_events) }
    ensures value { result ≡ taken_turn t rival }
    ensures waits_after { (waits.new ≡ set waits.old e Bool.false) × (taken.new ≡ set taken.old t.count e) }
{
    let at = e as usize;
    waits[at] = false;
    let last = t.count as usize;
    taken[last] = e;
    taking(t, rival)
}

// The first waiting event is taken, and does what it does.
fn step(
    points: &mut [[u64; 2]],
    marks: &mut [[u32; 12]],
    waits: &mut [bool],
    queue: &mut [u32],
    status: &mut [u32],
    taken: &mut [u32],
    t: Turn,
    operation: Operation,
    mode: u32,
    bounds: Bounds,
) -> Turn
    requires { Fits waits.old status.old taken.old t × Queues (pool points.old marks.old) waits.old queue.old t }
    ensures result_after { state (pool points.new marks.new) waits.new (take result.members status.new) (take result.count taken.new) result ≡ Spec.step at_binary64 stored (in_mode mode) operation (is_past at_binary64 operation (reach_of bounds.subject) (reach_of bounds.clip)) (state (pool points.old marks.old) waits.old (take t.members status.old) (take t.count taken.old) t) }
    ensures fits { Fits waits.new status.new taken.new result × Beyond taken.old taken.new t result }
    ensures queues { Queues (pool points.new marks.new) waits.new queue.new result }
{
    let n = t.waiting as usize;
    match below_at(queue, n, n) {
        None => end(t),
        Some(e) => {
            let rival = ties_with(points, marks, t.used, e, lowest_at(queue, n, n));
            let u = take_event(waits, taken, t, e, rival);
            let v = work(points, marks, status, u, e, operation, mode, bounds);
            let m = requeue(points, marks, waits, t.used, v.used, queue, t.waiting - 1);
            line_up(v, m)
        }
    }
}

// At most so many steps.
pub fn run(
    points: &mut [[u64; 2]],
    marks: &mut [[u32; 12]],
    waits: &mut [bool],
    queue: &mut [u32],
    status: &mut [u32],
    taken: &mut [u32],
    t: Turn,
    operation: Operation,
    mode: u32,
    bounds: Bounds,
    steps: usize,
) -> Turn
    requires { Fits waits.old status.old taken.old t × Queues (pool points.old marks.old) waits.old queue.old t }
    ensures result_after { state (pool points.new marks.new) waits.new (take result.members status.new) (take result.count taken.new) result ≡ Spec.run at_binary64 stored (in_mode mode) operation (is_past at_binary64 operation (reach_of bounds.subject) (reach_of bounds.clip)) steps (state (pool points.old marks.old) waits.old (take t.members status.old) (take t.count taken.old) t) }
    ensures fits { Fits waits.new status.new taken.new result × Beyond taken.old taken.new t result }
    ensures queues { Queues (pool points.new marks.new) waits.new queue.new result }
{
    let mut now = t;
    for _ in 0..steps {
        if is_stopped(now.stop) {
            return now;
        }
        now = step(
            points, marks, waits, queue, status, taken, now, operation, mode, bounds,
        );
    }
    now
}
