// The sweep (`subdivide_segments.rs`).
#![tactic(auto)]

ghost use Rattle.std.specs.Prelude.{◌≡◌, ◌≤◌, length, Ok};
ghost use Rattle.events.specs.Binary64.{at_binary64, in_mode};
ghost use Rattle.events.specs.Pool.{pool, stored};
ghost use Rattle.checks.specs.Checks.{max_events};
ghost use Rattle.sweep.specs.OnPool.{after, sizes, accept, outcome_of, after_run, subdivide_pool};
ghost use Rattle.sweep.specs.Run as Spec;
ghost use Rattle.sweep.specs.Turn.{Lends};

mod bounds;
mod event;
mod queue;
mod run;
mod turn;

use bounds::bounds_of;
use checks::check_loaded;
use checks::sizes::{FEW, MAX_EVENTS, POOL_PLACE, pool_refused};
use class::Operation;
use queue::requeue;
use refusals::{Reason, Refusal};
use run::run;
use turn::{Stop, line_up, start};

// What a sweep did, to the end or until it was refused.
#[derive(Clone, Copy)]
pub struct Swept {
    // The events taken.
    pub taken: u32,
    // The divisions made.
    pub divisions: u32,
    // The places of the pool now in use: the loaded events and two for each division.
    pub used: u32,
    // At some taking another waiting event tied with the one taken.
    pub tied: bool,
    pub outcome: Result<(), Refusal>,
}

// The pool's arrays, of which the taken list is one, unequal or above the limit, or more records loaded than there are places.
#[tactic(auto, unfolding(crate::specs::OnPool::sizes))]
fn check_sizes(
    points: &[[u64; 2]],
    marks: &[[u32; 12]],
    taken: &[u32],
    loaded: u32,
) -> Result<(), Refusal>
    ensures { result ≡ sizes (length points.now) (length marks.now) (length taken.now) loaded }
{
    let refused = Err(Refusal {
        reason: Reason::Size,
        place: POOL_PLACE,
    });
    if pool_refused(points, marks) {
        return refused;
    }
    if points.len() != taken.len() {
        return refused;
    }
    if points.len() < loaded as usize {
        return refused;
    }
    Ok(())
}

// 1, then 2 and 4, for the loaded records.
#[tactic(auto, unfolding(crate::specs::OnPool::accept, checks::specs::Checks::and_then))]
fn check(
    points: &[[u64; 2]],
    marks: &[[u32; 12]],
    taken: &[u32],
    loaded: u32,
) -> Result<(), Refusal>
    ensures { result ≡ accept (pool points.now marks.now) loaded taken.now }
{
    match check_sizes(points, marks, taken, loaded) {
        Err(refusal) => Err(refusal),
        Ok(()) => check_loaded(points, marks, loaded),
    }
}

#[tactic(auto, unfolding(crate::specs::OnPool::outcome_of))]
fn outcome_of(stop: Stop) -> Result<(), Refusal>
    ensures { result ≡ outcome_of stop }
{
    match stop {
        Stop::Going => Ok(()),
        Stop::Ended => Ok(()),
        Stop::Refused(refusal) => Err(refusal),
    }
}

// The run, from all loaded records waiting, with one step more than there are places.
fn sweep_in(
    points: &mut [[u64; 2]],
    marks: &mut [[u32; 12]],
    loaded: u32,
    operation: Operation,
    mode: u32,
    taken: &mut [u32],
    waits: &mut [bool],
    queue: &mut [u32],
    status: &mut [u32],
) -> Swept
    requires { (accept (pool points.old marks.old) loaded taken.old ≡ Ok tt) × Lends (length points.old) waits.old queue.old status.old }
    ensures { after result (pool points.new marks.new) taken.new ≡ after_run (Spec.subdivide at_binary64 stored (in_mode mode) operation (pool points.old marks.old) loaded) loaded taken.old }
{
    let size = points.len();
    let bounds = bounds_of(points, marks, loaded);
    let waiting = requeue(points, marks, &waits[..size], 0, loaded, queue, 0);
    let last = run(
        points,
        marks,
        &mut waits[..size],
        queue,
        status,
        taken,
        line_up(start(loaded), waiting),
        operation,
        mode,
        bounds,
        size + 1,
    );
    Swept {
        taken: last.count,
        divisions: (last.used - loaded) / 2,
        used: last.used,
        tied: last.tied,
        outcome: outcome_of(last.stop),
    }
}

// With places for a pool of at most so many events.
fn sweep_of<const PLACES: usize>(
    points: &mut [[u64; 2]],
    marks: &mut [[u32; 12]],
    loaded: u32,
    operation: Operation,
    mode: u32,
    taken: &mut [u32],
) -> Swept
    requires { (accept (pool points.old marks.old) loaded taken.old ≡ Ok tt) × (length points.old ≤ PLACES) × (PLACES ≤ max_events) }
    ensures { after result (pool points.new marks.new) taken.new ≡ after_run (Spec.subdivide at_binary64 stored (in_mode mode) operation (pool points.old marks.old) loaded) loaded taken.old }
{
    let mut waits = [true; PLACES];
    let mut queue = [0u32; PLACES];
    let mut status = [0u32; PLACES];
    sweep_in(
        points,
        marks,
        loaded,
        operation,
        mode,
        taken,
        &mut waits,
        &mut queue,
        &mut status,
    )
}

// With as few places as will do.
fn sweep(
    points: &mut [[u64; 2]],
    marks: &mut [[u32; 12]],
    loaded: u32,
    operation: Operation,
    mode: u32,
    taken: &mut [u32],
) -> Swept
    requires { accept (pool points.old marks.old) loaded taken.old ≡ (Ok tt) }
    ensures { after result (pool points.new marks.new) taken.new ≡ after_run (Spec.subdivide at_binary64 stored (in_mode mode) operation (pool points.old marks.old) loaded) loaded taken.old }
{
    if points.len() <= FEW {
        return sweep_of::<FEW>(points, marks, loaded, operation, mode, taken);
    }
    sweep_of::<MAX_EVENTS>(points, marks, loaded, operation, mode, taken)
}

// Sweeps the first `loaded` records of a pool, with crossings in a mode; the events taken stand in `taken`, from its first place.
pub fn subdivide(
    points: &mut [[u64; 2]],
    marks: &mut [[u32; 12]],
    loaded: u32,
    operation: Operation,
    mode: u32,
    taken: &mut [u32],
) -> Swept
    ensures { after result (pool points.new marks.new) taken.new ≡ subdivide_pool operation mode (pool points.old marks.old) loaded taken.old }
{
    match check(points, marks, taken, loaded) {
        Err(refusal) => Swept {
            taken: 0,
            divisions: 0,
            used: loaded,
            tied: false,
            outcome: Err(refusal),
        },
        Ok(()) => sweep(points, marks, loaded, operation, mode, taken),
    }
}
