// What C and Rust call of the stages one by one: loading, the sweep, connection. include/bezorika.h says the same in plain words.
// Each answers 0, or the number of a refusal; an output that a call does not name stays as lent.
#![tactic(auto)]

ghost use Rattle.std.specs.Prelude.{◌≡◌};
ghost use Rattle.events.specs.Pool.{pool};
ghost use Rattle.loading.specs.OnPool as Loading;
ghost use Rattle.loading.specs.Answer as LoadAnswer;
ghost use Rattle.sweep.specs.OnPool.{subdivide_pool};
ghost use Rattle.sweep.specs.Answer as SweepAnswer;
ghost use Rattle.connection.specs.Connection.{lent, connect_edges};
ghost use Rattle.connection.specs.Answer as ConnectAnswer;
ghost use Rattle.stages.specs.Told as Told;
ghost use Rattle.stages.specs.Told.{operation_of, by_checks, counts_by};

use class::Operation;
use connection::connect_edges;
use events::pool::number_of_flag;
use loading::load;
use refusals::{Reason, Refusal};
use sweep::subdivide;

pub fn bezorika_load(
    ends: &[[u64; 4]],
    labels: &[[u32; 2]],
    points: &mut [[u64; 2]],
    marks: &mut [[u32; 12]],
    used: &mut u32,
    place: &mut u64,
) -> u64
    ensures value { result ≡ LoadAnswer.number_of (Loading.load ends.now labels.now (pool points.old marks.old)).answer }
    ensures marks_after { pool points.new marks.new ≡ (Loading.load ends.now labels.now (pool points.old marks.old)).pool }
    ensures used_after { used.new ≡ Told.load_used (Loading.load ends.now labels.now (pool points.old marks.old)).answer used.old }
    ensures place_after { place.new ≡ Told.load_place (Loading.load ends.now labels.now (pool points.old marks.old)).answer place.old }
{
    match load(ends, labels, points, marks) {
        Err(why) => {
            *place = why.place;
            u64::from(why.reason)
        }
        Ok(n) => {
            *used = n;
            0
        }
    }
}

fn operation_of(n: u32) -> Operation
    ensures { result ≡ operation_of n }
{
    match n {
        0 => Operation::Intersection,
        1 => Operation::Difference,
        2 => Operation::Union,
        _ => Operation::Xor,
    }
}

#[tactic(auto, unfolding(crate::specs::Told::by_checks))]
fn is_by_checks(reason: Reason) -> bool
    ensures { result ≡ by_checks reason }
{
    matches!(
        reason,
        Reason::Size | Reason::Coordinate | Reason::Link | Reason::HalfEdge | Reason::Room
    )
}

// A call that its checks refuse has counted nothing.
#[tactic(auto, unfolding(crate::specs::Told::counts_by))]
fn tell_counts(outcome: Result<(), Refusal>, told: [u32; 4], counts: &mut [u32; 4])
    ensures { counts.new ≡ counts_by outcome told counts.old }
{
    if let Err(refusal) = outcome {
        if is_by_checks(refusal.reason) {
            return;
        }
    }
    *counts = told;
}

fn tell_end(outcome: Result<(), Refusal>, place: &mut u64) -> u64
    ensures value { result ≡ SweepAnswer.number_of outcome }
    ensures place_after { place.new ≡ Told.sweep_place outcome place.old }
{
    match outcome {
        Ok(()) => 0,
        Err(why) => {
            *place = why.place;
            u64::from(why.reason)
        }
    }
}

pub fn bezorika_subdivide(
    points: &mut [[u64; 2]],
    marks: &mut [[u32; 12]],
    loaded: u32,
    operation: u32,
    mode: u32,
    taken: &mut [u32],
    counts: &mut [u32; 4],
    place: &mut u64,
) -> u64
    ensures value { result ≡ SweepAnswer.number_of (subdivide_pool (operation_of operation) mode (pool points.old marks.old) loaded taken.old).answer.outcome }
    ensures marks_after { pool points.new marks.new ≡ (subdivide_pool (operation_of operation) mode (pool points.old marks.old) loaded taken.old).pool }
    ensures taken_after { taken.new ≡ (subdivide_pool (operation_of operation) mode (pool points.old marks.old) loaded taken.old).taken }
    ensures counts_after { counts.new ≡ Told.sweep_counts (subdivide_pool (operation_of operation) mode (pool points.old marks.old) loaded taken.old).answer counts.old }
    ensures place_after { place.new ≡ Told.sweep_place (subdivide_pool (operation_of operation) mode (pool points.old marks.old) loaded taken.old).answer.outcome place.old }
{
    let s = subdivide(points, marks, loaded, operation_of(operation), mode, taken);
    let outcome = s.outcome;
    let told = [s.taken, s.divisions, s.used, number_of_flag(s.tied)];
    tell_counts(outcome, told, counts);
    tell_end(outcome, place)
}

fn tell_connection(outcome: Result<(), Refusal>, place: &mut u64) -> u64
    ensures value { result ≡ ConnectAnswer.number_of outcome }
    ensures place_after { place.new ≡ Told.connect_place outcome place.old }
{
    match outcome {
        Ok(()) => 0,
        Err(why) => {
            *place = why.place;
            u64::from(why.reason)
        }
    }
}

pub fn bezorika_connect(
    points: &[[u64; 2]],
    marks: &mut [[u32; 12]],
    list: &[u32],
    corners: &mut [[u64; 2]],
    contours: &mut [[u32; 6]],
    holes: &mut [u32],
    counts: &mut [u32; 4],
    place: &mut u64,
) -> u64
    ensures value { result ≡ ConnectAnswer.number_of (connect_edges (pool points.now marks.old) list.now (lent corners.old contours.old holes.old)).answer.outcome }
    ensures marks_after { pool points.now marks.new ≡ (connect_edges (pool points.now marks.old) list.now (lent corners.old contours.old holes.old)).pool }
    ensures holes_after { lent corners.new contours.new holes.new ≡ (connect_edges (pool points.now marks.old) list.now (lent corners.old contours.old holes.old)).outlines }
    ensures counts_after { counts.new ≡ Told.connect_counts (connect_edges (pool points.now marks.old) list.now (lent corners.old contours.old holes.old)).answer counts.old }
    ensures place_after { place.new ≡ Told.connect_place (connect_edges (pool points.now marks.old) list.now (lent corners.old contours.old holes.old)).answer.outcome place.old }
{
    let c = connect_edges(points, marks, list, corners, contours, holes);
    let outcome = c.outcome;
    let told = [c.contours, c.corners, c.holes, c.open];
    tell_counts(outcome, told, counts);
    tell_connection(outcome, place)
}
