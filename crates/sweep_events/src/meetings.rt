// New neighbours in the status meet.
ghost use Rattle.std.specs.Prelude.{◌≡◌, Ok};
ghost use Rattle.events.specs.Binary64.{at_binary64, in_mode};
ghost use Rattle.events.specs.Pool.{pool, stored};
ghost use Rattle.neighbours.specs.Neighbours.{meeting};
ghost use Rattle.sweep_events.specs.Event.{with_upper, with_lower};
ghost use Rattle.sweep_events.specs.Event as Spec;

use crate::classes::{classify, is_two, reclass};
use class::Operation;
use neighbours::{Neighbours, possible_intersection};

// There is no neighbour to meet.
fn alone(used: u32) -> Neighbours
    ensures { (result.used ≡ used) × (result.met ≡ Ok 0) }
{
    Neighbours {
        used: used,
        met: Ok(0),
    }
}

// Left record e and its neighbour above.
#[tactic(auto, unfolding(crate::specs::Event::with_upper, crate::specs::Event::reclassed, crate::specs::Event::classed_again))]
fn with_upper(
    points: &mut [[u64; 2]],
    marks: &mut [[u32; 12]],
    used: u32,
    e: u32,
    lower: Option<u32>,
    upper: Option<u32>,
    operation: Operation,
    mode: u32,
) -> Neighbours
    ensures { meeting (pool points.new marks.new) result.used result.met ≡ with_upper at_binary64 stored operation (in_mode mode) (pool points.old marks.old) used e lower upper }
{
    match upper {
        None => alone(used),
        Some(n) => {
            let m = possible_intersection(points, marks, used, e, n, mode);
            reclass(points, marks, m.used, is_two(m.met), e, lower, n, operation);
            m
        }
    }
}

// Left record e and its neighbour below, whose own lower neighbour is `lowest`.
#[tactic(auto, unfolding(crate::specs::Event::with_lower, crate::specs::Event::reclassed, crate::specs::Event::classed_again))]
fn with_lower(
    points: &mut [[u64; 2]],
    marks: &mut [[u32; 12]],
    used: u32,
    e: u32,
    lower: Option<u32>,
    lowest: Option<u32>,
    operation: Operation,
    mode: u32,
) -> Neighbours
    ensures { meeting (pool points.new marks.new) result.used result.met ≡ with_lower at_binary64 stored operation (in_mode mode) (pool points.old marks.old) used e lower lowest }
{
    match lower {
        None => alone(used),
        Some(p) => {
            let m = possible_intersection(points, marks, used, p, e, mode);
            reclass(
                points,
                marks,
                m.used,
                is_two(m.met),
                p,
                lowest,
                e,
                operation,
            );
            m
        }
    }
}

// Left record e enters between its neighbours.
#[tactic(auto, unfolding(crate::specs::Event::between, crate::specs::Event::afterwards))]
pub fn between(
    points: &mut [[u64; 2]],
    marks: &mut [[u32; 12]],
    used: u32,
    e: u32,
    lower: Option<u32>,
    upper: Option<u32>,
    lowest: Option<u32>,
    operation: Operation,
    mode: u32,
) -> Neighbours
    ensures { meeting (pool points.new marks.new) result.used result.met ≡ Spec.between at_binary64 stored operation (in_mode mode) (pool points.old marks.old) used e lower upper lowest }
{
    classify(points, marks, used, e, lower, operation);
    let m = with_upper(points, marks, used, e, lower, upper, operation, mode);
    let met = m.met;
    match met {
        Ok(_) => with_lower(points, marks, m.used, e, lower, lowest, operation, mode),
        Err(_) => m,
    }
}

// The two neighbours of a segment that leaves.
#[tactic(auto, unfolding(crate::specs::Event::close_up))]
pub fn close_up(
    points: &mut [[u64; 2]],
    marks: &mut [[u32; 12]],
    used: u32,
    lower: Option<u32>,
    upper: Option<u32>,
    mode: u32,
) -> Neighbours
    ensures { meeting (pool points.new marks.new) result.used result.met ≡ Spec.close_up at_binary64 stored (in_mode mode) (pool points.old marks.old) used lower upper }
{
    match lower {
        None => alone(used),
        Some(p) => match upper {
            None => alone(used),
            Some(n) => possible_intersection(points, marks, used, p, n, mode),
        },
    }
}
