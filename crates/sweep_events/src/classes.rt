// Edge class of the records in use, from the lower neighbour.
ghost use Rattle.std.specs.Prelude.{◌≡◌};
ghost use Rattle.events.specs.Binary64.{at_binary64};
ghost use Rattle.events.specs.Pool.{pool, stored};
ghost use Rattle.class.specs.Class.{shown_neighbour, shown_lower};
ghost use Rattle.sweep_events.specs.Event.{is_two, neighbour_in, lower_in, classified, classed_again};

use class::{Neighbour, Operation, compute_fields};
use events::points::same_x;
use events::pool::{read_used, store_event};
use refusals::Refusal;

// Vertical: the partner's x is its own, by value.
#[tactic(auto, unfolding(crate::specs::Event::neighbour_in))]
fn neighbour_used(points: &[[u64; 2]], marks: &[[u32; 12]], used: u32, number: u32) -> Neighbour
    ensures { shown_neighbour result ≡ neighbour_in at_binary64 stored (pool points.now marks.now) used number }
{
    let event = read_used(points, marks, used, number);
    let partner = read_used(points, marks, used, event.partner);
    Neighbour {
        number,
        event,
        vertical: same_x(event.point, partner.point),
    }
}

#[tactic(auto, unfolding(crate::specs::Event::lower_in))]
fn lower_used(
    points: &[[u64; 2]],
    marks: &[[u32; 12]],
    used: u32,
    lower: Option<u32>,
) -> Option<Neighbour>
    ensures { shown_lower result ≡ lower_in at_binary64 stored (pool points.now marks.now) used lower }
{
    match lower {
        None => None,
        Some(n) => Some(neighbour_used(points, marks, used, n)),
    }
}

// Record e anew from its lower neighbour.
#[tactic(auto, unfolding(crate::specs::Event::classified, events::specs::Pool::stored))]
pub fn classify(
    points: &mut [[u64; 2]],
    marks: &mut [[u32; 12]],
    used: u32,
    e: u32,
    lower: Option<u32>,
    operation: Operation,
)
    ensures { pool points.new marks.new ≡ classified at_binary64 stored operation (pool points.old marks.old) used e lower }
{
    let event = read_used(points, marks, used, e);
    let neighbour = lower_used(points, marks, used, lower);
    store_event(
        points,
        marks,
        e,
        compute_fields(event, neighbour, operation),
    );
}

// Code 2 tells that edge types have changed.
#[tactic(auto, unfolding(crate::specs::Event::is_two))]
pub(crate) fn is_two(met: Result<u32, Refusal>) -> bool
    ensures { result ≡ is_two met }
{
    matches!(met, Ok(2))
}

// Both classed again from the bottom up where `changed`, whatever tells so: a from its lower neighbour, then b from a.
#[tactic(auto, unfolding(crate::specs::Event::classed_again))]
pub fn reclass(
    points: &mut [[u64; 2]],
    marks: &mut [[u32; 12]],
    used: u32,
    changed: bool,
    a: u32,
    lower: Option<u32>,
    b: u32,
    operation: Operation,
)
    ensures { pool points.new marks.new ≡ classed_again at_binary64 stored operation changed (pool points.old marks.old) used a lower b }
{
    if changed {
        classify(points, marks, used, a, lower, operation);
        classify(points, marks, used, b, Some(a), operation);
    }
}
