// Edge class on the pool, by record numbers.
ghost use Rattle.std.specs.Prelude.{◌≡◌};
ghost use Rattle.events.specs.Pool.{pool};
ghost use Rattle.class.specs.Class.{shown_neighbour, shown_lower};
ghost use Rattle.class.specs.OnPool.{neighbour_at, lower_at, classified_at};

use crate::{Neighbour, Operation};
use events::points::same_x;
use events::pool::{read_event, store_event};

// Vertical: the partner's x is its own, by value.
fn neighbour_at(points: &[[u64; 2]], marks: &[[u32; 12]], number: u32) -> Neighbour
    ensures { shown_neighbour result ≡ neighbour_at (pool points.now marks.now) number }
{
    let event = read_event(points, marks, number);
    let partner = read_event(points, marks, event.partner);
    Neighbour {
        number,
        event,
        vertical: same_x(event.point, partner.point),
    }
}

fn lower_at(points: &[[u64; 2]], marks: &[[u32; 12]], lower: Option<u32>) -> Option<Neighbour>
    ensures { shown_lower result ≡ lower_at (pool points.now marks.now) lower }
{
    match lower {
        None => None,
        Some(n) => Some(neighbour_at(points, marks, n)),
    }
}

// The class of record `e` above the record that `lower` names, stored.
pub fn compute_fields_at(
    points: &mut [[u64; 2]],
    marks: &mut [[u32; 12]],
    e: u32,
    lower: Option<u32>,
    operation: Operation,
)
    ensures { pool points.new marks.new ≡ classified_at operation (pool points.old marks.old) e lower }
{
    let event = read_event(points, marks, e);
    let neighbour = lower_at(points, marks, lower);
    let computed = crate::compute_fields(event, neighbour, operation);
    store_event(points, marks, e, computed);
}
