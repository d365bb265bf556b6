// The table of result events in lent arrays: the result events of a list in order, their places, then their rows, every link a position.
#![tactic(auto)]

ghost use Rattle.std.specs.Prelude.{◌≡◌};
ghost use Rattle.events.specs.Pool.{pool};
ghost use Rattle.rows.specs.Rows.{lent};
ghost use Rattle.tabulation.specs.Tabulation as Spec;
ghost use Rattle.tabulation.specs.Tabulation.{has_room, tabulated};

mod row;

use crate::row::fill;
use checks::sizes::MAX_EVENTS;
use positions::ordering::order_events;
use positions::places::place_all;

// The list is within the limit, and the arrays have a place for each of its entries; the places, for each record of the pool.
#[tactic(auto, unfolding(crate::specs::Tabulation::has_room))]
fn has_room(
    list: usize,
    order: usize,
    records: usize,
    places: usize,
    rows: usize,
    at: usize,
) -> bool
    ensures { result ≡ has_room list order records places rows at }
{
    list <= MAX_EVENTS && list <= order && records <= places && list <= rows && list <= at
}

// The table of a list in the first places of rows and at, and its size; nothing where there is no room.
#[tactic(auto, unfolding(crate::specs::Tabulation::tabulate))]
pub fn tabulate(
    points: &[[u64; 2]],
    marks: &[[u32; 12]],
    list: &[u32],
    order: &mut [u32],
    places: &mut [u32],
    rows: &mut [[u32; 4]],
    at: &mut [[u64; 2]],
) -> usize
    ensures { tabulated order.new places.new (lent rows.new at.new) result ≡ Spec.tabulate (pool points.now marks.now) list.now order.old places.old (lent rows.old at.old) }
{
    if has_room(
        list.len(),
        order.len(),
        points.len(),
        places.len(),
        rows.len(),
        at.len(),
    ) {
        let n = order_events(points, marks, list, order);
        place_all(order, n, places);
        fill(points, marks, order, n as u32, places, rows, at);
        return n;
    }
    0
}
