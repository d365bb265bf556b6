// The row of one result event, and the rows of an order.
ghost use Rattle.std.specs.Prelude.{◌≡◌, ◌≤◌, length, take};
ghost use Rattle.events.specs.Event.{shown};
ghost use Rattle.events.specs.Pool.{pool, row_at};
ghost use Rattle.contours.specs.Table.{is_out_in};
ghost use Rattle.rows.specs.Rows.{lent, end_for};
ghost use Rattle.tabulation.specs.Steps.{Few, Placing, below_place, below_out_in, row_in, put_row, filled};

use events::pool::read_event;
use events::{Event, ResultTransition};
use positions::places::place_of;
use rows::{End, put_row};

#[tactic(auto, unfolding(contours::specs::Table::is_out_in))]
fn is_out_in(t: ResultTransition) -> bool
    ensures { result ≡ is_out_in t }
{
    matches!(t, ResultTransition::OutIn)
}

// The position of the edge below + 1, or 0 for none.
#[tactic(auto, using(crate::proofs::Filling::place_few), unfolding(crate::specs::Steps::below_place))]
fn below_place(places: &[u32], n: u32, below: Option<u32>) -> u32
    requires { Few places.now n }
    ensures { result ≡ below_place places.now n below }
{
    match below {
        None => 0,
        Some(b) => place_of(places, n, b) + 1,
    }
}

// The edge below is OutIn.
#[tactic(auto, unfolding(crate::specs::Steps::below_out_in))]
fn below_out_in(points: &[[u64; 2]], marks: &[[u32; 12]], below: Option<u32>) -> bool
    ensures { result ≡ below_out_in (pool points.now marks.now) below }
{
    match below {
        None => false,
        Some(b) => {
            let e = read_event(points, marks, b);
            let transition = e.transition;
            is_out_in(transition)
        }
    }
}

// What the row of e holds beside its point.
#[tactic(auto, using(crate::proofs::Filling::below_number_is, crate::proofs::Filling::below_flag_is), unfolding(crate::specs::Steps::row_in, rows::specs::Rows::end_for))]
fn end_for(points: &[[u64; 2]], marks: &[[u32; 12]], places: &[u32], n: u32, e: Event) -> End
    requires { Few places.now n }
    ensures { result ≡ end_for (row_in (pool points.now marks.now) places.now n (shown e)) }
{
    let below = e.below;
    End {
        left: e.left,
        other: place_of(places, n, e.partner),
        below: below_place(places, n, below),
        out_in: below_out_in(points, marks, below),
    }
}

// The row of record r at position i.
#[tactic(auto, unfolding(crate::specs::Steps::put_row, crate::specs::Steps::row_in))]
fn put_at(
    points: &[[u64; 2]],
    marks: &[[u32; 12]],
    places: &[u32],
    n: u32,
    rows: &mut [[u32; 4]],
    at: &mut [[u64; 2]],
    i: usize,
    r: u32,
)
    requires { Few places.now n }
    ensures { lent rows.new at.new ≡ put_row (lent rows.old at.old) i (row_in (pool points.now marks.now) places.now n (row_at (pool points.now marks.now) r)) }
{
    let e = read_event(points, marks, r);
    let end = end_for(points, marks, places, n, e);
    put_row(rows, at, i, e.point, end);
}

// The rows of the first n of order, one after the other.
#[tactic(auto, using(crate::proofs::Filling::puts_all, crate::proofs::Filling::puts_more, crate::proofs::Filling::puts_none))]
pub fn fill(
    points: &[[u64; 2]],
    marks: &[[u32; 12]],
    order: &[u32],
    n: u32,
    places: &[u32],
    rows: &mut [[u32; 4]],
    at: &mut [[u64; 2]],
)
    requires { (n ≤ length order.now) × Placing (take n order.now) places.now n }
    ensures { lent rows.new at.new ≡ filled (pool points.now marks.now) (take n order.now) (lent rows.old at.old) }
{
    for (i, &r) in order[..n as usize].iter().enumerate() {
        put_at(points, marks, places, n, rows, at, i, r);
    }
}
