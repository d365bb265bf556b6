// The place of every record in an order: from its end on, so that the first place of a record stays.
ghost use Rattle.std.specs.Prelude.{◌≡◌, ◌≤◌, length, take, set};
ghost use Rattle.positions.specs.Positions.{place_all, place_in};
ghost use Rattle.positions.specs.Steps.{Placed};

use checks::sizes::MAX_EVENTS;

// A record that the places do not cover is passed over.
fn put(places: &mut [u32], r: u32, k: u32)
    ensures { places.new ≡ set places.old r k }
{
    let i = r as usize;
    if i < places.len() {
        places[i] = k;
    }
}

// From the end on: what stands first overwrites what stands later.
fn place_each(order: &[u32], n: u32, places: &mut [u32])
    requires { n ≤ length order.now }
    ensures { Placed (take n order.now) 0 places.old places.new }
{
    // no record is there yet
    places.fill(n);
    for k in (0..n).rev() {
        put(places, order[k as usize], k);
    }
}

// The place of each record among the first n of order; n where it is not there.
#[tactic(auto, using(crate::proofs::Placing::placed_is), unfolding(crate::specs::Positions::place_all))]
pub fn place_all(order: &[u32], n: usize, places: &mut [u32])
    ensures { places.new ≡ place_all order.now n places.old }
{
    if MAX_EVENTS < n {
        return;
    }
    if order.len() < n {
        return;
    }
    place_each(order, n as u32, places);
}

// The place of record r; n for a record that the places do not cover.
#[tactic(auto, unfolding(crate::specs::Positions::place_in))]
pub fn place_of(places: &[u32], n: u32, r: u32) -> u32
    ensures { result ≡ place_in places.now n r }
{
    let i = r as usize;
    if i < places.len() {
        return places[i];
    }
    n
}
