// The rows around a position that have its point. Where the points stand in order, no other row has it.
ghost use Rattle.std.specs.Prelude.{◌≡◌, ◌-◌};
ghost use Rattle.round.specs.Block.{block_start, block_end, stands, in_order};

use events::points::{is_ahead, same_point};
use numbers::Point;
use rows::point_at;

// The first of the rows straight below i that have the point p.
#[tactic(auto, using(crate::proofs::Blocks::start_more, crate::proofs::Blocks::start_none))]
pub fn block_start(at: &[[u64; 2]], p: Point, i: usize) -> usize
    ensures { result ≡ block_start at.now p i }
{
    for j in (0..i).rev() {
        let q = point_at(at, j);
        if !same_point(p, q) {
            return j + 1;
        }
    }
    0
}

// Where the rows from i on that have the point p end, at e at the latest.
#[tactic(auto, using(crate::proofs::Blocks::end_more, crate::proofs::Blocks::end_none))]
pub fn block_end(at: &[[u64; 2]], p: Point, i: usize, e: usize) -> usize
    ensures { result ≡ block_end at.now p i (e - i) }
{
    for j in i..e {
        let q = point_at(at, j);
        if !same_point(p, q) {
            return j;
        }
    }
    i.max(e)
}

// The point at i is not ahead of the one below it.
#[tactic(auto, using(crate::proofs::Blocks::stands_more, crate::proofs::Blocks::stands_none))]
fn stands_at(at: &[[u64; 2]], i: usize) -> bool
    ensures { result ≡ stands at.now i }
{
    if i == 0 {
        return true;
    }
    let p = point_at(at, i);
    let q = point_at(at, i - 1);
    !is_ahead(p, q)
}

// The first n points stand in order.
pub fn in_order(at: &[[u64; 2]], n: usize) -> bool
    ensures { result ≡ in_order at.now 0 n }
{
    (0..n).all(|i| stands_at(at, i))
}
