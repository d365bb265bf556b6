// Which records of a pool are in the result, and how many of a list are.
#![tactic(auto)]

ghost use Rattle.std.specs.Prelude.{◌≡◌, ℕ, Bool, length};
ghost use Rattle.events.specs.Pool.{pool, row_at};
ghost use Rattle.contours.specs.Result.{keep, in_result, results, result_edges};
ghost use Rattle.results.specs.Edge.{is_edge};

use class::is_in_result;
use events::pool::read_event;

// The edge of a record is in the result: its left end is.
#[tactic(auto, unfolding(contours::specs::Result::in_result))]
pub fn in_result(points: &[[u64; 2]], marks: &[[u32; 12]], r: u32) -> bool
    ensures { result ≡ in_result (row_at (pool points.now marks.now)) r }
{
    let e = read_event(points, marks, r);
    if e.left {
        return is_in_result(e);
    }
    let left_end = read_event(points, marks, e.partner);
    is_in_result(left_end)
}

// The left end of an edge in the result: one for each such edge.
#[tactic(auto, unfolding(contours::specs::Result::in_result, crate::specs::Edge::is_edge))]
pub fn is_edge(points: &[[u64; 2]], marks: &[[u32; 12]], r: u32) -> bool
    ensures { result ≡ is_edge (row_at (pool points.now marks.now)) r }
{
    let e = read_event(points, marks, r);
    if e.left {
        return is_in_result(e);
    }
    false
}

// How many of a list the test holds of, with no branch on what it tells.
fn count_of<F: Fn(u32) -> bool>(list: &[u32], test: F) -> usize
    requires { F.IsAlwaysCallable test }
    ensures { (p : ℕ → Bool) → ((r : ℕ) (b : Bool) → F.post test r b → b ≡ p r) → result ≡ length (keep p list.now) }
{
    let mut count = 0;
    for &r in list {
        count += usize::from(test(r));
    }
    count
}

// The result events of a list.
pub fn count_events(points: &[[u64; 2]], marks: &[[u32; 12]], list: &[u32]) -> usize
    ensures { result ≡ length (results (row_at (pool points.now marks.now)) list.now) }
{
    count_of(list, |r| in_result(points, marks, r))
}

// The result edges of a list.
pub fn count_edges(points: &[[u64; 2]], marks: &[[u32; 12]], list: &[u32]) -> usize
    ensures { result ≡ length (result_edges (row_at (pool points.now marks.now)) list.now) }
{
    count_of(list, |r| is_edge(points, marks, r))
}
