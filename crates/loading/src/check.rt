// The checks of loading: 1 for the edges, then for the pool, then 2 and 3 for each edge in turn.
ghost use Rattle.std.specs.Prelude.{◌≡◌, not, ◌||◌, length, Err};
ghost use Rattle.events.specs.Binary64.{at_binary64};
ghost use Rattle.events.specs.Pool.{pool};
ghost use Rattle.loading.specs.Loading.{checked_edge, checked_edges};
ghost use Rattle.loading.specs.OnPool as OnPool;
ghost use Rattle.loading.specs.OnPool.{edges_of, edges_sized, pool_sized, shown_edge};

use crate::edge::{Edge, edge_count, read_edge};
use checks::sizes::{POOL_PLACE, pool_refused};
use events::points::{is_unfit_point, same_point};
use numbers::Point;
use refusals::{Reason, Refusal};

// The most edges.
const MAX_EDGES: usize = 2048;

// Where refusal 1 tells of the edges.
const EDGES_PLACE: u64 = 0;

fn refused(reason: Reason, place: u64) -> Result<(), Refusal>
    ensures { result ≡ Err (record { reason = reason; place = place }) }
{
    Err(Refusal { reason, place })
}

// Two arrays of one length, within the limit.
fn check_sizes(ends: &[[u64; 4]], labels: &[[u32; 2]]) -> Result<(), Refusal>
    ensures { result ≡ edges_sized (length ends.now) (length labels.now) }
{
    if ends.len() != labels.len() {
        return refused(Reason::Size, EDGES_PLACE);
    }
    if ends.len() > MAX_EDGES {
        return refused(Reason::Size, EDGES_PLACE);
    }
    Ok(())
}

// Two places for each edge.
fn check_pool(ends: &[[u64; 4]], points: &[[u64; 2]], marks: &[[u32; 12]]) -> Result<(), Refusal>
    ensures { result ≡ pool_sized (length points.now) (length marks.now) (length ends.now) }
{
    if pool_refused(points, marks) {
        return refused(Reason::Size, POOL_PLACE);
    }
    if points.len() < 2 * ends.len() {
        return refused(Reason::Size, POOL_PLACE);
    }
    Ok(())
}

fn is_unfit_edge(from: Point, to: Point) -> bool
    ensures { result ≡ (not (at_binary64.fit from) || not (at_binary64.fit to)) }
{
    if is_unfit_point(from) {
        return true;
    }
    is_unfit_point(to)
}

fn check_edge(e: Edge, i: usize) -> Result<(), Refusal>
    ensures { result ≡ checked_edge at_binary64 i (shown_edge e) }
{
    let from = e.from;
    let to = e.to;
    if is_unfit_edge(from, to) {
        return refused(Reason::Coordinate, i as u64);
    }
    if same_point(from, to) {
        return refused(Reason::Ends, i as u64);
    }
    Ok(())
}

// Each edge in turn.
fn check_edges(ends: &[[u64; 4]], labels: &[[u32; 2]]) -> Result<(), Refusal>
    ensures { result ≡ checked_edges at_binary64 0 (edges_of ends.now labels.now) }
{
    for i in 0..edge_count(ends, labels) {
        check_edge(read_edge(ends, labels, i), i)?;
    }
    Ok(())
}

pub fn accept(
    ends: &[[u64; 4]],
    labels: &[[u32; 2]],
    points: &[[u64; 2]],
    marks: &[[u32; 12]],
) -> Result<(), Refusal>
    ensures { result ≡ OnPool.accept ends.now labels.now (pool points.now marks.now) }
{
    check_sizes(ends, labels)?;
    check_pool(ends, points, marks)?;
    check_edges(ends, labels)
}
