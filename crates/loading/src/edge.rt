// One edge, as it stands in the lent arrays.
ghost use Rattle.std.specs.Prelude.{◌≡◌, ◌<◌, length};
ghost use Rattle.loading.specs.OnPool.{edge_of, edges_of, edge_at, shown_edge};

use events::points::as_loaded;
use numbers::Point;

#[derive(Clone, Copy)]
pub struct Edge {
    pub subject: bool,
    pub ring: u32,
    pub from: Point,
    pub to: Point,
}

#[tactic(auto, unfolding(crate::specs::OnPool::edge_of, crate::specs::OnPool::end_of))]
fn edge_of(e: [u64; 4], l: [u32; 2]) -> Edge
    ensures { shown_edge result ≡ edge_of e l }
{
    let from = as_loaded(Point { x: e[0], y: e[1] });
    let to = as_loaded(Point { x: e[2], y: e[3] });
    Edge {
        subject: l[1] == 1,
        ring: l[0],
        from,
        to,
    }
}

// The edges that both arrays hold.
pub fn edge_count(ends: &[[u64; 4]], labels: &[[u32; 2]]) -> usize
    ensures { result ≡ length (edges_of ends.now labels.now) }
{
    ends.len().min(labels.len())
}

#[tactic(auto, unfolding(crate::specs::OnPool::edge_at))]
pub fn read_edge(ends: &[[u64; 4]], labels: &[[u32; 2]], i: usize) -> Edge
    requires { (i < length ends.now) × (i < length labels.now) }
    ensures { shown_edge result ≡ edge_at ends.now labels.now i }
{
    edge_of(ends[i], labels[i])
}
