// Edge i as records 2i, its first end, and 2i+1; the end earlier by x, then y, is left.
ghost use Rattle.std.specs.Prelude.{◌≡◌, ◌*◌, ◌<◌, ◌≤◌, length};
ghost use Rattle.events.specs.Binary64.{at_binary64};
ghost use Rattle.events.specs.Event.{shown};
ghost use Rattle.events.specs.Pool.{pool, stored};
ghost use Rattle.loading.specs.Loading as Loading;
ghost use Rattle.loading.specs.Loading.{loaded_edge, loaded};
ghost use Rattle.loading.specs.OnPool.{max_edges, edges_of, shown_edge};

use crate::edge::{Edge, edge_count, read_edge};
use events::points::is_ahead;
use events::pool::enter_event;
use events::{Event, fresh_event};
use numbers::Point;

// An end of the edge.
#[tactic(auto, unfolding(crate::specs::Loading::end))]
fn end(e: Edge, p: Point, left: bool, partner: u32) -> Event
    ensures { shown result ≡ Loading.end (shown_edge e) p left partner }
{
    fresh_event(p, left, e.subject, e.ring, partner)
}

fn load_edge(points: &mut [[u64; 2]], marks: &mut [[u32; 12]], i: u32, e: Edge)
    requires { i < max_edges }
    ensures { pool points.new marks.new ≡ loaded_edge at_binary64 stored (pool points.old marks.old) i (shown_edge e) }
{
    let from = e.from;
    let to = e.to;
    let first = 2 * i;
    let second = first + 1;
    let left = is_ahead(from, to);
    enter_event(points, marks, first, end(e, from, left, second));
    enter_event(points, marks, second, end(e, to, !left, first));
}

// All edges; the answer is how many places are in use.
pub fn load_edges(
    ends: &[[u64; 4]],
    labels: &[[u32; 2]],
    points: &mut [[u64; 2]],
    marks: &mut [[u32; 12]],
) -> u32
    requires { length (edges_of ends.now labels.now) ≤ max_edges }
    ensures { (result ≡ 2 * length (edges_of ends.now labels.now)) × (pool points.new marks.new ≡ loaded at_binary64 stored (pool points.old marks.old) 0 (edges_of ends.now labels.now)) }
{
    let n = edge_count(ends, labels);
    for i in 0..n {
        load_edge(points, marks, i as u32, read_edge(ends, labels, i));
    }
    2 * (n as u32)
}
