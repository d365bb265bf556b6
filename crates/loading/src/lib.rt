// Loading: edge i of the lent edges becomes records 2i and 2i+1 of the lent pool.
#![tactic(auto)]

ghost use Rattle.std.specs.Prelude.{◌≡◌};
ghost use Rattle.events.specs.Pool.{pool};
ghost use Rattle.loading.specs.OnPool as OnPool;
ghost use Rattle.loading.specs.OnPool.{after};

use check::accept;
use refusals::Refusal;
use store::load_edges;

mod check;
mod edge;
mod store;

// Loads the edges, x y x y each, with their labels: the ring, and 1 for the subject. The places beyond the two of each edge stay as lent.
pub fn load(
    ends: &[[u64; 4]],
    labels: &[[u32; 2]],
    points: &mut [[u64; 2]],
    marks: &mut [[u32; 12]],
) -> Result<u32, Refusal>
    ensures { after result (pool points.new marks.new) ≡ OnPool.load ends.now labels.now (pool points.old marks.old) }
{
    accept(ends, labels, points, marks)?;
    let used = load_edges(ends, labels, points, marks);
    Ok(used)
}
