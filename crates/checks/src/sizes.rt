// Refusal 1, the places of a pool, and which numbers are outside it.
ghost use Rattle.std.specs.Prelude.{◌≡◌, length};
ghost use Rattle.events.specs.Pool.{pool, size};
ghost use Rattle.checks.specs.Checks.{missized, outside};

// The most records that a pool holds.
pub const MAX_EVENTS: usize = 4096;

// The records of a small pool: to clear places for as many as any holds takes longer than to work through these.
pub const FEW: usize = 256;

// Where refusal 1 tells of the pool.
pub const POOL_PLACE: u64 = 1;

// Refusal 1: the arrays unequal, or above the limit.
#[tactic(auto, unfolding(crate::specs::Checks::missized))]
pub fn pool_refused(points: &[[u64; 2]], marks: &[[u32; 12]]) -> bool
    ensures { result ≡ missized (length points.now) (length marks.now) }
{
    if points.len() != marks.len() {
        return true;
    }
    points.len() > MAX_EVENTS
}

// The places of a pool: those of the shorter array.
#[tactic(auto, unfolding(events::specs::Pool::size))]
pub fn places(points: &[[u64; 2]], marks: &[[u32; 12]]) -> usize
    ensures { result ≡ size (pool points.now marks.now) }
{
    points.len().min(marks.len())
}

// A number outside a pool of n places.
#[tactic(auto, unfolding(crate::specs::Checks::outside))]
pub fn is_outside(n: usize, r: u32) -> bool
    ensures { result ≡ outside n r }
{
    r as usize >= n
}
