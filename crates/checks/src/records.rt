// The tests of one record, where a pool's records are those below n: refusal 2, and the five mistakes of refusal 4 in 01's order.
ghost use Rattle.std.specs.Prelude.{◌≡◌, [], ◌∷◌};
ghost use Rattle.events.specs.Binary64.{at_binary64};
ghost use Rattle.events.specs.Pool.{pool, row_at};
ghost use Rattle.checks.specs.Checks as Checks;
ghost use Rattle.checks.specs.Checks.{unfit_at, unpaired, alike, misordered, not_to_left, misled, mistaken, right_among, mistaken_or_right};
ghost use Rattle.checks.specs.OnPool.{strikes};

use crate::Fault;
use crate::sizes::is_outside;
use events::points::{is_ahead, is_unfit_point};
use events::pool::read_event;

// Refusal 2: a record of the pool whose point is not fit.
#[tactic(auto, unfolding(crate::specs::Checks::unfit_at))]
pub fn is_unfit_at(points: &[[u64; 2]], marks: &[[u32; 12]], n: usize, r: u32) -> bool
    ensures { result ≡ unfit_at at_binary64 (row_at (pool points.now marks.now)) n r }
{
    if is_outside(n, r) {
        return false;
    }
    let e = read_event(points, marks, r);
    is_unfit_point(e.point)
}

// Partner not mutual.
#[tactic(auto, unfolding(crate::specs::Checks::unpaired))]
pub fn is_unpaired(points: &[[u64; 2]], marks: &[[u32; 12]], n: usize, r: u32) -> bool
    ensures { result ≡ unpaired (row_at (pool points.now marks.now)) n r }
{
    let e = read_event(points, marks, r);
    if is_outside(n, e.partner) {
        return true;
    }
    let other = read_event(points, marks, e.partner);
    other.partner != r
}

// Both flags alike.
#[tactic(auto, unfolding(crate::specs::Checks::alike))]
pub fn is_alike(points: &[[u64; 2]], marks: &[[u32; 12]], r: u32) -> bool
    ensures { result ≡ alike (row_at (pool points.now marks.now)) r }
{
    let e = read_event(points, marks, r);
    let other = read_event(points, marks, e.partner);
    e.left == other.left
}

// Left end not before its partner.
#[tactic(auto, unfolding(crate::specs::Checks::misordered, crate::specs::Checks::in_order))]
pub fn is_misordered(points: &[[u64; 2]], marks: &[[u32; 12]], r: u32) -> bool
    ensures { result ≡ misordered at_binary64 (row_at (pool points.now marks.now)) r }
{
    let e = read_event(points, marks, r);
    let other = read_event(points, marks, e.partner);
    if e.left {
        return !is_ahead(e.point, other.point);
    }
    !is_ahead(other.point, e.point)
}

#[tactic(auto, unfolding(crate::specs::Checks::not_to_left))]
fn is_not_to_left(points: &[[u64; 2]], marks: &[[u32; 12]], n: usize, below: Option<u32>) -> bool
    ensures { result ≡ not_to_left (row_at (pool points.now marks.now)) n below }
{
    match below {
        None => false,
        Some(b) => {
            if is_outside(n, b) {
                return true;
            }
            !read_event(points, marks, b).left
        }
    }
}

// Below link not to a left record.
#[tactic(auto, unfolding(crate::specs::Checks::misled))]
pub fn is_misled(points: &[[u64; 2]], marks: &[[u32; 12]], n: usize, r: u32) -> bool
    ensures { result ≡ misled (row_at (pool points.now marks.now)) n r }
{
    let e = read_event(points, marks, r);
    let below = e.below;
    is_not_to_left(points, marks, n, below)
}

// Refusal 4: one of the five.
#[tactic(auto, unfolding(crate::specs::Checks::mistaken))]
pub fn is_mistaken(points: &[[u64; 2]], marks: &[[u32; 12]], n: usize, r: u32) -> bool
    ensures { result ≡ mistaken at_binary64 (row_at (pool points.now marks.now)) n r }
{
    if is_outside(n, r) {
        return true;
    }
    if is_unpaired(points, marks, n, r) {
        return true;
    }
    if is_alike(points, marks, r) {
        return true;
    }
    if is_misordered(points, marks, r) {
        return true;
    }
    is_misled(points, marks, n, r)
}

// A right record that is a or b.
#[tactic(auto, unfolding(crate::specs::Checks::right_among))]
fn is_right_among(points: &[[u64; 2]], marks: &[[u32; 12]], a: u32, b: u32, r: u32) -> bool
    ensures { result ≡ right_among (row_at (pool points.now marks.now)) (a ∷ b ∷ []) r }
{
    let e = read_event(points, marks, r);
    ((a == r) | (b == r)) & !e.left
}

// Refusal 4 where a and b are wanted left.
#[tactic(auto, unfolding(crate::specs::Checks::mistaken_or_right))]
pub fn is_mistaken_or_right(
    points: &[[u64; 2]],
    marks: &[[u32; 12]],
    n: usize,
    a: u32,
    b: u32,
    r: u32,
) -> bool
    ensures { result ≡ mistaken_or_right at_binary64 (row_at (pool points.now marks.now)) n (a ∷ b ∷ []) r }
{
    if is_mistaken(points, marks, n, r) {
        return true;
    }
    is_right_among(points, marks, a, b, r)
}

// Whether the record has the fault.
#[tactic(auto, unfolding(crate::specs::OnPool::strikes))]
pub fn is_struck(points: &[[u64; 2]], marks: &[[u32; 12]], n: usize, fault: Fault, r: u32) -> bool
    ensures { result ≡ strikes (pool points.now marks.now) n fault r }
{
    match fault {
        Fault::Unfit => is_unfit_at(points, marks, n, r),
        Fault::Mistaken => is_mistaken(points, marks, n, r),
        Fault::MistakenOrRight(a, b) => is_mistaken_or_right(points, marks, n, a, b, r),
    }
}

// The partner's number; outside the pool the number itself.
#[tactic(auto, unfolding(crate::specs::Checks::mate))]
pub fn mate(points: &[[u64; 2]], marks: &[[u32; 12]], n: usize, r: u32) -> u32
    ensures { result ≡ Checks.mate (row_at (pool points.now marks.now)) n r }
{
    if is_outside(n, r) {
        return r;
    }
    read_event(points, marks, r).partner
}
