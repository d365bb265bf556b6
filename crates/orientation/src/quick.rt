// The sign by plain floats, where they are certain of it. A test that passes tells of the exact numbers; one that fails tells nothing.
ghost use Rattle.std.specs.Prelude.{◌≡◌};
ghost use Rattle.orientation.specs.Quick.{certainly_above, exactly_zero, same_point};

use numbers::{Coordinate, HUGE};

// 1 + 2^-49: the rounding of two differences, of their product and of this margin itself comes to less.
const MARGIN: f64 = 1.0000000000000018;

// 2^-1021: a product above it in size has all its digits; below, underflow may have taken them.
const TINY: f64 = 4.450147717014403e-308;

// x and y are each the rounded product of two rounded differences: the exact product for x is above that for y.
// Below HUGE in size a product is no infinity, so every number that went into it was finite.
#[tactic(auto, unfolding(crate::specs::Quick::certainly_above))]
pub fn certainly_above(x: f64, y: f64) -> bool
    ensures { result ≡ certainly_above x y }
{
    y * MARGIN < x && y < x * MARGIN && x < HUGE && -HUGE < y && (TINY < x || y < -TINY)
}

// u and v are rounded differences: the exact product is zero. A rounded difference is zero only where the exact one is.
#[tactic(auto, unfolding(crate::specs::Quick::exactly_zero))]
pub fn exactly_zero(u: f64, v: f64) -> bool
    ensures { result ≡ exactly_zero u v }
{
    u == 0.0 || v == 0.0
}

// Two points that are one make no turn with any third.
#[tactic(auto, unfolding(crate::specs::Quick::same_point))]
pub fn same_point(a: Coordinate, b: Coordinate) -> bool
    ensures { result ≡ same_point a b }
{
    a.x == b.x && a.y == b.y
}
