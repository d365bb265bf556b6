// Orientation: the exact sign of a turn (`signed_area.rs`).
#![tactic(auto)]

mod parts;
mod quick;
mod sum;

ghost use Rattle.std.specs.Prelude.{◌≡◌};
ghost use Rattle.orientation.specs.Orientation.{signed_area, orientation_of};

use numbers::{Coordinate, first_not_finite};
use quick::{certainly_above, exactly_zero, same_point};
use refusals::{Reason, Refusal};
use sum::exact_sign;

#[derive(Clone, Copy, Debug, PartialEq, Eq)]
pub enum Sign {
    Negative,
    Zero,
    Positive,
}

// By plain floats where they are certain, else by the exact sum.
#[tactic(auto, using(crate::proofs::Told::told))]
pub fn signed_area(p0: Coordinate, p1: Coordinate, p2: Coordinate) -> Sign
    ensures { result ≡ signed_area p0 p1 p2 }
{
    let acx = p0.x - p2.x;
    let bcy = p1.y - p2.y;
    let acy = p0.y - p2.y;
    let bcx = p1.x - p2.x;
    let left = acx * bcy;
    let right = acy * bcx;
    if certainly_above(left, right) {
        return Sign::Positive;
    }
    if certainly_above(right, left) {
        return Sign::Negative;
    }
    if exactly_zero(acx, bcy) && exactly_zero(acy, bcx) {
        return Sign::Zero;
    }
    if same_point(p0, p1) {
        return Sign::Zero;
    }
    exact_sign(p0, p1, p2)
}

// The place of a refusal is which of the six numbers is not finite, from 0.
#[tactic(auto, unfolding(crate::specs::Orientation::orientation_of))]
pub fn orientation(ax: f64, ay: f64, bx: f64, by: f64, cx: f64, cy: f64) -> Result<Sign, Refusal>
    ensures { result ≡ orientation_of ax ay bx by cx cy }
{
    let place = first_not_finite(&[ax, ay, bx, by, cx, cy]);
    if place < 6 {
        return Err(Refusal {
            reason: Reason::Coordinate,
            place: place as u64,
        });
    }
    let a = Coordinate { x: ax, y: ay };
    let b = Coordinate { x: bx, y: by };
    let c = Coordinate { x: cx, y: cy };
    Ok(signed_area(a, b, c))
}
