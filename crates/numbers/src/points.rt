// Points of two numbers: their order, and their zeros without a sign.
ghost use Rattle.std.specs.Prelude.{◌≡◌};
ghost use Rattle.numbers.specs.Points.{is_ahead, unsigned_point};

use crate::{Coordinate, unsigned};

// Earlier by x, then y.
#[tactic(auto, unfolding(crate::specs::Points::is_ahead))]
pub fn is_ahead(p: Coordinate, q: Coordinate) -> bool
    ensures { result ≡ is_ahead p q }
{
    if p.x < q.x {
        return true;
    }
    if q.x < p.x {
        return false;
    }
    p.y < q.y
}

#[tactic(auto, unfolding(crate::specs::Points::unsigned_point))]
pub fn unsigned_point(p: Coordinate) -> Coordinate
    ensures { result ≡ unsigned_point p }
{
    Coordinate {
        x: unsigned(p.x),
        y: unsigned(p.y),
    }
}
