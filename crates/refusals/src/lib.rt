// What a refused call tells: 01, 'Numbers given back'.
#![tactic(auto)]

ghost use Rattle.std.specs.Prelude.{◌≡◌, Some};
ghost use Rattle.refusals.specs.Refusals.{number, refusal_text};

use std::fmt;

#[derive(Clone, Copy, Debug, PartialEq, Eq)]
pub enum Reason {
    // A size is above its limit, or the arrays of a pool are unequal.
    Size,
    // A coordinate is not finite; from loading on, or above 2^100.
    Coordinate,
    // An edge's ends are equal.
    Ends,
    // A number is outside the pool, or a record does not fit its partner or the edge below.
    Link,
    // A lent array has fewer places than wanted.
    Room,
    // A division finds fewer than two free places.
    Full,
    // A cut does not divide its segment, or the record to be divided is a right end.
    Cut,
    // One end of a result edge is missing from the list.
    HalfEdge,
    // The edge below is OutIn and has no contour.
    Loose,
    // A line of the sheet is not what stands there.
    Malformed,
}

#[derive(Clone, Copy, Debug, PartialEq, Eq)]
pub struct Refusal {
    pub reason: Reason,
    pub place: u64,
}

// The number by which C and the printed line tell the reason.
impl From<Reason> for u64 {
    ghost from_gives = { λ reason n. n ≡ number reason };

    fn from(reason: Reason) -> u64 {
        match reason {
            Reason::Size => 1,
            Reason::Coordinate => 2,
            Reason::Ends => 3,
            Reason::Link => 4,
            Reason::Room => 5,
            Reason::Full => 6,
            Reason::Cut => 7,
            Reason::HalfEdge => 8,
            Reason::Loose => 9,
            Reason::Malformed => 10,
        }
    }
}

impl fmt::Display for Refusal {
    ghost output = { λ refusal. Some (refusal_text refusal) };

    fn fmt<W: fmt::Write>(&self, f: &mut fmt::Formatter<W>) -> fmt::Result {
        write!(f, "refused {} at {}", u64::from(self.reason), self.place)
    }
}
