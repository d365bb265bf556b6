// What C and Rust call: numbers in, numbers out. include/bezorika.h says the same in plain words.
// Each answers 0, or the number of a refusal; an output that a call does not name stays as lent, to the bit: corners are lent as words.
#![tactic(auto)]

ghost use Rattle.std.specs.Prelude.{◌≡◌, map};
ghost use Rattle.std.specs.Float.{binary64};
ghost use Rattle.std.specs.Float.Ieee.{to_bits};
ghost use Rattle.std.proofs.lemmas.List.Edits.{sets};
ghost use Rattle.orientation.specs.Orientation as Orientation;
ghost use Rattle.crossing.specs.Crossing.{crossing_in};
ghost use Rattle.crossing.specs.Modes.{plain, ordered};
ghost use Rattle.crossing.specs.Answer.{number_of, values_of};
ghost use Rattle.entries.specs.ToldTurn as ToldTurn;
ghost use Rattle.entries.specs.ToldCrossing as ToldCrossing;

use crossing::LineIntersection;
use numbers::words::word;
use orientation::Sign;
use refusals::Refusal;

// The sign's number put into what the caller lends.
fn tell_turn(turn: Sign, sign: &mut i64)
    ensures { sign.new ≡ Orientation.number_of turn }
{
    match turn {
        Sign::Negative => {
            *sign = -1;
        }
        Sign::Zero => {
            *sign = 0;
        }
        Sign::Positive => {
            *sign = 1;
        }
    }
}

pub fn bezorika_orientation(
    ax: f64,
    ay: f64,
    bx: f64,
    by: f64,
    cx: f64,
    cy: f64,
    sign: &mut i64,
    place: &mut u64,
) -> u64
    ensures value { result ≡ ToldTurn.refusal (Orientation.orientation_of ax ay bx by cx cy) }
    ensures sign_after { sign.new ≡ ToldTurn.sign (Orientation.orientation_of ax ay bx by cx cy) sign.old }
    ensures place_after { place.new ≡ ToldTurn.place (Orientation.orientation_of ax ay bx by cx cy) place.old }
{
    match orientation::orientation(ax, ay, bx, by, cx, cy) {
        Err(why) => {
            *place = why.place;
            u64::from(why.reason)
        }
        Ok(turn) => {
            tell_turn(turn, sign);
            0
        }
    }
}

// The answer's number and its corners put into what the caller lends.
fn tell_crossing(found: LineIntersection, kind: &mut u64, corners: &mut [u64; 4])
    ensures kind_after { kind.new ≡ number_of found }
    ensures corners_after { corners.new ≡ sets corners.old 0 (map (to_bits binary64) (values_of found)) }
{
    match found {
        LineIntersection::None => {
            *kind = 0;
        }
        LineIntersection::Point(p) => {
            *kind = 1;
            corners[0] = word(p.x);
            corners[1] = word(p.y);
        }
        LineIntersection::Overlap(p, q) => {
            *kind = 2;
            corners[0] = word(p.x);
            corners[1] = word(p.y);
            corners[2] = word(q.x);
            corners[3] = word(q.y);
        }
        LineIntersection::Lost => {
            *kind = 3;
        }
    }
}

// What a crossing tells put into what the caller lends.
fn tell_crossed(
    crossed: Result<LineIntersection, Refusal>,
    kind: &mut u64,
    corners: &mut [u64; 4],
    place: &mut u64,
) -> u64
    ensures value { result ≡ ToldCrossing.refusal crossed }
    ensures kind_after { kind.new ≡ ToldCrossing.kind crossed kind.old }
    ensures corners_after { corners.new ≡ ToldCrossing.corners crossed corners.old }
    ensures place_after { place.new ≡ ToldCrossing.place crossed place.old }
{
    match crossed {
        Err(why) => {
            *place = why.place;
            u64::from(why.reason)
        }
        Ok(found) => {
            tell_crossing(found, kind, corners);
            0
        }
    }
}

pub fn bezorika_crossing(
    ax: f64,
    ay: f64,
    bx: f64,
    by: f64,
    cx: f64,
    cy: f64,
    dx: f64,
    dy: f64,
    kind: &mut u64,
    corners: &mut [u64; 4],
    place: &mut u64,
) -> u64
    ensures value { result ≡ ToldCrossing.refusal (crossing_in plain ax ay bx by cx cy dx dy) }
    ensures kind_after { kind.new ≡ ToldCrossing.kind (crossing_in plain ax ay bx by cx cy dx dy) kind.old }
    ensures corners_after { corners.new ≡ ToldCrossing.corners (crossing_in plain ax ay bx by cx cy dx dy) corners.old }
    ensures place_after { place.new ≡ ToldCrossing.place (crossing_in plain ax ay bx by cx cy dx dy) place.old }
{
    let crossed = crossing::crossing(crossing::PLAIN, ax, ay, bx, by, cx, cy, dx, dy);
    tell_crossed(crossed, kind, corners, place)
}

// The same to the last bit however the two segments are named.
pub fn bezorika_crossing_ordered(
    ax: f64,
    ay: f64,
    bx: f64,
    by: f64,
    cx: f64,
    cy: f64,
    dx: f64,
    dy: f64,
    kind: &mut u64,
    corners: &mut [u64; 4],
    place: &mut u64,
) -> u64
    ensures value { result ≡ ToldCrossing.refusal (crossing_in ordered ax ay bx by cx cy dx dy) }
    ensures kind_after { kind.new ≡ ToldCrossing.kind (crossing_in ordered ax ay bx by cx cy dx dy) kind.old }
    ensures corners_after { corners.new ≡ ToldCrossing.corners (crossing_in ordered ax ay bx by cx cy dx dy) corners.old }
    ensures place_after { place.new ≡ ToldCrossing.place (crossing_in ordered ax ay bx by cx cy dx dy) place.old }
{
    let crossed = crossing::crossing(crossing::ORDERED, ax, ay, bx, by, cx, cy, dx, dy);
    tell_crossed(crossed, kind, corners, place)
}
