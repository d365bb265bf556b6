// A pool of six records that nothing is wrong with, the places after them free and some not numbers.
// Records 0 and 1 are an edge of the subject, 2 and 3 one of the clip; both lie above the edge of 4 and 5.
ghost use Rattle.std.specs.Prelude.{◌≡◌, length};

use test_pools::bits::*;
use test_pools::changes::{PLACES, set_coordinate};

// How many places are in use.
pub const USED: u32 = 6;

pub fn points() -> [[u64; 2]; PLACES]
    ensures { PLACES ≡ length result }
{
    let mut points = [[0; 2]; PLACES];
    points[1] = [FOUR, ZERO];
    points[2] = [ZERO, ONE];
    points[3] = [FOUR, ONE];
    points[4] = [ZERO, MINUS_TWO];
    points[5] = [FOUR, MINUS_TWO];
    points[6] = [QUIET, SIGNALLING];
    points[8] = [NEGATIVE, QUIET];
    points
}

// Left, subject, ring, partner, below, edge type, transition, in-out, other-in-out, contour: of the first two records some of everything, so that
// what is lost shows; the second says it in other numbers than a new record would, and these stay.
pub fn marks() -> [[u32; 12]; PLACES]
    ensures { PLACES ≡ length result }
{
    let mut marks = [[0; 12]; PLACES];
    marks[0] = [1, 1, 5, 1, 1, 4, 0, 1, 1, 0, 1, 2];
    marks[1] = [7, 1, 5, 0, 0, 77, 9, 9, 7, 1, 1, 3];
    marks[2] = [1, 0, 9, 3, 1, 4, 0, 0, 1, 0, 0, 0];
    marks[3] = [0, 0, 9, 2, 0, 0, 0, 0, 0, 0, 0, 0];
    marks[4] = [1, 1, 0, 5, 0, 0, 0, 0, 0, 0, 0, 0];
    marks[5] = [0, 1, 0, 4, 0, 0, 0, 0, 0, 0, 0, 0];
    marks
}

// From left end to right end: the bits of x y x y.
#[derive(Clone, Copy)]
pub struct Segment(pub u64, pub u64, pub u64, pub u64);

// The ends of the edge whose left end is this record.
pub fn place(points: &mut [[u64; 2]], left: usize, right: usize, s: Segment) {
    set_coordinate(points, left, 0, s.0);
    set_coordinate(points, left, 1, s.1);
    set_coordinate(points, right, 0, s.2);
    set_coordinate(points, right, 1, s.3);
}
