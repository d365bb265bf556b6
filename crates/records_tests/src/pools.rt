// A pool of six records that nothing is wrong with, the places after them unused and some not numbers.
ghost use Rattle.std.specs.Prelude.{◌≡◌, length};

use test_pools::bits::*;
use test_pools::changes::PLACES;

// Three edges, one above the other: records 0 and 1, 2 and 3, 4 and 5.
pub fn points() -> [[u64; 2]; PLACES]
    ensures { PLACES ≡ length result }
{
    let mut points = [[0; 2]; PLACES];
    points[1] = [FOUR, ZERO];
    points[2] = [ZERO, ONE];
    points[3] = [FOUR, ONE];
    points[4] = [ZERO, TWO];
    points[5] = [FOUR, TWO];
    points[6] = [QUIET, SIGNALLING];
    points[7] = [NEGATIVE, QUIET];
    points
}

// The second has a below link, to the third.
pub fn marks() -> [[u32; 12]; PLACES]
    ensures { PLACES ≡ length result }
{
    let mut marks = [[0; 12]; PLACES];
    marks[0] = [1, 1, 0, 1, 0, 0, 0, 0, 0, 0, 0, 0];
    marks[1] = [0, 1, 0, 0, 0, 0, 0, 0, 0, 0, 0, 0];
    marks[2] = [1, 1, 0, 3, 1, 4, 0, 0, 0, 0, 0, 0];
    marks[3] = [0, 1, 0, 2, 0, 0, 0, 0, 0, 0, 0, 0];
    marks[4] = [1, 1, 0, 5, 0, 0, 0, 0, 0, 0, 0, 0];
    marks[5] = [0, 1, 0, 4, 0, 0, 0, 0, 0, 0, 0, 0];
    marks
}
