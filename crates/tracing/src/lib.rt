// All contours of a table (`connect_edges`), whole: corners, parents, depths, holes, and how many are open.
// A contour is: its first corner, where its corners end, its parent + 1 or 0, its depth, its first hole, its number of holes.
#![tactic(auto)]

ghost use Rattle.std.specs.Prelude.{◌≡◌, ◌≤◌, length};
ghost use Rattle.checks.specs.Checks.{max_events};
ghost use Rattle.rows.specs.Rows.{lent};
ghost use Rattle.tracing.specs.Tracing.{sheet, traced_on};
ghost use Rattle.tracing.specs.Parts.{traced_by};

use checks::sizes::{FEW, MAX_EVENTS};
use holes::hold_contours;
use starts::trace_starts;

// How many places of each array are in use, and what stopped the contours.
#[derive(Clone, Copy)]
pub struct Traced {
    pub contours: u32,
    pub corners: u32,
    pub holes: u32,
    // How many contours have a last corner that is not the first.
    pub unclosed: u32,
    // The refusal that stopped them and the position where it did, or 0.
    pub stop: u32,
    pub place: u32,
}

// With places for what is kept of each contour until its holes are known.
#[tactic(auto, unfolding(crate::specs::Parts::traced_by, crate::specs::Parts::holed, crate::specs::Parts::joined))]
fn trace_by(
    rows: &[[u32; 4]],
    at: &[[u64; 2]],
    walked: &mut [u32],
    corners: &mut [[u64; 2]],
    contours: &mut [[u32; 6]],
    holes: &mut [u32],
    nests: &mut [[u32; 4]],
) -> Traced
    ensures { sheet walked.new corners.new contours.new holes.new result ≡ traced_by (lent rows.now at.now) walked.old corners.old contours.old holes.old nests.old }
{
    let turn = trace_starts(rows, at, walked, corners, nests);
    let end = hold_contours(nests, contours, holes, turn.count);
    Traced {
        contours: turn.count,
        corners: turn.end,
        holes: end,
        unclosed: turn.unclosed,
        stop: turn.stop,
        place: turn.place,
    }
}

// With N of them, as many as a table within the limit has rows.
#[tactic(auto, using(crate::proofs::Tracing::traced_is))]
fn trace_in<const N: usize>(
    rows: &[[u32; 4]],
    at: &[[u64; 2]],
    walked: &mut [u32],
    corners: &mut [[u64; 2]],
    contours: &mut [[u32; 6]],
    holes: &mut [u32],
) -> Traced
    requires few { N ≤ max_events }
    requires enough { length rows.now ≤ max_events → length rows.now ≤ N }
    ensures { sheet walked.new corners.new contours.new holes.new result ≡ traced_on (lent rows.now at.now) walked.old corners.old contours.old holes.old }
{
    let mut nests = [[0u32; 4]; N];
    trace_by(rows, at, walked, corners, contours, holes, &mut nests)
}

// Where the table is too long, or the marks are not as many as its rows, nothing is done.
pub fn trace(
    rows: &[[u32; 4]],
    at: &[[u64; 2]],
    walked: &mut [u32],
    corners: &mut [[u64; 2]],
    contours: &mut [[u32; 6]],
    holes: &mut [u32],
) -> Traced
    ensures { sheet walked.new corners.new contours.new holes.new result ≡ traced_on (lent rows.now at.now) walked.old corners.old contours.old holes.old }
{
    if rows.len() <= FEW {
        return trace_in::<FEW>(rows, at, walked, corners, contours, holes);
    }
    trace_in::<MAX_EVENTS>(rows, at, walked, corners, contours, holes)
}
