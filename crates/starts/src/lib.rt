// All contours of a table (`connect_edges`): each position in turn that is not yet walked starts one.
// Whether the points stand in order is asked once: where they do, a walk need look only at the rows around a position.
// What a contour's holes and depth need of it is kept in `nests`: its first corner, where its corners end, its parent + 1 or 0, its depth.
#![tactic(auto)]

ghost use Rattle.std.specs.Prelude.{◌≡◌, ◌≤◌, length};
ghost use Rattle.rows.specs.Rows.{lent};
ghost use Rattle.starts.specs.Starts.{sheet, turn_of, traced_on};
ghost use Rattle.starts.specs.Steps.{starts};

use checks::sizes::MAX_EVENTS;
use round::block::in_order;
use start::start_at;

mod context;
mod start;

// How far all contours have come.
#[derive(Clone, Copy)]
pub struct Turn {
    // The number of contours, and where their corners end.
    pub count: u32,
    pub end: u32,
    // How many contours have a last corner that is not the first.
    pub unclosed: u32,
    // The refusal that stopped them and the position where it did, or 0.
    pub stop: u32,
    pub place: u32,
}

fn nothing() -> Turn
    ensures { result ≡ turn_of 0 0 0 0 0 }
{
    Turn {
        count: 0,
        end: 0,
        unclosed: 0,
        stop: 0,
        place: 0,
    }
}

// Every position in turn, until a refusal.
#[tactic(auto, using(crate::proofs::Steps::starts_more, crate::proofs::Steps::starts_none))]
fn all_starts(
    rows: &[[u32; 4]],
    at: &[[u64; 2]],
    walked: &mut [u32],
    corners: &mut [[u64; 2]],
    nests: &mut [[u32; 4]],
    near: bool,
) -> Turn
    requires { length rows.now ≤ 4096 }
    ensures { sheet walked.new corners.new nests.new result ≡ starts (lent rows.now at.now) near (length rows.now) 0 (sheet walked.old corners.old nests.old (turn_of 0 0 0 0 0)) }
{
    let mut s = nothing();
    for i in 0..rows.len() {
        s = start_at(rows, at, walked, corners, nests, near, s, i);
        if s.stop != 0 {
            return s;
        }
    }
    s
}

// All contours. Where the table is too long, or the marks are not as many as its rows, or the nests fewer, nothing is done.
#[tactic(auto, using(crate::proofs::Starts::trace_is), unfolding(crate::specs::Starts::traced_on, crate::specs::Starts::fits))]
pub fn trace_starts(
    rows: &[[u32; 4]],
    at: &[[u64; 2]],
    walked: &mut [u32],
    corners: &mut [[u64; 2]],
    nests: &mut [[u32; 4]],
) -> Turn
    ensures { sheet walked.new corners.new nests.new result ≡ traced_on (lent rows.now at.now) walked.old corners.old nests.old }
{
    let n = rows.len();
    if n > MAX_EVENTS {
        return nothing();
    }
    if walked.len() != n {
        return nothing();
    }
    if nests.len() < n {
        return nothing();
    }
    let near = in_order(at, n);
    walked.fill(0);
    all_starts(rows, at, walked, corners, nests, near)
}
