// One position: passed by, refused, or the start of a contour.
ghost use Rattle.std.specs.Prelude.{◌≡◌, ◌+◌, ◌*◌, ◌≤◌, ◌<◌, length};
ghost use Rattle.rows.specs.Rows.{lent};
ghost use Rattle.starts.specs.Starts.{sheet};
ghost use Rattle.starts.specs.Steps.{made_at, start_at, Within};

use crate::Turn;
use crate::context::context_of;
use round::mark_at;
use rows::end_at;
use walks::{set_at, walk_from};

// 01's refusal of a contour above an OutIn edge that has no contour.
const LOOSE: u32 = 9;

// The contour from i.
#[tactic(auto, unfolding(crate::specs::Steps::made_at, crate::specs::Steps::ended))]
fn make(
    rows: &[[u32; 4]],
    at: &[[u64; 2]],
    walked: &mut [u32],
    corners: &mut [[u64; 2]],
    nests: &mut [[u32; 4]],
    near: bool,
    s: Turn,
    i: usize,
    parent: u32,
    depth: u32,
) -> Turn
    requires { (s.count < 4096) × (s.unclosed ≤ 4096) × (s.end ≤ 4097 * 4096) × (length rows.now ≤ 4096) }
    ensures { sheet walked.new corners.new nests.new result ≡ made_at (lent rows.now at.now) near (sheet walked.old corners.old nests.old s) i parent depth }
{
    let c = s.count;
    let first = s.end;
    let walk = walk_from(rows, at, walked, corners, near, c as u16, i, first);
    let end = walk.end as u32;
    set_at(nests, c as usize, [first, end, parent, depth]);
    Turn {
        count: c + 1,
        end,
        unclosed: s.unclosed + u32::from(walk.unclosed),
        stop: 0,
        place: 0,
    }
}

#[tactic(auto, unfolding(crate::specs::Steps::start_at, crate::specs::Steps::place_at))]
pub fn start_at(
    rows: &[[u32; 4]],
    at: &[[u64; 2]],
    walked: &mut [u32],
    corners: &mut [[u64; 2]],
    nests: &mut [[u32; 4]],
    near: bool,
    s: Turn,
    i: usize,
) -> Turn
    requires { (Within s nests.old i) × (i < 4096) × (length rows.now ≤ 4096) }
    ensures result_after { sheet walked.new corners.new nests.new result ≡ start_at (lent rows.now at.now) near (sheet walked.old corners.old nests.old s) i }
    ensures within { Within result nests.new (i + 1) }
{
    if mark_at(walked, i) != 0 {
        return s;
    }
    let end = end_at(rows, i);
    let place = context_of(walked, nests, s.count, end.below, end.out_in);
    if place.refused {
        return Turn {
            count: s.count,
            end: s.end,
            unclosed: s.unclosed,
            stop: LOOSE,
            place: i as u32,
        };
    }
    make(
        rows,
        at,
        walked,
        corners,
        nests,
        near,
        s,
        i,
        place.parent,
        place.depth,
    )
}
