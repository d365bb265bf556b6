// The walk of one contour (`connect_edges`): from its first position over its edges until it is home again, or no end is left.
// Where `near`, only the rows around a position that have its point are tried: see `round`.
// `walked` holds 0 for a position that is not yet walked, c + 1 for one that is walked in contour c.
#![tactic(auto)]

ghost use Rattle.std.specs.Prelude.{◌≡◌, ◌+◌, ◌<◌, length, set};
ghost use Rattle.rows.specs.Rows.{lent};
ghost use Rattle.walks.specs.Walks.{trip, toured, walked_from, edges_from, heading, Stepped};

use events::points::same_point;
use numbers::Point;
use round::next_pos;
use rows::{end_at, point_at, put_point};

#[derive(Clone, Copy)]
pub struct Walk {
    // Where the corners end.
    pub end: usize,
    // The last corner is not the first.
    pub unclosed: bool,
}

// Edges walked one after the other.
#[derive(Clone, Copy)]
struct Edges {
    end: usize,
    // The other end of the last.
    last: u32,
}

// Stores x at a place of the list, where that place is there.
pub fn set_at<T: Copy>(list: &mut [T], i: usize, x: T)
    ensures { list.new ≡ set list.old i x }
{
    if i < list.len() {
        list[i] = x;
    }
}

// Where a walk goes on from the end at q; the number of marks where it does not.
#[tactic(auto, using(crate::proofs::Walks::head_none, crate::proofs::Walks::head_some))]
fn aim_from(
    rows: &[[u32; 4]],
    at: &[[u64; 2]],
    walked: &[u32],
    near: bool,
    home: Point,
    q: u32,
) -> usize
    ensures { result ≡ heading (lent rows.now at.now) home near walked.now q }
{
    let j = next_pos(rows, at, walked, near, q);
    let none = walked.len();
    if none <= j {
        return none;
    }
    let p = point_at(at, j);
    if same_point(home, p) {
        return none;
    }
    j
}

// One edge, from pos to its other end q: both are marked, and q is the next corner.
#[tactic(auto, unfolding(crate::specs::Walks::marked))]
fn step(
    rows: &[[u32; 4]],
    at: &[[u64; 2]],
    walked: &mut [u32],
    corners: &mut [[u64; 2]],
    near: bool,
    home: Point,
    c: u16,
    pos: usize,
    q: u32,
    end: usize,
) -> usize
    ensures { Stepped (lent rows.now at.now) home near c walked.old corners.old pos q end walked.new corners.new result }
{
    let other = q as usize;
    let mark = c as u32 + 1;
    set_at(walked, pos, mark);
    set_at(walked, other, mark);
    let p = point_at(at, other);
    put_point(corners, end, p);
    aim_from(rows, at, walked, near, home, q)
}

// The edges from start on, no more of them than the table has rows.
#[tactic(auto, using(crate::proofs::Walks::edges_more, crate::proofs::Walks::edges_last, crate::proofs::Walks::edges_none))]
fn edges_from(
    rows: &[[u32; 4]],
    at: &[[u64; 2]],
    walked: &mut [u32],
    corners: &mut [[u64; 2]],
    near: bool,
    home: Point,
    c: u16,
    start: usize,
    first: usize,
) -> Edges
    requires { first + length rows.now < 18446744073709551616 }
    ensures { trip walked.new corners.new result.end result.last ≡ edges_from (lent rows.now at.now) home near c (length rows.now) walked.old corners.old first 0 start }
{
    let mut pos = start;
    let mut last = 0;
    for end in first..first + rows.len() {
        let edge = end_at(rows, pos);
        last = edge.other;
        pos = step(rows, at, walked, corners, near, home, c, pos, last, end);
        if walked.len() <= pos {
            return Edges { end: end + 1, last };
        }
    }
    Edges {
        end: first + rows.len(),
        last,
    }
}

// Contour c, from start; its corners are stored from first on.
#[tactic(auto, using(crate::proofs::Walks::whole_none, crate::proofs::Walks::whole_some))]
pub fn walk_from(
    rows: &[[u32; 4]],
    at: &[[u64; 2]],
    walked: &mut [u32],
    corners: &mut [[u64; 2]],
    near: bool,
    c: u16,
    start: usize,
    first: u32,
) -> Walk
    ensures { toured walked.new corners.new result ≡ walked_from (lent rows.now at.now) near c start first walked.old corners.old }
{
    let begin = first as usize;
    if rows.is_empty() {
        return Walk {
            end: begin,
            unclosed: true,
        };
    }
    let home = point_at(at, start);
    put_point(corners, begin, home);
    let edges = edges_from(rows, at, walked, corners, near, home, c, start, begin + 1);
    let last = point_at(at, edges.last as usize);
    Walk {
        end: edges.end,
        unclosed: !same_point(home, last),
    }
}
