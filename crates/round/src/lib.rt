// Round a point (`get_next_pos`): the next end there that is not yet walked. Right ends upwards, then left ends downwards, and round again.
// A mark is 0 for a position that is not yet walked. What is not found is told as the number of marks.
#![tactic(auto)]

ghost use Rattle.std.specs.Prelude.{◌≡◌, true, false, ◌-◌, ◌<◌};
ghost use Rattle.rows.specs.Rows.{lent};
ghost use Rattle.round.specs.Round.{mark_in, fitting, rights_from, lefts_from, from_left, from_right, next_in, next_pos};

use block::{block_end, block_start};
use events::points::same_point;
use numbers::Point;
use rows::{end_at, point_at};

pub mod block;

// One outside the marks counts as walked.
#[tactic(auto, unfolding(crate::specs::Round::mark_in))]
pub fn mark_at(marks: &[u32], i: usize) -> u32
    ensures { result ≡ mark_in marks.now i }
{
    marks.get(i).copied().unwrap_or(1)
}

// The end at i is a left end, or a right end, at the point p, and open.
#[tactic(auto, using(crate::proofs::Round::open_no, crate::proofs::Round::open_yes), unfolding(crate::specs::Round::fitting))]
fn fits(rows: &[[u32; 4]], at: &[[u64; 2]], marks: &[u32], p: Point, left: bool, i: usize) -> bool
    ensures { result ≡ fitting (lent rows.now at.now) marks.now p left i }
{
    if mark_at(marks, i) != 0 {
        return false;
    }
    let end = end_at(rows, i);
    if end.left == left {
        let q = point_at(at, i);
        return same_point(p, q);
    }
    false
}

// The first open right end at p from i up to and not with e.
#[tactic(auto, using(crate::proofs::Round::up_more, crate::proofs::Round::up_none))]
fn seek_up(rows: &[[u32; 4]], at: &[[u64; 2]], marks: &[u32], p: Point, i: usize, e: usize) -> usize
    ensures { result ≡ rights_from (lent rows.now at.now) marks.now p i (e - i) }
{
    for j in i..e {
        if fits(rows, at, marks, p, false, j) {
            return j;
        }
    }
    marks.len()
}

// The last open left end at p from i up to and not with e.
#[tactic(auto, using(crate::proofs::Round::down_more, crate::proofs::Round::down_none))]
fn seek_down(
    rows: &[[u32; 4]],
    at: &[[u64; 2]],
    marks: &[u32],
    p: Point,
    i: usize,
    e: usize,
) -> usize
    ensures { result ≡ lefts_from (lent rows.now at.now) marks.now p i (e - i) }
{
    for j in (i..e).rev() {
        if fits(rows, at, marks, p, true, j) {
            return j;
        }
    }
    marks.len()
}

// From a left end at q, among the rows from lo up to and not with hi.
#[tactic(auto, using(crate::proofs::Found::tells_first, crate::proofs::Found::tells_next), unfolding(crate::specs::Round::from_left, crate::specs::Round::lefts_from, crate::specs::Round::rights_from))]
fn from_left(
    rows: &[[u32; 4]],
    at: &[[u64; 2]],
    marks: &[u32],
    p: Point,
    lo: usize,
    hi: usize,
    q: usize,
) -> usize
    requires { q < 4294967296 }
    ensures { result ≡ from_left (lent rows.now at.now) marks.now p lo hi q }
{
    let a = seek_down(rows, at, marks, p, lo, q);
    if a < marks.len() {
        return a;
    }
    let b = seek_up(rows, at, marks, p, lo, hi);
    if b < marks.len() {
        return b;
    }
    seek_down(rows, at, marks, p, q + 1, hi)
}

// From a right end at q.
#[tactic(auto, using(crate::proofs::Found::tells_first, crate::proofs::Found::tells_next), unfolding(crate::specs::Round::from_right, crate::specs::Round::lefts_from, crate::specs::Round::rights_from))]
fn from_right(
    rows: &[[u32; 4]],
    at: &[[u64; 2]],
    marks: &[u32],
    p: Point,
    lo: usize,
    hi: usize,
    q: usize,
) -> usize
    requires { q < 4294967296 }
    ensures { result ≡ from_right (lent rows.now at.now) marks.now p lo hi q }
{
    let a = seek_up(rows, at, marks, p, q + 1, hi);
    if a < marks.len() {
        return a;
    }
    let b = seek_down(rows, at, marks, p, lo, hi);
    if b < marks.len() {
        return b;
    }
    seek_up(rows, at, marks, p, lo, q)
}

// From the end at q, at the point p.
#[tactic(auto, unfolding(crate::specs::Round::next_in, crate::specs::Round::tries_in, crate::specs::Round::from_left, crate::specs::Round::from_right))]
fn next_in(
    rows: &[[u32; 4]],
    at: &[[u64; 2]],
    marks: &[u32],
    p: Point,
    lo: usize,
    hi: usize,
    q: usize,
) -> usize
    requires { q < 4294967296 }
    ensures { result ≡ next_in (lent rows.now at.now) marks.now p lo hi q }
{
    let end = end_at(rows, q);
    if end.left {
        return from_left(rows, at, marks, p, lo, hi, q);
    }
    from_right(rows, at, marks, p, lo, hi, q)
}

// The next open end round the point of the end at q: by all rows, or, where near, by those around q that have its point.
#[tactic(auto, using(crate::proofs::Round::all_tried), unfolding(crate::specs::Round::next_pos, crate::specs::Round::tried, crate::specs::Round::around, crate::specs::Round::next_in))]
pub fn next_pos(rows: &[[u32; 4]], at: &[[u64; 2]], marks: &[u32], near: bool, q: u32) -> usize
    ensures { result ≡ next_pos (lent rows.now at.now) near marks.now q }
{
    let i = q as usize;
    let n = rows.len();
    let p = point_at(at, i);
    if !near {
        return next_in(rows, at, marks, p, 0, n, i);
    }
    if n <= i {
        return next_in(rows, at, marks, p, 0, n, i);
    }
    let lo = block_start(at, p, i);
    let hi = block_end(at, p, i + 1, n);
    next_in(rows, at, marks, p, lo, hi, i)
}
