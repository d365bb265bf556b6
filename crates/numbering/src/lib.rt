// The contour numbers that a walk leaves in the pool: those found there are forgotten, and those given are written.
#![tactic(auto)]

ghost use Rattle.std.specs.Prelude.{◌≡◌};
ghost use Rattle.events.specs.Pool.{pool};
ghost use Rattle.contours.specs.Connect.{contour_of};
ghost use Rattle.numbering.specs.Numbering.{number_at, Renumbered, settled_by};

use checks::sizes;
use events::pool::{link_over, there_over};

// Of a mark: 0 is open, c + 1 is walked in contour c.
#[tactic(auto, unfolding(contours::specs::Connect::contour_of))]
fn contour_of(mark: u32) -> Option<u32>
    ensures { result ≡ contour_of mark }
{
    if mark == 0 {
        return None;
    }
    Some(mark - 1)
}

// A record without a place, or with one beyond the marks, has no contour.
#[tactic(auto, unfolding(contours::specs::Connect::contour_of, crate::specs::Numbering::number_at))]
fn contour_at(places: &[u32], walked: &[u32], r: usize) -> Option<u32>
    ensures { result ≡ number_at places.now walked.now r }
{
    if r >= places.len() {
        return None;
    }
    let at = places[r] as usize;
    if at >= walked.len() {
        return None;
    }
    contour_of(walked[at])
}

// The marks of a record with its contour number: only the contour's two are written, and not where they say it already.
fn renumbered(p: [u64; 2], m: [u32; 12], contour: Option<u32>) -> [u32; 12]
    ensures { Renumbered p m contour result }
{
    let there = there_over(m[10], m[11], contour);
    let number = link_over(m[10], m[11], contour);
    // most records keep their number, and are then not written at all
    if there == m[10] {
        if number == m[11] {
            return m;
        }
    }
    let mut r = m;
    r[10] = there;
    r[11] = number;
    r
}

// Each record of the pool gets the contour number of its place among the walked: `places` tells the place, `walked` holds the marks.
#[tactic(auto, unfolding(events::specs::Pool::size))]
pub fn settle(points: &[[u64; 2]], marks: &mut [[u32; 12]], places: &[u32], walked: &[u32])
    ensures { pool points.now marks.new ≡ settled_by places.now walked.now (pool points.now marks.old) }
{
    for r in 0..sizes::places(points, marks) {
        let contour = contour_at(places, walked, r);
        marks[r] = renumbered(points[r], marks[r], contour);
    }
}
