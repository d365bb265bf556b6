// Edge lines at a place of the bytes: a ring number, and two corners by their bits.
ghost use Rattle.std.specs.Prelude.{◌≡◌, drop};
ghost use Rattle.sheet.specs.Reading.{got, number_of, corner_of, edge_of};
ghost use Rattle.sheet.specs.Shown.{shown_corner, shown_edge};

use crate::numerals::read_ring;
use numbers::Point;
use text::digits::read_hex;
use text::words::{after, has_word};

// The bytes of a number with the space before it, and of a corner.
const NUMBER: usize = 17;

const CORNER: usize = 34;

#[derive(Clone, Copy)]
pub struct Edge {
    pub ring: u32,
    pub from: Point,
    pub to: Point,
}

// The word at `at`, after one space.
fn read_number(s: &[u8], at: usize) -> Option<u64>
    ensures { got result (drop 17 (drop at s.now)) ≡ number_of (drop at s.now) }
{
    if has_word(s, at, b" ") {
        return read_hex(s, after(at, 1, s.len()));
    }
    None
}

// The corner at `at`.
fn read_corner(s: &[u8], at: usize) -> Option<Point>
    ensures { shown_corner (drop at s.now) result ≡ corner_of (drop at s.now) }
{
    let x = read_number(s, at)?;
    let y = read_number(s, after(at, NUMBER, s.len()))?;
    Some(Point { x, y })
}

// The edge whose line begins at `at`, and the place after its line.
pub fn read_edge(s: &[u8], at: usize) -> Option<(Edge, usize)>
    ensures { shown_edge s.now result ≡ edge_of (drop at s.now) }
{
    let (ring, first) = read_ring(s, at)?;
    let from = read_corner(s, first)?;
    let second = after(first, CORNER, s.len());
    let to = read_corner(s, second)?;
    let end = after(second, CORNER, s.len());
    if has_word(s, end, b"\n") {
        return Some((Edge { ring, from, to }, after(end, 1, s.len())));
    }
    None
}
