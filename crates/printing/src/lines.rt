// The lines of a contour.
ghost use Rattle.std.specs.Prelude.{map, ◌≡◌};
ghost use Rattle.printing.specs.Printing.{parent_bytes, head_line, hole_lines, corner_line, corner_lines, contour_lines};
ghost use Rattle.printing.specs.Arrays.{part, corner_of, parent_of, drawn_row};
ghost use Rattle.printing.specs.Put.{Put};

use crate::puts::{bits, line, number, text, word};
use view::{corner_shown, count_shown, part_of};

// The parent's number, given as that number + 1, or `-` for 0.
#[tactic(auto, unfolding(crate::specs::Printing::parent_bytes, crate::specs::Arrays::parent_of, text::specs::Quoted::quoted))]
fn parent_word(out: &mut [u8], at: usize, parent: u32) -> usize
    ensures { Put out.old at (parent_bytes (parent_of parent)) out.new result }
{
    if parent == 0 {
        return text(out, at, b"-");
    }
    number(out, at, (parent - 1) as u64)
}

fn head_line(out: &mut [u8], at: usize, parent: u32, depth: u32) -> usize
    ensures { Put out.old at (head_line (parent_of parent) depth) out.new result }
{
    let word = text(out, at, b"parent ");
    let end = parent_word(out, word, parent);
    line(out, end, b" depth ", depth as u64)
}

fn corner_line(out: &mut [u8], at: usize, x: u64, y: u64) -> usize
    ensures { Put out.old at (corner_line (record { x = x; y = y })) out.new result }
{
    let second = bits(out, at, x);
    let end = word(out, second, y);
    text(out, end, b"\n")
}

// The hole numbers, one a line.
fn hole_lines(out: &mut [u8], at: usize, holes: &[u32]) -> usize
    ensures { Put out.old at (hole_lines holes.now) out.new result }
{
    let mut place = at;
    for hole in holes {
        place = line(out, place, b"", *hole as u64);
    }
    place
}

// The corners of a contour, one a line.
fn corner_lines(out: &mut [u8], at: usize, corners: &[[u64; 2]]) -> usize
    ensures { Put out.old at (corner_lines (map corner_of corners.now)) out.new result }
{
    let mut place = at;
    for i in 0..count_shown(corners) {
        if let Some(p) = corner_shown(corners, i) {
            place = corner_line(out, place, p.x, p.y);
        }
    }
    place
}

// The `count` holes from `first` on, none if they are not within their array.
#[tactic(auto, unfolding(crate::specs::Arrays::part, crate::specs::Arrays::part_length))]
fn part(holes: &[u32], first: u32, count: u32) -> &[u32]
    ensures { result.now ≡ part holes.now first count }
{
    let start = first as usize;
    holes.get(start..start + count as usize).unwrap_or(&[])
}

pub fn contour_lines(
    out: &mut [u8],
    at: usize,
    corners: &[[u64; 2]],
    holes: &[u32],
    row: [u32; 6],
) -> usize
    ensures { Put out.old at (contour_lines (drawn_row corners.now holes.now row)) out.new result }
{
    let inside = part(holes, row[4], row[5]);
    let shown = part_of(corners, row[0] as usize, row[1] as usize);
    let counted = head_line(out, at, row[2], row[3]);
    let listed = line(out, counted, b"holes ", inside.len() as u64);
    let points = hole_lines(out, listed, inside);
    let first = line(out, points, b"points ", count_shown(shown) as u64);
    corner_lines(out, first, shown)
}
