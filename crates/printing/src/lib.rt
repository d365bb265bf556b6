// Printing (01, 'The sheet'): contours from lent arrays, a refusal, or a sheet, as bytes in a lent array. What does not fit is not stored; the answer
// is how many bytes are wanted, at most the largest number that can be told.
#![tactic(auto)]

pub mod lines;
pub mod puts;
pub mod sheets;

ghost use Rattle.std.specs.Prelude.{map};
ghost use Rattle.printing.specs.Printing.{contours_lines, refused_line};
ghost use Rattle.printing.specs.Arrays.{drawn_row, printed_arrays};
ghost use Rattle.printing.specs.Put.{Put};

use lines::contour_lines;
use puts::{line, number, text};

// The contours, one after the other.
fn all_lines(
    out: &mut [u8],
    at: usize,
    corners: &[[u64; 2]],
    contours: &[[u32; 6]],
    holes: &[u32],
) -> usize
    ensures { Put out.old at (contours_lines (map (drawn_row corners.now holes.now) contours.now)) out.new result }
{
    let mut place = at;
    for row in contours {
        place = contour_lines(out, place, corners, holes, *row);
    }
    place
}

pub fn print_contours(
    corners: &[[u64; 2]],
    contours: &[[u32; 6]],
    holes: &[u32],
    count: u32,
    out: &mut [u8],
) -> usize
    ensures { Put out.old 0 (printed_arrays corners.now contours.now holes.now count) out.new result }
{
    let n = contours.len().min(count as usize);
    let place = line(out, 0, b"contours ", n as u64);
    all_lines(out, place, corners, &contours[..n], holes)
}

// By any number, one that no reason has too.
pub fn print_refusal(told: u64, place: u64, out: &mut [u8]) -> usize
    ensures { Put out.old 0 (refused_line told place) out.new result }
{
    let begun = text(out, 0, b"refused ");
    let end = number(out, begun, told);
    line(out, end, b" at ", place)
}
