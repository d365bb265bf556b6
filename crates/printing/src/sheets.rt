// A sheet from rows of words, each an edge's two ends and its ring.
ghost use Rattle.std.specs.Prelude.{map};
ghost use Rattle.sheet.specs.Sheet.{operation_line, corner_bytes, edge_line, edge_lines, layer_bytes, written};
ghost use Rattle.sheet.specs.Stored.{edge_of_row};
ghost use Rattle.printing.specs.Rows.{sheet_of_rows};
ghost use Rattle.printing.specs.Put.{Put};

use crate::puts::{line, number, text, word};
use class::Operation;

#[tactic(auto, unfolding(sheet::specs::Sheet::operation_line, sheet::specs::Sheet::operation_word, text::specs::Quoted::quoted))]
fn operation_line(out: &mut [u8], at: usize, operation: Operation) -> usize
    ensures { Put out.old at (operation_line operation) out.new result }
{
    match operation {
        Operation::Intersection => text(out, at, b"operation intersection\n"),
        Operation::Difference => text(out, at, b"operation difference\n"),
        Operation::Union => text(out, at, b"operation union\n"),
        Operation::Xor => text(out, at, b"operation xor\n"),
    }
}

fn corner(out: &mut [u8], at: usize, x: u64, y: u64) -> usize
    ensures { Put out.old at (corner_bytes (record { x = x; y = y })) out.new result }
{
    let second = word(out, at, x);
    word(out, second, y)
}

fn edge_line(out: &mut [u8], at: usize, row: [u64; 5]) -> usize
    ensures { Put out.old at (edge_line (edge_of_row row)) out.new result }
{
    let from = number(out, at, row[4]);
    let to = corner(out, from, row[0], row[1]);
    let end = corner(out, to, row[2], row[3]);
    text(out, end, b"\n")
}

fn edge_lines(out: &mut [u8], at: usize, rows: &[[u64; 5]]) -> usize
    ensures { Put out.old at (edge_lines (map edge_of_row rows.now)) out.new result }
{
    let mut place = at;
    for row in rows {
        place = edge_line(out, place, *row);
    }
    place
}

// A layer: its count, and its edges.
fn layer(out: &mut [u8], at: usize, name: &[u8], rows: &[[u64; 5]]) -> usize
    ensures { Put out.old at (layer_bytes name.now (map edge_of_row rows.now)) out.new result }
{
    let first = line(out, at, name, rows.len() as u64);
    edge_lines(out, first, rows)
}

pub fn print_sheet(
    operation: Operation,
    subject: &[[u64; 5]],
    clip: &[[u64; 5]],
    out: &mut [u8],
) -> usize
    ensures { Put out.old 0 (written (sheet_of_rows operation subject.now clip.now)) out.new result }
{
    let first = operation_line(out, 0, operation);
    let second = layer(out, first, b"subject ", subject);
    layer(out, second, b"clip ", clip)
}
