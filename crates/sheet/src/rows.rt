// Rows of words, one for each edge: a sheet is read into an array of reading's own, and copied to the lent one once it is accepted.
ghost use Rattle.std.specs.Prelude.{◌≡◌, ◌+◌, length, set};
ghost use Rattle.std.proofs.lemmas.List.Edits.{sets};
ghost use Rattle.sheet.specs.Stored.{row_of};

use crate::edges::Edge;
use text::words::is_below;

// `MAX_EDGES`, as an array is declared.
const EDGES: usize = 256;

// The array that a sheet is read into.
pub fn no_rows() -> [[u64; 5]; EDGES]
    ensures { length result ≡ 256 }
{
    [[0u64; 5]; EDGES]
}

// Stores v k places after `at`, where that place is there.
pub fn put<T: Copy>(list: &mut [T], at: usize, k: usize, v: T)
    ensures { list.new ≡ set list.old (at + k) v }
{
    if is_below(at, k, list.len()) {
        list[at + k] = v;
    }
}

// Stores an edge's row k places after `at`.
#[tactic(auto, unfolding(crate::specs::Stored::row_of))]
pub fn put_row(rows: &mut [[u64; 5]], at: usize, k: usize, e: Edge)
    ensures { rows.new ≡ set rows.old (at + k) (row_of e) }
{
    let from = e.from;
    let to = e.to;
    put(rows, at, k, [from.x, from.y, to.x, to.y, e.ring as u64]);
}

// Copies what was read to the first places, as far as there are any.
pub fn copy_rows(rows: &mut [[u64; 5]], read: &[[u64; 5]])
    ensures { rows.new ≡ sets rows.old 0 read.now }
{
    let n = rows.len().min(read.len());
    rows[..n].copy_from_slice(&read[..n]);
}
