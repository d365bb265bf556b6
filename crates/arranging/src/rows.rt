// Edges as rows of words, and as the rows of numbers that they are put in order by.
ghost use Rattle.std.specs.Prelude.{◌≡◌, [], ◌∷◌, map};
ghost use Rattle.sorting.specs.Rows.{at_most};
ghost use Rattle.arranging.specs.Steps.{key_of_row, row_of_key};

use crate::words::{rank, word_of};
use numbers::words::unsigned_word;

// Whether the first of two corners comes first, each by its places.
#[tactic(auto, using(sorting::proofs::Compared::at_most_lem))]
fn is_earlier(px: u64, py: u64, qx: u64, qy: u64) -> bool
    ensures { result ≡ at_most (px ∷ py ∷ []) (qx ∷ qy ∷ []) }
{
    [px, py] <= [qx, qy]
}

// An edge without minus zeros and from its earlier end, by the places of its numbers.
fn key_of(row: [u64; 5]) -> [u64; 5]
    ensures { result ≡ key_of_row row }
{
    let px = rank(unsigned_word(row[0]));
    let py = rank(unsigned_word(row[1]));
    let qx = rank(unsigned_word(row[2]));
    let qy = rank(unsigned_word(row[3]));
    if is_earlier(px, py, qx, qy) {
        return [px, py, qx, qy, row[4]];
    }
    [qx, qy, px, py, row[4]]
}

// The edge of such a row.
#[tactic(auto, unfolding(crate::specs::Steps::row_of_key))]
fn row_of(key: [u64; 5]) -> [u64; 5]
    ensures { result ≡ row_of_key key }
{
    [
        word_of(key[0]),
        word_of(key[1]),
        word_of(key[2]),
        word_of(key[3]),
        key[4],
    ]
}

pub fn to_keys(rows: &mut [[u64; 5]])
    ensures { rows.new ≡ map key_of_row rows.old }
{
    for row in rows.iter_mut() {
        *row = key_of(*row);
    }
}

pub fn to_rows(keys: &mut [[u64; 5]])
    ensures { keys.new ≡ map row_of_key keys.old }
{
    for key in keys.iter_mut() {
        *key = row_of(*key);
    }
}
