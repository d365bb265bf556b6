// Rows of words stored in the form that loading takes: the two ends as they are, and the ring with 1 for the subject.
ghost use Rattle.std.specs.Prelude.{◌≡◌, map};
ghost use Rattle.std.proofs.lemmas.List.Edits.{sets};
ghost use Rattle.sheet.specs.Stored.{ends_of_row, labels_of_row};

use crate::rows::put;

// A ring is below this.
const RINGS: u64 = 0x1_0000_0000;

// Stores rows from `at` on, in each array as far as it goes.
pub fn store_rows(
    rows: &[[u64; 5]],
    subject: u32,
    at: usize,
    ends: &mut [[u64; 4]],
    labels: &mut [[u32; 2]],
)
    ensures ends_after { ends.new ≡ sets ends.old at (map ends_of_row rows.now) }
    ensures labels_after { labels.new ≡ sets labels.old at (map (labels_of_row subject) rows.now) }
{
    for (i, row) in rows.iter().enumerate() {
        put(ends, at, i, [row[0], row[1], row[2], row[3]]);
        put(labels, at, i, [(row[4] % RINGS) as u32, subject]);
    }
}
