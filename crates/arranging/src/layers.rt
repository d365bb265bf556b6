// The layers of a sheet as rows: each in order, and which goes first.
ghost use Rattle.std.specs.Prelude.{◌≡◌};
ghost use Rattle.arranging.specs.Arranged.{symmetric};
ghost use Rattle.arranging.specs.Steps.{keys_in_order, rows_in_order, clip_first};

use crate::rows::{to_keys, to_rows};
use class::Operation;
use sorting::{rows_at_most, sort};

// Whether the operation does not ask which layer is which.
#[tactic(auto, unfolding(crate::specs::Arranged::symmetric))]
fn is_symmetric(operation: Operation) -> bool
    ensures { result ≡ symmetric operation }
{
    match operation {
        Operation::Intersection => true,
        Operation::Difference => false,
        Operation::Union => true,
        Operation::Xor => true,
    }
}

// What the edges of a layer are put in order by, in order.
#[tactic(auto, unfolding(crate::specs::Steps::keys_in_order))]
fn sort_layer(rows: &mut [[u64; 5]])
    ensures { rows.new ≡ keys_in_order rows.old }
{
    to_keys(rows);
    sort(rows);
}

// Puts the rows of both layers in order, each among its own, and answers whether the clip goes first.
pub fn arrange_layers(operation: Operation, subject: &mut [[u64; 5]], clip: &mut [[u64; 5]]) -> bool
    ensures subject_after { subject.new ≡ rows_in_order subject.old }
    ensures clip_after { clip.new ≡ rows_in_order clip.old }
    ensures value { result ≡ clip_first operation subject.old clip.old }
{
    sort_layer(subject);
    sort_layer(clip);
    let subject_first = rows_at_most(subject, clip);
    to_rows(subject);
    to_rows(clip);
    if subject_first {
        return false;
    }
    is_symmetric(operation)
}
