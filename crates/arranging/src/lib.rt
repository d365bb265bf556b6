// A sheet put in order (`arrange`): every way of saving one drawing becomes the same bytes.
#![tactic(auto)]

mod layers;
mod rows;
mod words;

ghost use Rattle.std.specs.Prelude.{◌≡◌, ◌<◌, length, Ok};
ghost use Rattle.std.proofs.lemmas.List.Edits.{sets};
ghost use Rattle.sheet.specs.Sheet.{written};
ghost use Rattle.sheet.specs.Reading.{read_sheet};
ghost use Rattle.sheet.specs.Stored as Stored;
ghost use Rattle.arranging.specs.Arrange.{left, arranged_reading};
ghost use Rattle.arranging.specs.Arrange as Spec;
ghost use Rattle.arranging.specs.Steps.{sheet_in_order, stored, stored_in_order};

use class::Operation;
use layers::arrange_layers;
use printing::sheets::print_sheet;
use refusals::Refusal;
use sheet::stores::store_rows;
use sheet::{Counts, read_rows};

// `sheet::MAX_EDGES`, as an array is declared.
const EDGES: usize = 256;

// Prints the arranged sheet of two layers' rows from the first byte on.
fn print_arranged(
    operation: Operation,
    subject: &mut [[u64; 5]],
    clip: &mut [[u64; 5]],
    bytes: &mut [u8],
)
    ensures { bytes.new ≡ sets bytes.old 0 (written (sheet_in_order operation subject.old clip.old)) }
{
    if arrange_layers(operation, subject, clip) {
        print_sheet(operation, clip, subject, bytes);
        return;
    }
    print_sheet(operation, subject, clip, bytes);
}

// The arranged sheet has as many bytes, so that nothing but the sheet itself can be refused.
pub fn arrange(bytes: &mut [u8]) -> Result<(), Refusal>
    ensures { left result bytes.new ≡ Spec.arrange bytes.old }
{
    let mut subject = [[0u64; 5]; EDGES];
    let mut clip = [[0u64; 5]; EDGES];
    let counts = read_rows(bytes, &mut subject, &mut clip)?;
    print_arranged(
        counts.operation,
        &mut subject[..counts.subject as usize],
        &mut clip[..counts.clip as usize],
        bytes,
    );
    Ok(())
}

// Two layers' rows in the form that loading takes.
fn store_layers(
    operation: Operation,
    subject: &[[u64; 5]],
    clip: &[[u64; 5]],
    ends: &mut [[u64; 4]],
    labels: &mut [[u32; 2]],
) -> Counts
    requires { (length subject.now < 4294967296) × (length clip.now < 4294967296) }
    ensures { Stored.left (Ok result) ends.new labels.new ≡ stored operation subject.now clip.now ends.old labels.old }
{
    store_rows(subject, 1, 0, ends, labels);
    store_rows(clip, 0, subject.len(), ends, labels);
    Counts {
        operation,
        subject: subject.len() as u32,
        clip: clip.len() as u32,
    }
}

// .. of the arranged sheet.
fn store_arranged(
    operation: Operation,
    subject: &mut [[u64; 5]],
    clip: &mut [[u64; 5]],
    ends: &mut [[u64; 4]],
    labels: &mut [[u32; 2]],
) -> Counts
    requires { (length subject.old < 4294967296) × (length clip.old < 4294967296) }
    ensures { Stored.left (Ok result) ends.new labels.new ≡ stored_in_order operation subject.old clip.old ends.old labels.old }
{
    if arrange_layers(operation, subject, clip) {
        return store_layers(operation, clip, subject, ends, labels);
    }
    store_layers(operation, subject, clip, ends, labels)
}

// The edges of the arranged sheet in the form that loading takes, without its bytes.
pub fn read_arranged(
    bytes: &[u8],
    ends: &mut [[u64; 4]],
    labels: &mut [[u32; 2]],
) -> Result<Counts, Refusal>
    ensures { Stored.left result ends.new labels.new ≡ Stored.leave (arranged_reading (read_sheet bytes.now)) ends.old labels.old }
{
    let mut subject = [[0u64; 5]; EDGES];
    let mut clip = [[0u64; 5]; EDGES];
    let counts = read_rows(bytes, &mut subject, &mut clip)?;
    Ok(store_arranged(
        counts.operation,
        &mut subject[..counts.subject as usize],
        &mut clip[..counts.clip as usize],
        ends,
        labels,
    ))
}
