// The sheet (01, 'The sheet'): bytes read line by line as an operation and the edges of two layers.
#![tactic(auto)]

pub mod edges;
mod layers;
pub mod numerals;
pub mod operations;
mod rows;
pub mod stores;

ghost use Rattle.std.specs.Prelude.{◌≡◌, List, map, ◌≤◌, ◌-◌, drop, length};
ghost use Rattle.std.proofs.lemmas.List.Edits.{sets};
ghost use Rattle.sheet.specs.Sheet.{Sheet, clip_word};
ghost use Rattle.sheet.specs.Reading.{Accepted, Whole, count_of, after_clip, after_subject, read_sheet};
ghost use Rattle.sheet.specs.Shown.{begun, told};
ghost use Rattle.sheet.specs.Stored.{row_of, rows_in, left_rows, leave_rows, left, leave};

use class::Operation;
use edges::Edge;
use layers::{Section, read_layer};
use operations::read_operation;
use refusals::{Reason, Refusal};
use rows::{copy_rows, no_rows};
use stores::store_rows;

// The most edges, in both layers together.
pub const MAX_EDGES: u32 = 256;

// The operation, and how many edges each layer has.
#[derive(Clone, Copy, Debug, PartialEq, Eq)]
pub struct Counts {
    pub operation: Operation,
    pub subject: u32,
    pub clip: u32,
}

// Both layers are read: nothing may come after them.
fn after_clip(
    bytes: &[u8],
    operation: Operation,
    subject: Section,
    clip: Section,
) -> Result<Counts, Refusal>
    ensures { (l m : List Edge) → subject.count ≡ length l → clip.count ≡ length m → result ≡ told (after_clip operation l (Whole m (drop clip.after bytes.now))) }
{
    if clip.after < bytes.len() {
        return Err(Refusal {
            reason: Reason::Malformed,
            place: 4 + (subject.count as u64 + clip.count as u64),
        });
    }
    Ok(Counts {
        operation,
        subject: subject.count,
        clip: clip.count,
    })
}

// The subject is read: the clip comes next, and its edges go behind the subject's.
fn after_subject(
    bytes: &[u8],
    operation: Operation,
    subject: Section,
    rows: &mut [[u64; 5]],
) -> Result<Counts, Refusal>
    requires { subject.count ≤ 256 }
    ensures value { (l : List Edge) → subject.count ≡ length l → result ≡ told (after_subject operation (Whole l (drop subject.after bytes.now))) }
    ensures rows_after { rows.new ≡ sets rows.old subject.count (map row_of (begun (count_of clip_word (256 - subject.count) (drop subject.after bytes.now)))) }
{
    let n = subject.count;
    let most = MAX_EDGES - n;
    let clip = read_layer(bytes, subject.after, b"clip ", most, 3 + n, n, rows)?;
    after_clip(bytes, operation, subject, clip)
}

// Reads line by line, and stores edges as they are read; what a refused sheet leaves is not told.
fn read_lines(bytes: &[u8], rows: &mut [[u64; 5]]) -> Result<Counts, Refusal>
    ensures value { result ≡ told (read_sheet bytes.now) }
    ensures rows_after { (x : Sheet) → read_sheet bytes.now ≡ Accepted x → rows.new ≡ sets rows.old 0 (rows_in x) }
{
    let Some((operation, at)) = read_operation(bytes) else {
        return Err(Refusal {
            reason: Reason::Malformed,
            place: 1,
        });
    };
    let subject = read_layer(bytes, at, b"subject ", MAX_EDGES, 2, 0, rows)?;
    after_subject(bytes, operation, subject, rows)
}

// The rows of each layer, from place 0 of an array of its own. A refused sheet leaves both as lent: edges are read into an array of the function's own,
// and copied once the whole sheet is accepted.
pub fn read_rows(
    bytes: &[u8],
    subject: &mut [[u64; 5]],
    clip: &mut [[u64; 5]],
) -> Result<Counts, Refusal>
    ensures { left_rows result subject.new clip.new ≡ leave_rows (read_sheet bytes.now) subject.old clip.old }
{
    let mut own = no_rows();
    let counts = read_lines(bytes, &mut own)?;
    let n = counts.subject as usize;
    let end = n + counts.clip as usize;
    copy_rows(subject, &own[..n]);
    copy_rows(clip, &own[n..end]);
    Ok(counts)
}

// .. in the form that loading takes.
pub fn read_sheet(
    bytes: &[u8],
    ends: &mut [[u64; 4]],
    labels: &mut [[u32; 2]],
) -> Result<Counts, Refusal>
    ensures { left result ends.new labels.new ≡ leave (read_sheet bytes.now) ends.old labels.old }
{
    let mut own = no_rows();
    let counts = read_lines(bytes, &mut own)?;
    let n = counts.subject as usize;
    let end = n + counts.clip as usize;
    store_rows(&own[..n], 1, 0, ends, labels);
    store_rows(&own[n..end], 0, n, ends, labels);
    Ok(counts)
}
