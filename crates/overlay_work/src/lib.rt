// Overlay's work (01, 'The sheet'): from the bytes of a sheet to the bytes of its contours.
#![tactic(auto)]

ghost use Rattle.std.specs.Prelude.{◌≡◌, ◌≤◌, length, ◌+◌, Ok};
ghost use Rattle.overlay_work.specs.Overlay.{pool_places, left, put, is_full, answered, overlay_edges_in, overlay_edges};
ghost use Rattle.overlay_work.specs.Overlay as Spec;
ghost use Rattle.overlay_work.specs.Told.{told_to};
ghost use Rattle.overlay_work.specs.Arranged.{overlay_arranged};

use arranging::read_arranged;
use checks::sizes::FEW;
use class::Operation;
use printing::print_refusal;
use refusals::{Reason, Refusal};
use sheet::{Counts, read_sheet};
use steps::load_edges;

mod steps;

// The most edges that a sheet can have.
const EDGES: usize = 256;

// The places of the large pool.
const POOL: usize = 1024;

// To clear the large pool takes longer than to work so few edges, and three strips across three still fit the small one.
const FEW_EDGES: usize = 24;

// The edges of a sheet, in a pool of so many places, at most those of the large one.
#[tactic(auto, unfolding(crate::specs::Overlay::overlay_edges_in, crate::specs::Overlay::no_points, crate::specs::Overlay::no_marks, crate::specs::Overlay::none_taken))]
fn overlay_in<const PLACES: usize>(
    operation: Operation,
    ends: &[[u64; 4]],
    labels: &[[u32; 2]],
    out: &mut [u8],
) -> Result<usize, Refusal>
    requires { PLACES ≤ pool_places }
    ensures { left result out.new ≡ put (overlay_edges_in PLACES operation ends.now labels.now) out.old }
{
    let mut points = [[0; 2]; PLACES];
    let mut marks = [[0u32; 12]; PLACES];
    let mut taken = [0u32; PLACES];
    load_edges(
        operation,
        ends,
        labels,
        &mut points,
        &mut marks,
        &mut taken,
        out,
    )
}

fn is_full(overlaid: Result<usize, Refusal>) -> bool
    ensures { result ≡ is_full overlaid }
{
    match overlaid {
        Ok(_) => false,
        Err(refusal) => u64::from(refusal.reason) == u64::from(Reason::Full),
    }
}

// Few edges are worked in the small pool, and again in the large one only where that is full.
fn overlay_edges(
    operation: Operation,
    ends: &[[u64; 4]],
    labels: &[[u32; 2]],
    out: &mut [u8],
) -> Result<usize, Refusal>
    ensures { left result out.new ≡ put (overlay_edges operation ends.now labels.now) out.old }
{
    if ends.len() > FEW_EDGES {
        return overlay_in::<POOL>(operation, ends, labels, out);
    }
    let overlaid = overlay_in::<FEW>(operation, ends, labels, out);
    if is_full(overlaid) {
        return overlay_in::<POOL>(operation, ends, labels, out);
    }
    overlaid
}

// What was read is in the first places of the arrays.
#[tactic(auto, unfolding(crate::specs::Told::told_to))]
fn overlay_read(
    counts: Counts,
    ends: &[[u64; 4]],
    labels: &[[u32; 2]],
    out: &mut [u8],
) -> Result<usize, Refusal>
    requires { (counts.subject + counts.clip ≤ length ends.now) × (counts.subject + counts.clip ≤ length labels.now) }
    ensures { left result out.new ≡ put (told_to (Ok counts) ends.now labels.now) out.old }
{
    let n = counts.subject as usize + counts.clip as usize;
    overlay_edges(counts.operation, &ends[..n], &labels[..n], out)
}

// Prints the contours of a sheet into the lent bytes, which stay as lent where it is refused.
pub fn overlay(bytes: &[u8], out: &mut [u8]) -> Result<usize, Refusal>
    ensures { left result out.new ≡ Spec.overlay bytes.now out.old }
{
    let mut ends = [[0; 4]; EDGES];
    let mut labels = [[0u32; 2]; EDGES];
    let counts = read_sheet(bytes, &mut ends, &mut labels)?;
    overlay_read(counts, &ends, &labels, out)
}

// The same of the sheet put in order, so that one drawing has one map however it was saved.
pub fn overlay_arranged(bytes: &[u8], out: &mut [u8]) -> Result<usize, Refusal>
    ensures { left result out.new ≡ overlay_arranged bytes.now out.old }
{
    let mut ends = [[0; 4]; EDGES];
    let mut labels = [[0u32; 2]; EDGES];
    let counts = read_arranged(bytes, &mut ends, &mut labels)?;
    overlay_read(counts, &ends, &labels, out)
}

// What the program prints: the contours, or a refusal's line.
pub fn answer(bytes: &[u8], out: &mut [u8]) -> usize
    ensures { answered result out.new ≡ Spec.answer bytes.now out.old }
{
    match overlay(bytes, out) {
        Ok(n) => n,
        Err(refusal) => print_refusal(u64::from(refusal.reason), refusal.place, out),
    }
}
