// Overlay's work and arranging as C and Rust call them. include/bezorika.h says the same in plain words.
// Each answers 0, or the number of a refusal; an output that the call does not name stays as lent.
#![tactic(auto)]

ghost use Rattle.std.specs.Prelude.{◌≡◌};
ghost use Rattle.arranging.specs.Arrange as Arrange;
ghost use Rattle.arranging.specs.Answer as Arranging;
ghost use Rattle.overlay_work.specs.Overlay as Spec;
ghost use Rattle.overlay_work.specs.Arranged.{overlay_arranged};
ghost use Rattle.overlay_work.specs.Answer.{number_of};
ghost use Rattle.overlay_entry.specs.Told as Told;

use arranging::arrange;
use overlay_work::{overlay, overlay_arranged};
use refusals::Refusal;

// The answer's number; its value goes into the output that is named for it.
fn tell(overlaid: Result<usize, Refusal>, length: &mut u64, place: &mut u64) -> u64
    ensures value { result ≡ number_of overlaid }
    ensures length_after { length.new ≡ Told.length overlaid length.old }
    ensures place_after { place.new ≡ Told.place overlaid place.old }
{
    match overlaid {
        Err(why) => {
            *place = why.place;
            u64::from(why.reason)
        }
        Ok(n) => {
            *length = n as u64;
            0
        }
    }
}

pub fn bezorika_overlay(bytes: &[u8], out: &mut [u8], length: &mut u64, place: &mut u64) -> u64
    ensures value { result ≡ number_of (Spec.overlay bytes.now out.old).answer }
    ensures out_after { out.new ≡ (Spec.overlay bytes.now out.old).out }
    ensures length_after { length.new ≡ Told.length (Spec.overlay bytes.now out.old).answer length.old }
    ensures place_after { place.new ≡ Told.place (Spec.overlay bytes.now out.old).answer place.old }
{
    let overlaid = overlay(bytes, out);
    tell(overlaid, length, place)
}

// The same of the sheet put in order.
pub fn bezorika_overlay_arranged(
    bytes: &[u8],
    out: &mut [u8],
    length: &mut u64,
    place: &mut u64,
) -> u64
    ensures value { result ≡ number_of (overlay_arranged bytes.now out.old).answer }
    ensures out_after { out.new ≡ (overlay_arranged bytes.now out.old).out }
    ensures length_after { length.new ≡ Told.length (overlay_arranged bytes.now out.old).answer length.old }
    ensures place_after { place.new ≡ Told.place (overlay_arranged bytes.now out.old).answer place.old }
{
    let overlaid = overlay_arranged(bytes, out);
    tell(overlaid, length, place)
}

// A sheet put in order, in its own bytes.
pub fn bezorika_arrange(bytes: &mut [u8], place: &mut u64) -> u64
    ensures value { result ≡ Arranging.number_of (Arrange.arrange bytes.old).answer }
    ensures bytes_after { bytes.new ≡ (Arrange.arrange bytes.old).bytes }
    ensures place_after { place.new ≡ Told.arranged_place (Arrange.arrange bytes.old).answer place.old }
{
    match arrange(bytes) {
        Ok(()) => 0,
        Err(refusal) => {
            *place = refusal.place;
            u64::from(refusal.reason)
        }
    }
}
