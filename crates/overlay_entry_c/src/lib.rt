// What C and Rust link of `overlay_entry`: its calls under their C names, with the same promises. include/bezorika.h says the same in plain words.
#![tactic(auto)]

ghost use Rattle.std.specs.Prelude.{◌≡◌};
ghost use Rattle.arranging.specs.Arrange as Arrange;
ghost use Rattle.arranging.specs.Answer as Arranging;
ghost use Rattle.overlay_work.specs.Overlay as Spec;
ghost use Rattle.overlay_work.specs.Arranged.{overlay_arranged};
ghost use Rattle.overlay_work.specs.Answer.{number_of};
ghost use Rattle.overlay_entry.specs.Told as Told;

#[unsafe(no_mangle)]
pub extern "C" fn bezorika_overlay(
    bytes: &[u8],
    out: &mut [u8],
    length: &mut u64,
    place: &mut u64,
) -> u64
    ensures value { result ≡ number_of (Spec.overlay bytes.now out.old).answer }
    ensures out_after { out.new ≡ (Spec.overlay bytes.now out.old).out }
    ensures length_after { length.new ≡ Told.length (Spec.overlay bytes.now out.old).answer length.old }
    ensures place_after { place.new ≡ Told.place (Spec.overlay bytes.now out.old).answer place.old }
{
    overlay_entry::bezorika_overlay(bytes, out, length, place)
}

#[unsafe(no_mangle)]
pub extern "C" fn bezorika_overlay_arranged(
    bytes: &[u8],
    out: &mut [u8],
    length: &mut u64,
    place: &mut u64,
) -> u64
    ensures value { result ≡ number_of (overlay_arranged bytes.now out.old).answer }
    ensures out_after { out.new ≡ (overlay_arranged bytes.now out.old).out }
    ensures length_after { length.new ≡ Told.length (overlay_arranged bytes.now out.old).answer length.old }
    ensures place_after { place.new ≡ Told.place (overlay_arranged bytes.now out.old).answer place.old }
{
    overlay_entry::bezorika_overlay_arranged(bytes, out, length, place)
}

#[unsafe(no_mangle)]
pub extern "C" fn bezorika_arrange(bytes: &mut [u8], place: &mut u64) -> u64
    ensures value { result ≡ Arranging.number_of (Arrange.arrange bytes.old).answer }
    ensures bytes_after { bytes.new ≡ (Arrange.arrange bytes.old).bytes }
    ensures place_after { place.new ≡ Told.arranged_place (Arrange.arrange bytes.old).answer place.old }
{
    overlay_entry::bezorika_arrange(bytes, place)
}
