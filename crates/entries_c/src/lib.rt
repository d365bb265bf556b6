// What C and Rust link of `entries`: its calls under their C names, with the same promises. include/bezorika.h says the same in plain words.
#![tactic(auto)]

ghost use Rattle.std.specs.Prelude.{◌≡◌};
ghost use Rattle.orientation.specs.Orientation as Orientation;
ghost use Rattle.crossing.specs.Crossing.{crossing_in};
ghost use Rattle.crossing.specs.Modes.{plain, ordered};
ghost use Rattle.entries.specs.ToldTurn as ToldTurn;
ghost use Rattle.entries.specs.ToldCrossing as ToldCrossing;

#[unsafe(no_mangle)]
pub extern "C" fn bezorika_orientation(
    ax: f64,
    ay: f64,
    bx: f64,
    by: f64,
    cx: f64,
    cy: f64,
    sign: &mut i64,
    place: &mut u64,
) -> u64
    ensures value { result ≡ ToldTurn.refusal (Orientation.orientation_of ax ay bx by cx cy) }
    ensures sign_after { sign.new ≡ ToldTurn.sign (Orientation.orientation_of ax ay bx by cx cy) sign.old }
    ensures place_after { place.new ≡ ToldTurn.place (Orientation.orientation_of ax ay bx by cx cy) place.old }
{
    entries::bezorika_orientation(ax, ay, bx, by, cx, cy, sign, place)
}

#[unsafe(no_mangle)]
pub extern "C" fn bezorika_crossing(
    ax: f64,
    ay: f64,
    bx: f64,
    by: f64,
    cx: f64,
    cy: f64,
    dx: f64,
    dy: f64,
    kind: &mut u64,
    corners: &mut [u64; 4],
    place: &mut u64,
) -> u64
    ensures value { result ≡ ToldCrossing.refusal (crossing_in plain ax ay bx by cx cy dx dy) }
    ensures kind_after { kind.new ≡ ToldCrossing.kind (crossing_in plain ax ay bx by cx cy dx dy) kind.old }
    ensures corners_after { corners.new ≡ ToldCrossing.corners (crossing_in plain ax ay bx by cx cy dx dy) corners.old }
    ensures place_after { place.new ≡ ToldCrossing.place (crossing_in plain ax ay bx by cx cy dx dy) place.old }
{
    entries::bezorika_crossing(ax, ay, bx, by, cx, cy, dx, dy, kind, corners, place)
}

#[unsafe(no_mangle)]
pub extern "C" fn bezorika_crossing_ordered(
    ax: f64,
    ay: f64,
    bx: f64,
    by: f64,
    cx: f64,
    cy: f64,
    dx: f64,
    dy: f64,
    kind: &mut u64,
    corners: &mut [u64; 4],
    place: &mut u64,
) -> u64
    ensures value { result ≡ ToldCrossing.refusal (crossing_in ordered ax ay bx by cx cy dx dy) }
    ensures kind_after { kind.new ≡ ToldCrossing.kind (crossing_in ordered ax ay bx by cx cy dx dy) kind.old }
    ensures corners_after { corners.new ≡ ToldCrossing.corners (crossing_in ordered ax ay bx by cx cy dx dy) corners.old }
    ensures place_after { place.new ≡ ToldCrossing.place (crossing_in ordered ax ay bx by cx cy dx dy) place.old }
{
    entries::bezorika_crossing_ordered(ax, ay, bx, by, cx, cy, dx, dy, kind, corners, place)
}
