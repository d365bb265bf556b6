// What C and Rust link of `stages`: its calls under their C names, with the same promises. include/bezorika.h says the same in plain words.
#![tactic(auto)]

ghost use Rattle.std.specs.Prelude.{◌≡◌};
ghost use Rattle.events.specs.Pool.{pool};
ghost use Rattle.loading.specs.OnPool as Loading;
ghost use Rattle.loading.specs.Answer as LoadAnswer;
ghost use Rattle.sweep.specs.OnPool.{subdivide_pool};
ghost use Rattle.sweep.specs.Answer as SweepAnswer;
ghost use Rattle.connection.specs.Connection.{lent, connect_edges};
ghost use Rattle.connection.specs.Answer as ConnectAnswer;
ghost use Rattle.stages.specs.Told as Told;
ghost use Rattle.stages.specs.Told.{operation_of};

#[unsafe(no_mangle)]
pub extern "C" fn bezorika_load(
    ends: &[[u64; 4]],
    labels: &[[u32; 2]],
    points: &mut [[u64; 2]],
    marks: &mut [[u32; 12]],
    used: &mut u32,
    place: &mut u64,
) -> u64
    ensures value { result ≡ LoadAnswer.number_of (Loading.load ends.now labels.now (pool points.old marks.old)).answer }
    ensures marks_after { pool points.new marks.new ≡ (Loading.load ends.now labels.now (pool points.old marks.old)).pool }
    ensures used_after { used.new ≡ Told.load_used (Loading.load ends.now labels.now (pool points.old marks.old)).answer used.old }
    ensures place_after { place.new ≡ Told.load_place (Loading.load ends.now labels.now (pool points.old marks.old)).answer place.old }
{
    stages::bezorika_load(ends, labels, points, marks, used, place)
}

#[unsafe(no_mangle)]
pub extern "C" fn bezorika_subdivide(
    points: &mut [[u64; 2]],
    marks: &mut [[u32; 12]],
    loaded: u32,
    operation: u32,
    mode: u32,
    taken: &mut [u32],
    counts: &mut [u32; 4],
    place: &mut u64,
) -> u64
    ensures value { result ≡ SweepAnswer.number_of (subdivide_pool (operation_of operation) mode (pool points.old marks.old) loaded taken.old).answer.outcome }
    ensures marks_after { pool points.new marks.new ≡ (subdivide_pool (operation_of operation) mode (pool points.old marks.old) loaded taken.old).pool }
    ensures taken_after { taken.new ≡ (subdivide_pool (operation_of operation) mode (pool points.old marks.old) loaded taken.old).taken }
    ensures counts_after { counts.new ≡ Told.sweep_counts (subdivide_pool (operation_of operation) mode (pool points.old marks.old) loaded taken.old).answer counts.old }
    ensures place_after { place.new ≡ Told.sweep_place (subdivide_pool (operation_of operation) mode (pool points.old marks.old) loaded taken.old).answer.outcome place.old }
{
    stages::bezorika_subdivide(points, marks, loaded, operation, mode, taken, counts, place)
}

#[unsafe(no_mangle)]
pub extern "C" fn bezorika_connect(
    points: &[[u64; 2]],
    marks: &mut [[u32; 12]],
    list: &[u32],
    corners: &mut [[u64; 2]],
    contours: &mut [[u32; 6]],
    holes: &mut [u32],
    counts: &mut [u32; 4],
    place: &mut u64,
) -> u64
    ensures value { result ≡ ConnectAnswer.number_of (connect_edges (pool points.now marks.old) list.now (lent corners.old contours.old holes.old)).answer.outcome }
    ensures marks_after { pool points.now marks.new ≡ (connect_edges (pool points.now marks.old) list.now (lent corners.old contours.old holes.old)).pool }
    ensures holes_after { lent corners.new contours.new holes.new ≡ (connect_edges (pool points.now marks.old) list.now (lent corners.old contours.old holes.old)).outlines }
    ensures counts_after { counts.new ≡ Told.connect_counts (connect_edges (pool points.now marks.old) list.now (lent corners.old contours.old holes.old)).answer counts.old }
    ensures place_after { place.new ≡ Told.connect_place (connect_edges (pool points.now marks.old) list.now (lent corners.old contours.old holes.old)).answer.outcome place.old }
{
    stages::bezorika_connect(points, marks, list, corners, contours, holes, counts, place)
}
