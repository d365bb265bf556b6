// Connection of a list that has passed the checks, by way of its table.
ghost use Rattle.std.specs.Prelude.{◌≡◌, ◌≤◌, length};
ghost use Rattle.events.specs.Pool.{pool};
ghost use Rattle.checks.specs.Checks.{max_events};
ghost use Rattle.rows.specs.Rows as R;
ghost use Rattle.tracing.specs.Tracing.{traced_on};
ghost use Rattle.connection.specs.Connection.{lent, left};
ghost use Rattle.connection.specs.Steps.{Small, Spacious, laid_down, connect_accepted};

use crate::Connected;
use crate::answer::answer_of;
use checks::sizes::{FEW, MAX_EVENTS};
use numbering::settle;
use tabulation::tabulate;
use tracing::trace;

// The table stands: `order` and `places` tell records by positions and positions by records.
#[tactic(auto, unfolding(crate::specs::Steps::laid_down))]
fn connect_table(
    points: &[[u64; 2]],
    marks: &mut [[u32; 12]],
    order: &[u32],
    places: &[u32],
    rows: &[[u32; 4]],
    at: &[[u64; 2]],
    walked: &mut [u32],
    corners: &mut [[u64; 2]],
    contours: &mut [[u32; 6]],
    holes: &mut [u32],
) -> Connected
    ensures { left result (pool points.now marks.new) (lent corners.new contours.new holes.new) ≡ laid_down order.now places.now (pool points.now marks.old) (traced_on (R.lent rows.now at.now) walked.old corners.old contours.old holes.old) }
{
    let traced = trace(rows, at, walked, corners, contours, holes);
    settle(points, marks, places, walked);
    answer_of(order, traced)
}

// The table is laid in the first places of the lent arrays.
fn connect_in(
    points: &[[u64; 2]],
    marks: &mut [[u32; 12]],
    list: &[u32],
    corners: &mut [[u64; 2]],
    contours: &mut [[u32; 6]],
    holes: &mut [u32],
    order: &mut [u32],
    places: &mut [u32],
    rows: &mut [[u32; 4]],
    at: &mut [[u64; 2]],
    walked: &mut [u32],
) -> Connected
    requires { Small (pool points.now marks.old) list.now × Spacious (pool points.now marks.old) list.now order.old places.old (R.lent rows.old at.old) walked.old }
    ensures { left result (pool points.now marks.new) (lent corners.new contours.new holes.new) ≡ connect_accepted (pool points.now marks.old) list.now (lent corners.old contours.old holes.old) }
{
    let n = tabulate(points, marks, list, order, places, rows, at);
    connect_table(
        points,
        marks,
        &order[..n],
        places,
        &rows[..n],
        &at[..n],
        &mut walked[..n],
        corners,
        contours,
        holes,
    )
}

// With places for LIST entries and a pool of POOL records.
fn connect_sized<const LIST: usize, const POOL: usize>(
    points: &[[u64; 2]],
    marks: &mut [[u32; 12]],
    list: &[u32],
    corners: &mut [[u64; 2]],
    contours: &mut [[u32; 6]],
    holes: &mut [u32],
) -> Connected
    requires limits { (LIST ≤ max_events) × (POOL ≤ max_events) }
    requires enough { (length list.now ≤ LIST) × (length points.now ≤ POOL) }
    ensures { left result (pool points.now marks.new) (lent corners.new contours.new holes.new) ≡ connect_accepted (pool points.now marks.old) list.now (lent corners.old contours.old holes.old) }
{
    let mut order = [0u32; LIST];
    let mut places = [0u32; POOL];
    let mut rows = [[0u32; 4]; LIST];
    let mut at = [[0; 2]; LIST];
    let mut walked = [0u32; LIST];
    connect_in(
        points,
        marks,
        list,
        corners,
        contours,
        holes,
        &mut order,
        &mut places,
        &mut rows,
        &mut at,
        &mut walked,
    )
}

// Short lists are most, in small pools above all, and to clear places for any takes longer than to connect them.
pub fn connect_accepted(
    points: &[[u64; 2]],
    marks: &mut [[u32; 12]],
    list: &[u32],
    corners: &mut [[u64; 2]],
    contours: &mut [[u32; 6]],
    holes: &mut [u32],
) -> Connected
    requires { Small (pool points.now marks.old) list.now }
    ensures { left result (pool points.now marks.new) (lent corners.new contours.new holes.new) ≡ connect_accepted (pool points.now marks.old) list.now (lent corners.old contours.old holes.old) }
{
    if list.len() <= FEW {
        if points.len() <= FEW {
            return connect_sized::<FEW, FEW>(points, marks, list, corners, contours, holes);
        }
        return connect_sized::<FEW, MAX_EVENTS>(points, marks, list, corners, contours, holes);
    }
    connect_sized::<MAX_EVENTS, MAX_EVENTS>(points, marks, list, corners, contours, holes)
}
