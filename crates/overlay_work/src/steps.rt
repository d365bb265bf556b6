// The steps after reading, from the last to the first. Each hands on what refuses it.
ghost use Rattle.std.specs.Prelude.{◌≡◌, ◌≤◌};
ghost use Rattle.crossing.specs.Modes.{ordered};
ghost use Rattle.events.specs.Pool.{pool};
ghost use Rattle.loading.specs.OnPool as Loads;
ghost use Rattle.sweep.specs.OnPool.{subdivide_pool};
ghost use Rattle.connection.specs.Connection.{lent, connect_edges};
ghost use Rattle.printing.specs.Arrays.{printed_arrays};
ghost use Rattle.overlay_work.specs.Overlay.{Work, left, put, pool_places, contour_places, empty_outlines, after_connection, overlay_taken, after_sweep, after_loading};

use crate::POOL;
use checks::sizes::FEW;
use class::Operation;
use connection::connect_edges;
use crossing::ORDERED;
use loading::load;
use printing::print_contours;
use refusals::{Reason, Refusal};
use sweep::subdivide;

// A result edge has two ends in the pool.
const CONTOURS: usize = 512;

const FEW_CONTOURS: usize = 128;

// Counted before it is printed, so that bytes too few stay as lent.
fn print_text(
    corners: &[[u64; 2]],
    contours: &[[u32; 6]],
    holes: &[u32],
    count: u32,
    out: &mut [u8],
) -> Result<usize, Refusal>
    ensures { left result out.new ≡ put (Work.Text (printed_arrays corners.now contours.now holes.now count)) out.old }
{
    let mut none = [0u8; 0];
    let wanted = print_contours(corners, contours, holes, count, &mut none);
    if out.len() < wanted {
        return Err(Refusal {
            reason: Reason::Room,
            place: wanted as u64,
        });
    }
    print_contours(corners, contours, holes, count, out);
    Ok(wanted)
}

fn connect_in(
    points: &[[u64; 2]],
    marks: &mut [[u32; 12]],
    list: &[u32],
    corners: &mut [[u64; 2]],
    contours: &mut [[u32; 6]],
    holes: &mut [u32],
    out: &mut [u8],
) -> Result<usize, Refusal>
    ensures { left result out.new ≡ put (after_connection (connect_edges (pool points.now marks.old) list.now (lent corners.old contours.old holes.old))) out.old }
{
    let connected = connect_edges(points, marks, list, corners, contours, holes);
    let outcome = connected.outcome;
    match outcome {
        Err(refusal) => Err(refusal),
        Ok(()) => { print_text(corners, contours, holes, connected.contours, out) }
    }
}

// With places for so many corners and outlines.
#[tactic(auto, unfolding(crate::specs::Overlay::no_points, crate::specs::Overlay::no_contours, crate::specs::Overlay::no_holes))]
fn connect_with<const CORNERS: usize, const OUTLINES: usize>(
    points: &[[u64; 2]],
    marks: &mut [[u32; 12]],
    list: &[u32],
    out: &mut [u8],
) -> Result<usize, Refusal>
    requires { (CORNERS ≤ pool_places) × (OUTLINES ≤ contour_places) }
    ensures { left result out.new ≡ put (after_connection (connect_edges (pool points.now marks.old) list.now (empty_outlines CORNERS OUTLINES))) out.old }
{
    let mut corners = [[0; 2]; CORNERS];
    let mut contours = [[0u32; 6]; OUTLINES];
    let mut holes = [0u32; OUTLINES];
    connect_in(
        points,
        marks,
        list,
        &mut corners,
        &mut contours,
        &mut holes,
        out,
    )
}

// Few events have room enough in the smaller arrays.
fn connect_taken(
    points: &[[u64; 2]],
    marks: &mut [[u32; 12]],
    list: &[u32],
    out: &mut [u8],
) -> Result<usize, Refusal>
    ensures { left result out.new ≡ put (overlay_taken (pool points.now marks.old) list.now) out.old }
{
    if list.len() > FEW {
        return connect_with::<POOL, CONTOURS>(points, marks, list, out);
    }
    connect_with::<FEW, FEW_CONTOURS>(points, marks, list, out)
}

fn sweep_loaded(
    operation: Operation,
    loaded: u32,
    points: &mut [[u64; 2]],
    marks: &mut [[u32; 12]],
    taken: &mut [u32],
    out: &mut [u8],
) -> Result<usize, Refusal>
    ensures { left result out.new ≡ put (after_sweep (subdivide_pool operation ordered (pool points.old marks.old) loaded taken.old)) out.old }
{
    let swept = subdivide(points, marks, loaded, operation, ORDERED, taken);
    let outcome = swept.outcome;
    match outcome {
        Err(refusal) => Err(refusal),
        Ok(()) => {
            let n = swept.taken as usize;
            let used = swept.used as usize;
            connect_taken(&points[..used], &mut marks[..used], &taken[..n], out)
        }
    }
}

pub fn load_edges(
    operation: Operation,
    ends: &[[u64; 4]],
    labels: &[[u32; 2]],
    points: &mut [[u64; 2]],
    marks: &mut [[u32; 12]],
    taken: &mut [u32],
    out: &mut [u8],
) -> Result<usize, Refusal>
    ensures { left result out.new ≡ put (after_loading operation taken.old (Loads.load ends.now labels.now (pool points.old marks.old))) out.old }
{
    match load(ends, labels, points, marks) {
        Err(refusal) => Err(refusal),
        Ok(used) => sweep_loaded(operation, used, points, marks, taken, out),
    }
}
