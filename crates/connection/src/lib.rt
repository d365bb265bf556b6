// Connection (`connect_edges.rs`) as a call: the checks, the table, the contours, their holes, and contour numbers in the pool.
#![tactic(auto)]

ghost use Rattle.std.specs.Prelude.{◌≡◌, [], Err};
ghost use Rattle.events.specs.Pool.{pool};
ghost use Rattle.connection.specs.Connection.{lent, told, left, connect_edges};

use acceptance::accept;
use refusals::Refusal;
use work::connect_accepted;

mod answer;
mod work;

// What was connected, to the end or until it was refused.
#[derive(Clone, Copy)]
pub struct Connected {
    pub contours: u32,
    // The corners of all contours, and their holes.
    pub corners: u32,
    pub holes: u32,
    // The contours whose first and last corners differ.
    pub open: u32,
    pub outcome: Result<(), Refusal>,
}

fn none_connected(refusal: Refusal) -> Connected
    ensures { result ≡ told [] (Err refusal) }
{
    Connected {
        contours: 0,
        corners: 0,
        holes: 0,
        open: 0,
        outcome: Err(refusal),
    }
}

// The contours of the listed records of a pool, and their numbers in it.
pub fn connect_edges(
    points: &[[u64; 2]],
    marks: &mut [[u32; 12]],
    list: &[u32],
    corners: &mut [[u64; 2]],
    contours: &mut [[u32; 6]],
    holes: &mut [u32],
) -> Connected
    ensures { left result (pool points.now marks.new) (lent corners.new contours.new holes.new) ≡ connect_edges (pool points.now marks.old) list.now (lent corners.old contours.old holes.old) }
{
    match accept(
        points,
        marks,
        list,
        corners.len(),
        contours.len(),
        holes.len(),
    ) {
        Ok(()) => connect_accepted(points, marks, list, corners, contours, holes),
        Err(refusal) => none_connected(refusal),
    }
}
