// Refusal 5: a lent array with fewer places than wanted.
ghost use Rattle.std.specs.Prelude.{◌≡◌};
ghost use Rattle.events.specs.Pool.{pool};
ghost use Rattle.contours.specs.Accept.{roomy};
ghost use Rattle.acceptance.specs.OnPool.{room, room_refused, told_room};

use refusals::{Reason, Refusal};
use results::{count_edges, count_events};

// Told with the places wanted.
fn room_refused(wanted: usize) -> Result<(), Refusal>
    ensures { result ≡ room_refused wanted }
{
    Err(Refusal {
        reason: Reason::Room,
        place: wanted as u64,
    })
}

// A corner for each event, a contour and a hole for each edge.
fn check_places(
    events: usize,
    edges: usize,
    corners: usize,
    contours: usize,
    holes: usize,
) -> Result<(), Refusal>
    ensures { result ≡ roomy (room corners contours holes) events edges }
{
    if corners < events {
        return room_refused(events);
    }
    if contours < edges {
        return room_refused(edges);
    }
    if holes < edges {
        return room_refused(edges);
    }
    Ok(())
}

// For the result events and the result edges of a list.
pub fn check_room(
    points: &[[u64; 2]],
    marks: &[[u32; 12]],
    list: &[u32],
    corners: usize,
    contours: usize,
    holes: usize,
) -> Result<(), Refusal>
    ensures { result ≡ told_room (pool points.now marks.now) list.now corners contours holes }
{
    let events = count_events(points, marks, list);
    let edges = count_edges(points, marks, list);
    check_places(events, edges, corners, contours, holes)
}
