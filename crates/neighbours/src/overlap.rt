// An overlap of two layers.
ghost use Rattle.std.specs.Prelude.{◌≡◌};
ghost use Rattle.events.specs.Binary64.{at_binary64};
ghost use Rattle.events.specs.Event.{shown};
ghost use Rattle.events.specs.Pool.{pool, stored};
ghost use Rattle.events.specs.Store.{look};
ghost use Rattle.neighbours.specs.Step.{step};
ghost use Rattle.neighbours.specs.Neighbours as Spec;
ghost use Rattle.neighbours.specs.Neighbours.{right_of, typed};

use crate::step::{Step, cut, cut_on, cut_unless, twice};
use events::pool::{read_used, store_event};
use events::{EdgeType, Event};
use numbers::Point;

// The left end's point of the segment of record r.
pub fn left_point(points: &[[u64; 2]], marks: &[[u32; 12]], used: u32, r: u32) -> Point
    ensures { result ≡ (look stored (pool points.now marks.now) used r).point }
{
    let e = read_used(points, marks, used, r);
    e.point
}

// The right end's point.
pub fn right_point(points: &[[u64; 2]], marks: &[[u32; 12]], used: u32, r: u32) -> Point
    ensures { result ≡ (right_of at_binary64 stored (pool points.now marks.now) used r).point }
{
    let e = read_used(points, marks, used, r);
    let f = read_used(points, marks, used, e.partner);
    f.point
}

fn with_type(e: Event, t: EdgeType) -> Event
    ensures { shown result ≡ typed (shown e) t }
{
    let point = e.point;
    let below = e.below;
    let transition = e.transition;
    let contour = e.contour;
    Event {
        point: point,
        left: e.left,
        subject: e.subject,
        ring: e.ring,
        partner: e.partner,
        below: below,
        edge_type: t,
        transition: transition,
        in_out: e.in_out,
        other_in_out: e.other_in_out,
        contour: contour,
    }
}

// How the layers change across two coinciding edges.
fn type_by(first: Event, second: Event) -> EdgeType
    ensures { result ≡ Spec.type_by (shown first) (shown second) }
{
    if first.in_out == second.in_out {
        return EdgeType::SameTransition;
    }
    EdgeType::DifferentTransition
}

// Of two segments with one left end the second does not count, and the first tells how the layers change across both.
fn coincide(points: &mut [[u64; 2]], marks: &mut [[u32; 12]], used: u32, a: u32, b: u32)
    ensures { pool points.new marks.new ≡ Spec.coincided at_binary64 stored (pool points.old marks.old) used a b }
{
    let first = read_used(points, marks, used, a);
    let second = read_used(points, marks, used, b);
    let told = type_by(first, second);
    store_event(
        points,
        marks,
        b,
        with_type(second, EdgeType::NonContributing),
    );
    store_event(points, marks, a, with_type(first, told));
}

// One left end: h ends first, and k, where it ends later, is cut there.
pub fn left_shared(
    points: &mut [[u64; 2]],
    marks: &mut [[u32; 12]],
    used: u32,
    a: u32,
    b: u32,
    one_right: bool,
    h: u32,
    k: u32,
) -> Step
    ensures { step (pool points.new marks.new) result.used result.stop ≡ Spec.left_shared at_binary64 stored (pool points.old marks.old) used a b one_right h k }
{
    let end = right_point(points, marks, used, h);
    coincide(points, marks, used, a, b);
    cut_unless(points, marks, used, one_right, k, end)
}

// i begins first, h ends first: i is cut where j begins, and then what lies over the end of h.
pub fn lay(
    points: &mut [[u64; 2]],
    marks: &mut [[u32; 12]],
    used: u32,
    one_right: bool,
    i: u32,
    j: u32,
    h: u32,
    k: u32,
) -> Step
    ensures { step (pool points.new marks.new) result.used result.stop ≡ Spec.laid at_binary64 stored (pool points.old marks.old) used one_right i j h k }
{
    let start = left_point(points, marks, used, j);
    if one_right {
        return cut(points, marks, used, i, start);
    }
    let end = right_point(points, marks, used, h);
    if i == k {
        return cut_on(points, marks, used, i, start, end);
    }
    twice(points, marks, used, i, start, j, end)
}
