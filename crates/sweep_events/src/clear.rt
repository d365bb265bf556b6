// Members that lie clear below a new segment, by plain comparisons. A test that passes tells how the two compare; one that fails tells nothing.
ghost use Rattle.std.specs.Prelude.{◌≡◌, true, ◌<◌, ◌≤◌, length};
ghost use Rattle.events.specs.Binary64.{at_binary64};
ghost use Rattle.events.specs.Pool.{pool};
ghost use Rattle.order.specs.Keys.{shown_key};
ghost use Rattle.sweep_events.specs.Clear.{lower_of, BoundsOf, point_at, mate_at, Ready, Above, Passed, AllPassed};

use events::points::{Run, at_most_x, has_x, has_y, higher_x, less_y, lower_y};
use numbers::Point;
use order::Key;

// The lower of a segment's two ends.
#[tactic(auto, unfolding(crate::specs::Clear::lower_of))]
fn lower_of(p: Point, q: Point) -> Point
    ensures { result ≡ lower_of at_binary64 p q }
{
    if less_y(p, q) { p } else { q }
}

// How many records can be read with no further question.
pub fn ready_of(points: &[[u64; 2]], marks: &[[u32; 12]], used: u32) -> usize
    ensures { Ready (pool points.now marks.now) used result }
{
    (used as usize).min(points.len()).min(marks.len())
}

// What a member's words are held to, once for all members: both y, its start's x, its end's x.
#[derive(Clone, Copy)]
pub struct Bounds {
    pub lower: Run,
    pub reached: Run,
    pub beyond: Run,
}

pub fn bounds_of(key: Key) -> Bounds
    ensures { BoundsOf (shown_key key) result }
{
    let low = lower_of(key.point, key.mate);
    Bounds {
        lower: lower_y(low),
        reached: at_most_x(key.point),
        beyond: higher_x(key.point),
    }
}

// The member starts no later than the new segment and ends behind its start, all below it. No branches: most members pass.
fn is_clear(bounds: Bounds, point: Point, mate: Point) -> bool
    ensures { result ≡ true → Above bounds point mate }
{
    (has_y(bounds.lower, point) & has_y(bounds.lower, mate))
        & (has_x(bounds.reached, point) & has_x(bounds.beyond, mate))
}

// The same of two members at once, from a to b and from c to d.
fn are_clear(bounds: Bounds, a: Point, b: Point, c: Point, d: Point) -> bool
    ensures { result ≡ true → Above bounds a b × Above bounds c d }
{
    is_clear(bounds, a, b) & is_clear(bounds, c, d)
}

fn point_at(points: &[[u64; 2]], at: usize) -> Point
    requires { at < length points.now }
    ensures { result ≡ point_at points.now at }
{
    let p = points[at];
    Point { x: p[0], y: p[1] }
}

fn mate_at(marks: &[[u32; 12]], at: usize) -> usize
    requires { at < length marks.now }
    ensures { result ≡ mate_at marks.now at }
{
    marks[at][3] as usize
}

// Member x, of which the two points are read and no more.
fn lies_clear(
    points: &[[u64; 2]],
    marks: &[[u32; 12]],
    used: u32,
    ready: usize,
    bounds: Bounds,
    x: u32,
) -> bool
    requires { Ready (pool points.now marks.now) used ready }
    ensures { result ≡ true → Passed (pool points.now marks.now) used bounds x }
{
    let at = x as usize;
    if at < ready {
        let mate = mate_at(marks, at);
        if mate < ready {
            return is_clear(bounds, point_at(points, at), point_at(points, mate));
        }
    }
    false
}

// Members x and y.
fn both_lie_clear(
    points: &[[u64; 2]],
    marks: &[[u32; 12]],
    used: u32,
    ready: usize,
    bounds: Bounds,
    x: u32,
    y: u32,
) -> bool
    requires { Ready (pool points.now marks.now) used ready }
    ensures { result ≡ true → Passed (pool points.now marks.now) used bounds x × Passed (pool points.now marks.now) used bounds y }
{
    let i = x as usize;
    let j = y as usize;
    if i < ready && j < ready {
        let m = mate_at(marks, i);
        let n = mate_at(marks, j);
        if m < ready && n < ready {
            return are_clear(
                bounds,
                point_at(points, i),
                point_at(points, m),
                point_at(points, j),
                point_at(points, n),
            );
        }
    }
    false
}

// Two places at a time, up to a pair that may not lie clear or to the last place.
fn after_pairs(
    points: &[[u64; 2]],
    marks: &[[u32; 12]],
    used: u32,
    ready: usize,
    bounds: Bounds,
    status: &[u32],
    end: usize,
    from: usize,
) -> usize
    requires ready { Ready (pool points.now marks.now) used ready }
    requires from_le_end { (from ≤ end) × (end ≤ length status.now) }
    ensures lower_bound { (from ≤ result) × (result ≤ end) }
    ensures all_passed { AllPassed (pool points.now marks.now) used bounds status.now from result }
{
    let (pairs, rest) = status[from..end].as_chunks::<2>();
    for (k, pair) in pairs.iter().enumerate() {
        if !both_lie_clear(points, marks, used, ready, bounds, pair[0], pair[1]) {
            return from + 2 * k;
        }
    }
    end - rest.len()
}

// The first place from here on whose member may not lie clear; the end where there is none.
pub fn after_clear(
    points: &[[u64; 2]],
    marks: &[[u32; 12]],
    used: u32,
    ready: usize,
    bounds: Bounds,
    status: &[u32],
    end: usize,
    from: usize,
) -> usize
    requires ready { Ready (pool points.now marks.now) used ready }
    requires from_le_end { (from ≤ end) × (end ≤ length status.now) }
    ensures lower_bound { (from ≤ result) × (result ≤ end) }
    ensures all_passed { AllPassed (pool points.now marks.now) used bounds status.now from result }
{
    let start = after_pairs(points, marks, used, ready, bounds, status, end, from);
    for i in start..end {
        if !lies_clear(points, marks, used, ready, bounds, status[i]) {
            return i;
        }
    }
    end
}
