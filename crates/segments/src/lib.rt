// Segment order (`compare_segments.rs`): which of two segments of the status lies below.
#![tactic(auto)]

mod quick;

ghost use Rattle.std.specs.Prelude.{◌≡◌};
ghost use Rattle.events.specs.Binary64.{at_binary64, in_mode, shown_meeting};
ghost use Rattle.events.specs.Pool.{pool};
ghost use Rattle.order.specs.Keys.{shown_key};
ghost use Rattle.segments.specs.Segments as Segments;
ghost use Rattle.segments.specs.Segments.{is_positive, less_if, less_if_inversed, alongside, by_crossing, old_below};
ghost use Rattle.segments.specs.OnPool as OnPool;
ghost use Rattle.segments.specs.Quick.{by_boxes};

use events::points::{Meeting, crossing, is_under, less_x, less_y, same_point, same_x, turn};
use order::{Key, before, is_zero, key_at};
use orientation::Sign;
use quick::is_beside;
use std::cmp::Ordering;

fn less_if(condition: bool) -> Ordering
    ensures { result ≡ less_if condition }
{
    if condition {
        Ordering::Less
    } else {
        Ordering::Greater
    }
}

fn less_if_inversed(condition: bool) -> Ordering
    ensures { result ≡ less_if_inversed condition }
{
    if condition {
        Ordering::Greater
    } else {
        Ordering::Less
    }
}

#[tactic(auto, unfolding(crate::specs::Segments::is_positive))]
fn is_positive(sign: Sign) -> bool
    ensures { result ≡ is_positive sign }
{
    sign == Sign::Positive
}

// Of two segments on one line: subject below clip; in one layer by ring from a shared end, else the older below.
fn old_is_below_on_line(old: Key, new: Key) -> bool
    ensures { result ≡ alongside at_binary64 (shown_key old) (shown_key new) }
{
    if old.subject == new.subject {
        if same_point(old.point, new.point) {
            return old.ring < new.ring;
        }
        return true;
    }
    old.subject
}

// By the signs the segments cross: a crossing at the newer one's left end leaves it to its right end.
fn old_is_below_by_crossing(found: Meeting, old: Key, new: Key, left: bool, right: bool) -> bool
    ensures { result ≡ by_crossing at_binary64 (shown_meeting found) (shown_key old) (shown_key new) left right }
{
    match found {
        Meeting::Nothing => left,
        Meeting::At(p) => {
            if same_point(p, new.point) {
                return right;
            }
            left
        }
        Meeting::Along(_, _) => old_is_below_on_line(old, new),
        Meeting::Lost => left,
    }
}

// The ends are not all on the older one's line: where they lie decides, or the crossing does.
fn old_is_below_off_line(old: Key, new: Key, sa_l: Sign, sa_r: Sign, mode: u32) -> bool
    ensures { result ≡ Segments.apart at_binary64 (in_mode mode) (shown_key old) (shown_key new) sa_l sa_r }
{
    let left = is_positive(sa_l);
    let right = is_positive(sa_r);
    if same_point(old.point, new.point) {
        return right;
    }
    if same_x(old.point, new.point) {
        return less_y(old.point, new.point);
    }
    if left == right {
        return left;
    }
    if is_zero(sa_l) {
        return right;
    }
    let found = crossing(mode, old.point, old.mate, new.point, new.mate);
    old_is_below_by_crossing(found, old, new, left, right)
}

// Whether the older segment lies below the newer one.
fn old_is_below(old: Key, new: Key, mode: u32) -> bool
    ensures { result ≡ old_below at_binary64 (in_mode mode) (shown_key old) (shown_key new) }
{
    let sa_l = turn(old.point, old.mate, new.point);
    let sa_r = turn(old.point, old.mate, new.mate);
    if is_zero(sa_l) {
        if is_zero(sa_r) {
            return old_is_below_on_line(old, new);
        }
    }
    old_is_below_off_line(old, new, sa_l, sa_r, mode)
}

// Where b is the older one and the boxes lie apart in y, they tell how a compares to it, in every mode.
fn by_boxes(a: Key, b: Key) -> Option<Ordering>
    ensures { result ≡ by_boxes at_binary64 (shown_key a) (shown_key b) }
{
    if is_beside(b, a) {
        if is_under(b.point, b.mate, a.point, a.mate) {
            return Some(Ordering::Greater);
        }
        // at one x the lower one is the older
        if less_x(b.point, a.point) {
            if is_under(a.point, a.mate, b.point, b.mate) {
                return Some(Ordering::Less);
            }
        }
    }
    None
}

// Of two left records that are not one: the one that comes first in event order is the older.
pub fn compare_segments(a: Key, b: Key, mode: u32) -> Ordering
    ensures { result ≡ Segments.compare_segments at_binary64 (in_mode mode) (shown_key a) (shown_key b) }
{
    if let Some(ordering) = by_boxes(a, b) {
        return ordering;
    }
    if before(a, b) {
        return less_if(old_is_below(a, b, mode));
    }
    less_if_inversed(old_is_below(b, a, mode))
}

// The same of two records of a pool; a record is equal to itself.
pub fn compare_segments_at(
    points: &[[u64; 2]],
    marks: &[[u32; 12]],
    a: u32,
    b: u32,
    mode: u32,
) -> Ordering
    ensures { result ≡ OnPool.compare_at mode (pool points.now marks.now) a b }
{
    if a == b {
        return Ordering::Equal;
    }
    compare_segments(key_at(points, marks, a), key_at(points, marks, b), mode)
}
