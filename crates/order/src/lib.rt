// Event order (`sweep_event.rs`).
#![tactic(auto)]

ghost use Rattle.std.specs.Prelude.{◌≡◌};
ghost use Rattle.events.specs.Binary64.{at_binary64};
ghost use Rattle.events.specs.Event.{shown, key};
ghost use Rattle.events.specs.Pool.{pool, stored};
ghost use Rattle.order.specs.Order as Order;
ghost use Rattle.order.specs.Order.{by_turn, by_layer, before_there, is_zero, tied};
ghost use Rattle.order.specs.Keys.{shown_key, key_at, key_used};

use events::Event;
use events::points::{less_x, less_y, same_point, turn};
use events::pool::{read_event, read_used};
use numbers::Point;
use orientation::Sign;

// What the orders see of a record and its partner. The points come first: so a point is copied as a whole.
#[derive(Clone, Copy)]
pub struct Key {
    pub point: Point,
    pub mate: Point,
    pub left: bool,
    pub subject: bool,
    pub ring: u32,
}

// Of two ends alike at one point: the lower direction first, then subject before clip.
fn before_by_direction(a: Key, b: Key) -> bool
    ensures { result ≡ by_turn a.left (at_binary64.turn a.point a.mate b.mate) (by_layer a.subject b.subject) }
{
    match turn(a.point, a.mate, b.mate) {
        Sign::Negative => !a.left,
        Sign::Zero => a.subject || !b.subject,
        Sign::Positive => a.left,
    }
}

// Whether a comes before b, where both stand at one point.
pub fn before_there(a: Key, b: Key) -> bool
    ensures { result ≡ before_there at_binary64 (shown_key a) (shown_key b) }
{
    if a.left != b.left {
        return b.left;
    }
    before_by_direction(a, b)
}

// Whether a comes before b; both ways for a tie.
pub fn before(a: Key, b: Key) -> bool
    ensures { result ≡ Order.before at_binary64 (shown_key a) (shown_key b) }
{
    if less_x(a.point, b.point) {
        return true;
    }
    if less_x(b.point, a.point) {
        return false;
    }
    if less_y(a.point, b.point) {
        return true;
    }
    if less_y(b.point, a.point) {
        return false;
    }
    before_there(a, b)
}

#[tactic(auto, unfolding(crate::specs::Order::is_zero))]
pub fn is_zero(sign: Sign) -> bool
    ensures { result ≡ is_zero sign }
{
    sign == Sign::Zero
}

// Whether each comes before the other, by one turn.
pub fn are_tied(a: Key, b: Key) -> bool
    ensures { result ≡ tied at_binary64 (shown_key a) (shown_key b) }
{
    if same_point(a.point, b.point) {
        if a.left == b.left {
            if a.subject == b.subject {
                return is_zero(turn(a.point, a.mate, b.mate));
            }
        }
    }
    false
}

// The key of a record and its partner's point.
pub fn key_of(e: Event, mate: Point) -> Key
    ensures { shown_key result ≡ key (shown e) mate }
{
    let point = e.point;
    Key {
        point: point,
        left: e.left,
        subject: e.subject,
        ring: e.ring,
        mate: mate,
    }
}

// The key of record i of a pool.
pub fn key_at(points: &[[u64; 2]], marks: &[[u32; 12]], i: u32) -> Key
    ensures { shown_key result ≡ key_at (pool points.now marks.now) i }
{
    let e = read_event(points, marks, i);
    let partner = read_event(points, marks, e.partner);
    key_of(e, partner.point)
}

// The same where only the first places are in use.
pub fn key_used(points: &[[u64; 2]], marks: &[[u32; 12]], used: u32, i: u32) -> Key
    ensures { shown_key result ≡ key_used stored (pool points.now marks.now) used i }
{
    let e = read_used(points, marks, used, i);
    let partner = read_used(points, marks, used, e.partner);
    key_of(e, partner.point)
}

// Whether record a of a pool comes before record b.
pub fn before_at(points: &[[u64; 2]], marks: &[[u32; 12]], a: u32, b: u32) -> bool
    ensures { result ≡ Order.before at_binary64 (key_at (pool points.now marks.now) a) (key_at (pool points.now marks.now) b) }
{
    before(key_at(points, marks, a), key_at(points, marks, b))
}
