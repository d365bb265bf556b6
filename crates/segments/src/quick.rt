// Segment order by plain comparisons, where the boxes of two segments are certain of it. A test that passes tells of the exact signs and of the crossing;
// one that fails tells nothing.
ghost use Rattle.std.specs.Prelude.{◌≡◌};
ghost use Rattle.events.specs.Binary64.{at_binary64};
ghost use Rattle.order.specs.Keys.{shown_key};
ghost use Rattle.segments.specs.Quick.{beside};

use events::points::less_x;
use order::Key;

// In x the newer one starts between the older one's ends or at one of them, and the older one is not vertical.
pub fn is_beside(old: Key, new: Key) -> bool
    ensures { result ≡ beside at_binary64 (shown_key old) (shown_key new) }
{
    if less_x(new.point, old.point) {
        return false;
    }
    if less_x(old.mate, new.point) {
        return false;
    }
    less_x(old.point, old.mate)
}
