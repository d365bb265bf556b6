// The ends of a divided segment.
ghost use Rattle.std.specs.Prelude.{◌≡◌, true, cond};
ghost use Rattle.events.specs.Binary64.{at_binary64};
ghost use Rattle.events.specs.Event.{shown};
ghost use Rattle.division.specs.Struct as Struct;
ghost use Rattle.division.specs.Division as Spec;
ghost use Rattle.division.specs.Division.{new_end};

use events::{Event, fresh_event};
use numbers::Point;
use order::{before, key_of};

// A new end of the edge of e.
pub fn new_end(e: Event, point: Point, left: bool, partner: u32) -> Event
    ensures { shown result ≡ new_end (shown e) point left partner }
{
    fresh_event(point, left, e.subject, e.ring, partner)
}

// The end that is lent gets its new partner, and its flag; nothing else of it moves.
fn set_partner(e: &mut Event, partner: u32, left: bool)
    ensures { e.new ≡ Struct.relinked e.old partner left }
{
    e.partner = partner;
    e.left = left;
}

// An end with another partner and another flag.
pub fn relinked(e: Event, partner: u32, left: bool) -> Event
    ensures { result ≡ Struct.relinked e partner left }
{
    let mut r = e;
    set_partner(&mut r, partner, left);
    r
}

// The old right end's flag.
pub fn flag_after(left: bool, keep: bool) -> bool
    ensures { result ≡ cond keep left true }
{
    if keep {
        return left;
    }
    true
}

// The new left end comes before the old right end f: otherwise their flags change places.
pub fn keeps(e: Event, f: Event, c: Point) -> bool
    ensures { result ≡ Spec.keeps at_binary64 (shown e) (shown f) c }
{
    let left = key_of(new_end(e, c, true, e.partner), f.point);
    before(left, key_of(f, e.point))
}
