// What can be wrong with a listed record, where `seen` tells how often each is listed.
ghost use Rattle.std.specs.Prelude.{◌≡◌};
ghost use Rattle.events.specs.Pool.{pool};
ghost use Rattle.acceptance.specs.Flaws.{misplaced_seen, half_seen, flawed, reason_of};

use crate::seen::seen_at;
use checks::records::is_mistaken;
use checks::sizes::places;
use events::pool::read_event;
use refusals::Reason;
use results::in_result;

#[derive(Clone, Copy)]
pub enum Flaw {
    Misplaced,
    HalfListed,
}

// The reason of the refusal.
#[tactic(auto, unfolding(crate::specs::Flaws::reason_of))]
pub fn reason_of(flaw: Flaw) -> Reason
    ensures { result ≡ reason_of flaw }
{
    match flaw {
        Flaw::Misplaced => Reason::Link,
        Flaw::HalfListed => Reason::HalfEdge,
    }
}

// Refusal 4: a mistake of the record, or it is listed twice.
#[tactic(auto, unfolding(crate::specs::Flaws::misplaced_seen))]
fn is_misplaced(points: &[[u64; 2]], marks: &[[u32; 12]], seen: &[u32], r: u32) -> bool
    ensures { result ≡ misplaced_seen (pool points.now marks.now) seen.now r }
{
    let n = places(points, marks);
    if is_mistaken(points, marks, n, r) {
        return true;
    }
    seen_at(seen, r) > 1
}

// Refusal 8: in the result, and its other end is not listed.
#[tactic(auto, unfolding(crate::specs::Flaws::half_seen))]
fn is_half_listed(points: &[[u64; 2]], marks: &[[u32; 12]], seen: &[u32], r: u32) -> bool
    ensures { result ≡ half_seen (pool points.now marks.now) seen.now r }
{
    if in_result(points, marks, r) {
        let e = read_event(points, marks, r);
        return seen_at(seen, e.partner) == 0;
    }
    false
}

#[tactic(auto, unfolding(crate::specs::Flaws::flawed))]
pub fn is_flawed(points: &[[u64; 2]], marks: &[[u32; 12]], seen: &[u32], flaw: Flaw, r: u32) -> bool
    ensures { result ≡ flawed (pool points.now marks.now) seen.now flaw r }
{
    match flaw {
        Flaw::Misplaced => is_misplaced(points, marks, seen, r),
        Flaw::HalfListed => is_half_listed(points, marks, seen, r),
    }
}
