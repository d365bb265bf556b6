// The lowest record of a list that has a flaw.
ghost use Rattle.std.specs.Prelude.{◌≡◌, true};
ghost use Rattle.events.specs.Pool.{pool};
ghost use Rattle.acceptance.specs.OnPool.{told_flaw};
ghost use Rattle.acceptance.specs.Lowest.{told_also};

use crate::flaws::{Flaw, is_flawed, reason_of};
use refusals::{Reason, Refusal};

// The same check with one more record that is struck.
#[tactic(auto, unfolding(crate::specs::Lowest::told_also))]
pub fn told_with(told: Result<(), Refusal>, reason: Reason, r: u32) -> Result<(), Refusal>
    ensures { result ≡ told_also told reason r true }
{
    let place = r as u64;
    match told {
        Ok(()) => Err(Refusal { reason, place }),
        Err(least) => Err(Refusal {
            reason,
            place: place.min(least.place),
        }),
    }
}

// Refused at the lowest record with the flaw.
#[tactic(auto, using(crate::proofs::Telling::backwards), unfolding(crate::specs::OnPool::told_flaw, crate::specs::Lowest::told_also))]
pub fn check_flaw(
    points: &[[u64; 2]],
    marks: &[[u32; 12]],
    seen: &[u32],
    flaw: Flaw,
    list: &[u32],
) -> Result<(), Refusal>
    ensures { result ≡ told_flaw (pool points.now marks.now) seen.now list.now flaw }
{
    let reason = reason_of(flaw);
    let mut told = Ok(());
    for &r in list.iter().rev() {
        // few records are struck: what is told is not handed on for each of them
        if is_flawed(points, marks, seen, flaw, r) {
            told = told_with(told, reason, r);
        }
    }
    told
}
