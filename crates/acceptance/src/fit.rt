// Refusal 2: of the listed records and their partners, the lowest whose point is not fit.
ghost use Rattle.std.specs.Prelude.{◌≡◌};
ghost use Rattle.events.specs.Pool.{pool};
ghost use Rattle.acceptance.specs.OnPool.{told_unfit};

use crate::lowest::told_with;
use checks::records::{is_unfit_at, mate};
use checks::sizes::places;
use refusals::{Reason, Refusal};

#[tactic(auto, using(crate::proofs::Telling::backwards), unfolding(crate::specs::OnPool::told_unfit, crate::specs::Lowest::told_also, checks::specs::Checks::named))]
pub fn check_fit(points: &[[u64; 2]], marks: &[[u32; 12]], list: &[u32]) -> Result<(), Refusal>
    ensures { result ≡ told_unfit (pool points.now marks.now) list.now }
{
    let n = places(points, marks);
    let mut told = Ok(());
    for &r in list.iter().rev() {
        let other = mate(points, marks, n, r);
        if is_unfit_at(points, marks, n, other) {
            told = told_with(told, Reason::Coordinate, other);
        }
        if is_unfit_at(points, marks, n, r) {
            told = told_with(told, Reason::Coordinate, r);
        }
    }
    told
}
