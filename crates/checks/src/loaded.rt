// The checks over the first n records of a pool, in the order of their numbers: the lowest is told.
ghost use Rattle.std.specs.Prelude.{◌≡◌};
ghost use Rattle.events.specs.Pool.{pool};
ghost use Rattle.checks.specs.Checks.{first, told};
ghost use Rattle.checks.specs.Numbers.{numbers_from};
ghost use Rattle.checks.specs.OnPool.{reason_of, strikes};

use crate::Fault;
use crate::list::{place_of, reason_of};
use crate::records::is_struck;
use refusals::Refusal;

// The lowest record with the fault; n where none has it.
pub fn lowest_struck(points: &[[u64; 2]], marks: &[[u32; 12]], n: u32, fault: Fault) -> u32
    ensures { result ≡ first (strikes (pool points.now marks.now) n fault) (numbers_from 0 n) }
{
    let places = n as usize;
    let struck = (0..n).find(|r| is_struck(points, marks, places, fault, *r));
    struck.unwrap_or(n)
}

// Refused at the lowest record with the fault.
pub fn check_lowest(
    points: &[[u64; 2]],
    marks: &[[u32; 12]],
    n: u32,
    fault: Fault,
) -> Result<(), Refusal>
    ensures { result ≡ told (reason_of fault) (strikes (pool points.now marks.now) n fault) (numbers_from 0 n) }
{
    let r = lowest_struck(points, marks, n, fault);
    if r < n {
        return Err(Refusal {
            reason: reason_of(fault),
            place: place_of(r),
        });
    }
    Ok(())
}
