// The checks over a lent list of record numbers: the first struck, in list order.
ghost use Rattle.std.specs.Prelude.{◌≡◌};
ghost use Rattle.events.specs.Pool.{pool};
ghost use Rattle.checks.specs.Checks.{first, told};
ghost use Rattle.checks.specs.OnPool.{reason_of, strikes, checked_for, checked_at};

use crate::Fault;
use crate::records::is_struck;
use crate::sizes::{POOL_PLACE, places, pool_refused};
use refusals::{Reason, Refusal};

// The place in the list of the first record with the fault; the list's length where none has it.
pub fn first_struck(
    points: &[[u64; 2]],
    marks: &[[u32; 12]],
    n: usize,
    fault: Fault,
    list: &[u32],
) -> usize
    ensures { result ≡ first (strikes (pool points.now marks.now) n fault) list.now }
{
    let struck = list
        .iter()
        .position(|r| is_struck(points, marks, n, fault, *r));
    struck.unwrap_or(list.len())
}

pub fn reason_of(fault: Fault) -> Reason
    ensures { result ≡ reason_of fault }
{
    match fault {
        Fault::Unfit => Reason::Coordinate,
        Fault::Mistaken => Reason::Link,
        Fault::MistakenOrRight(_, _) => Reason::Link,
    }
}

pub fn place_of(r: u32) -> u64
    ensures { result ≡ r }
{
    r as u64
}

// Refused at the first record with the fault.
pub fn check_fault(
    points: &[[u64; 2]],
    marks: &[[u32; 12]],
    n: usize,
    fault: Fault,
    list: &[u32],
) -> Result<(), Refusal>
    ensures { result ≡ told (reason_of fault) (strikes (pool points.now marks.now) n fault) list.now }
{
    let at = first_struck(points, marks, n, fault, list);
    if at < list.len() {
        return Err(Refusal {
            reason: reason_of(fault),
            place: place_of(list[at]),
        });
    }
    Ok(())
}

// Refusal 1, then 2 and the fault, each over all records of the list before the next.
pub fn check_for(
    points: &[[u64; 2]],
    marks: &[[u32; 12]],
    fault: Fault,
    list: &[u32],
) -> Result<(), Refusal>
    ensures { result ≡ checked_for (pool points.now marks.now) fault list.now }
{
    if pool_refused(points, marks) {
        return Err(Refusal {
            reason: Reason::Size,
            place: POOL_PLACE,
        });
    }
    let n = places(points, marks);
    check_fault(points, marks, n, Fault::Unfit, list)?;
    check_fault(points, marks, n, fault, list)
}

// Refusals 1, 2 and 4.
pub fn check_records(points: &[[u64; 2]], marks: &[[u32; 12]], list: &[u32]) -> Result<(), Refusal>
    ensures { result ≡ checked_at (pool points.now marks.now) list.now }
{
    check_for(points, marks, Fault::Mistaken, list)
}
