// Division (`divide_segment.rs`): the segment of a left record is cut in two.
//
//     (i)--------(used)(used + 1)--------(partner)
#![tactic(auto)]

ghost use Rattle.std.specs.Prelude.{◌≡◌, ◌+◌, ◌<◌};
ghost use Rattle.events.specs.Binary64.{at_binary64};
ghost use Rattle.events.specs.Event.{shown};
ghost use Rattle.events.specs.Pool.{pool, stored};
ghost use Rattle.division.specs.Division.{numbers, refusal, full, parted, divide};

mod cut;
mod ends;

use crate::cut::{misses, moved, moves};
use crate::ends::{flag_after, keeps, new_end, relinked};
use events::Event;
use events::pool::{enter_event, read_used, store_event};
use numbers::Point;
use refusals::{Reason, Refusal};

// Record numbers, and how many are in use, are 32 bits.
const NUMBERS: usize = 0xffff_ffff;

// What a division did.
#[derive(Clone, Copy)]
pub struct Divided {
    // The numbers of the new ends.
    pub right: u32,
    pub left: u32,
    // The cut was moved.
    pub moved: bool,
    // The flags of the new left end and the old right end changed places.
    pub swapped: bool,
}

// Told of the record to be divided.
fn refused(reason: Reason, i: u32) -> Result<Divided, Refusal>
    ensures { result ≡ refusal reason i }
{
    Err(Refusal {
        reason,
        place: i as u64,
    })
}

// Fewer than two places are free.
fn is_full(points: &[[u64; 2]], marks: &[[u32; 12]], used: u32) -> bool
    ensures { result ≡ full stored (pool points.now marks.now) used }
{
    let last = used as usize + 1;
    if points.len() <= last {
        return true;
    }
    if marks.len() <= last {
        return true;
    }
    NUMBERS <= last
}

// The four records of a divided segment, whose ends are e, at i, and f.
fn part(
    points: &mut [[u64; 2]],
    marks: &mut [[u32; 12]],
    used: u32,
    i: u32,
    e: Event,
    f: Event,
    c: Point,
    keep: bool,
)
    requires { used + 1 < numbers }
    ensures { pool points.new marks.new ≡ parted stored (pool points.old marks.old) used i (shown e) (shown f) c keep }
{
    enter_event(points, marks, used, new_end(e, c, false, i));
    enter_event(points, marks, used + 1, new_end(e, c, keep, e.partner));
    store_event(points, marks, i, relinked(e, used, e.left));
    store_event(
        points,
        marks,
        e.partner,
        relinked(f, used + 1, flag_after(f.left, keep)),
    );
}

// Divides the segment of record i at a cut, where the first `used` places are in use.
pub fn divide_segment(
    points: &mut [[u64; 2]],
    marks: &mut [[u32; 12]],
    used: u32,
    i: u32,
    cut: Point,
) -> Result<Divided, Refusal>
    ensures value { result ≡ (divide at_binary64 stored (pool points.old marks.old) used i cut).answer }
    ensures marks_after { pool points.new marks.new ≡ (divide at_binary64 stored (pool points.old marks.old) used i cut).store }
{
    let e = read_used(points, marks, used, i);
    let f = read_used(points, marks, used, e.partner);
    let c = moved(e.point, cut);
    if !e.left {
        return refused(Reason::Cut, i);
    }
    if misses(e.point, f.point, c) {
        return refused(Reason::Cut, i);
    }
    if is_full(points, marks, used) {
        return refused(Reason::Full, i);
    }
    let keep = keeps(e, f, c);
    part(points, marks, used, i, e, f, c, keep);
    let left = used + 1;
    Ok(Divided {
        right: used,
        left: left,
        moved: moves(e.point, cut),
        swapped: !keep,
    })
}
