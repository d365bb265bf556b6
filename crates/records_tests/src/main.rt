// Every way of 01 in which records are invalid: what the entries on single records tell, and whether all that was lent is as lent.
#![tactic(auto)]

mod cases;
mod pools;
mod told;

use std::io;

fn main(rt: HostRuntime) -> io::Result<()> {
    cases::sizes_and_coordinates(&rt)?;
    cases::mistakes(&rt)?;
    cases::rights(&rt)?;
    cases::several(&rt)?;
    cases::above_nothing(&rt)
}
