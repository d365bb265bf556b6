// The entries that divide, run on every reason of refusal and on 01's P10 and P11: what they tell, and each record that is not as lent, whole.
#![tactic(auto)]

mod cuts;
mod meetings;
mod pools;
mod told;

use std::io;

fn main(rt: HostRuntime) -> io::Result<()> {
    cuts::done(&rt)?;
    cuts::missed(&rt)?;
    cuts::no_room(&rt)?;
    cuts::checked(&rt)?;
    meetings::done(&rt)?;
    meetings::overlapping(&rt)?;
    meetings::stopped(&rt)?;
    meetings::checked(&rt)
}
