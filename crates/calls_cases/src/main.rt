// Tries the calls in place where document 01 refuses them, on caches that no replay reaches, and at the clock's end.
// What must be written stands beside each case, from document 01 by hand, and in the file stdout.
#![tactic(auto)]

mod caches;
mod refusals;
mod setting;

use std::io;

fn main(rt: HostRuntime) -> io::Result<()> {
    refusals::loads(&rt)?;
    refusals::translations(&rt)?;
    refusals::tests(&rt)?;
    refusals::probes(&rt)?;
    refusals::flushes(&rt)?;
    refusals::largest_taken(&rt)?;
    caches::unreached(&rt)?;
    caches::clock(&rt)
}
