// Runs both sides of each number that came with the sums of a row [6]: 15 and 16, what 2 and 5 ask of the longer rows, what collecting gives, and rows moved over and back.
#![tactic(auto)]

use std::io;

mod carries;
mod collects;
mod days;
mod full;
mod grows;
mod plots;
mod ranges;
mod show;
mod shrinks;

fn main(rt: HostRuntime) -> io::Result<()> {
    full::cases(&rt)?;
    carries::cases(&rt)?;
    ranges::cases(&rt)?;
    collects::cases(&rt)?;
    grows::cases(&rt)?;
    shrinks::cases(&rt)
}
