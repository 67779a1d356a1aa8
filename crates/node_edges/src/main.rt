// Runs both sides of each number that an outbox gives [4]: 23, 14 and 13, what it says when it is empty, and what an acknowledgement removes.
#![tactic(auto)]

use std::io;

mod adds;
mod forms;
mod hears;
mod show;
mod swaps;

fn main(rt: HostRuntime) -> io::Result<()> {
    adds::cases(&rt)?;
    hears::cases(&rt)?;
    swaps::cases(&rt)?;
    forms::cases(&rt)
}
