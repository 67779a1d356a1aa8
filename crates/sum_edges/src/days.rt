// One day of a plot whose sums hold something.
use crate::{plots, show};
use cell::Entry;
use std::io;

// An entry, given to a plot with these sums of runoff and drainage.
pub fn given(rt: &impl Print, what: &str, e: Entry, runoff: u64, drain: u64) -> io::Result<()> {
    let mut row = plots::row(runoff, drain);
    print!(rt; "{what}, sums {runoff} and {drain}")?;
    show::step(rt, "", &mut row, e)
}

// Rain, with the table 1.25 metres under the ground: no drain, and of 50800 a runoff of 14287.
pub fn under(rt: &impl Print, rain: u32, runoff: u64, drain: u64) -> io::Result<()> {
    let e = plots::reading(7, rain, 0x410c_0000);
    show::named(rt, "table under ground, rain ", rain)?;
    given(rt, "", e, runoff, drain)
}

// Rain, with the table half a metre over the ground: all of it is runoff, and the drain is 50000.
pub fn over(rt: &impl Print, rain: u32, runoff: u64, drain: u64) -> io::Result<()> {
    let e = plots::reading(7, rain, 0x4128_0000);
    show::named(rt, "table over ground, rain ", rain)?;
    given(rt, "", e, runoff, drain)
}
