// Runs the cases of document 01 that are not proved: its unstarred edges, and both sides of each refusal number; for [1], storms on dry and on wet ground; for [2], the delay under 30 depths; for [3], voids; for [5], shares; for [7], a jammed bucket.
#![tactic(auto)]

use std::io;

mod card_texts;
mod cards;
mod delays;
mod fields;
mod grounds;
mod heads;
mod plots;
mod rains;
mod readings;
mod rows;
mod shares;
mod sheets;
mod show;
mod sites;
mod soils;
mod voids;

fn main(rt: HostRuntime) -> io::Result<()> {
    cards::cases(&rt)?;
    sites::cases(&rt)?;
    soils::cases(&rt)?;
    delays::cases(&rt)?;
    grounds::cases(&rt)?;
    rows::cases(&rt)?;
    fields::cases(&rt)?;
    rains::cases(&rt)?;
    heads::cases(&rt)?;
    sheets::cases(&rt)?;
    readings::cases(&rt)?;
    card_texts::cases(&rt)?;
    voids::cases(&rt)?;
    shares::cases(&rt)
}
