// Number 1: the card. A card without delays.
use crate::{plots, show};
use cell::Card;
use std::io;

// The example's reading, under a card of so many plots and delays, with two depths.
fn two(rt: &impl Print, cells: u32, delays: u32, first: u32, second: u32) -> io::Result<()> {
    show::form(
        rt,
        b"cells=# delays=# depth=# depth=#",
        &[cells, delays, first, second].map(u64::from),
    )?;
    let depths = plots::depths(first, second);
    let card = Card {
        cells,
        delays,
        depths,
        share: 20,
    };
    let soil = plots::soil();
    let mut rows = [0u32; 36];
    show::step(rt, card, &soil, &mut rows, plots::reading())
}

// One plot with so many delays and a depth in each of the 30 places, and water in the first and the last slot.
fn many(rt: &impl Print, delays: u32) -> io::Result<()> {
    show::form(
        rt,
        b"30 depths, slot 1 at 5, slot 30 at 2000000, delays=#",
        &[u64::from(delays)],
    )?;
    let depths = plots::full_depths();
    let card = Card {
        cells: 1,
        delays,
        depths,
        share: 20,
    };
    let soil = plots::soil();
    let mut rows = [0u32; 36];
    rows[2] = 5;
    rows[31] = 2000000;
    show::step(rt, card, &soil, &mut rows, plots::reading())
}

pub fn cases(rt: &impl Print) -> io::Result<()> {
    // Depths that rise, and depths in range.
    two(rt, 1, 2, 1000000, 2000000)?;
    two(rt, 1, 2, 1000000, 1000000)?;
    two(rt, 1, 2, 1000000, 1000001)?;
    two(rt, 1, 2, 1000000, 999999)?;
    two(rt, 1, 2, 0, 2000000)?;
    two(rt, 1, 2, 1, 2000000)?;
    two(rt, 1, 2, 1000000, 1000000000)?;
    two(rt, 1, 2, 1000000, 1000000001)?;
    // Places in use and not, and a card without delays.
    two(rt, 1, 1, 1000000, 0)?;
    two(rt, 1, 1, 1000000, 2000000)?;
    two(rt, 1, 0, 0, 0)?;
    two(rt, 1, 0, 1, 0)?;
    // The most delays, and the numbers of cells out of range.
    many(rt, 29)?;
    many(rt, 30)?;
    many(rt, 31)?;
    two(rt, 0, 2, 1000000, 2000000)?;
    two(rt, 257, 2, 1000000, 2000000)
}
