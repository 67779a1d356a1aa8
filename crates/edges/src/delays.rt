// [2] The delay under 30 delay depths, from the deep end to the shallow: below the last depth, and beside some of them.
use crate::{plots, show};
use cell::Card;
use std::io;

// The example's reading, whose level is 8,750,000, given to a plot with this top.
fn plot(rt: &impl Print, top: i64) -> io::Result<()> {
    show::signed(rt, "30 depths, top=", top)?;
    let depths = plots::full_depths();
    let card = Card {
        cells: 1,
        delays: 30,
        depths,
        share: 20,
    };
    let soil = [top, 1500000, 200, 100000, 80];
    let mut rows = [0u32; 36];
    show::step(rt, card, &soil, &mut rows, plots::reading())
}

pub fn cases(rt: &impl Print) -> io::Result<()> {
    plot(rt, 48750000)?;
    // The water table at a delay depth, and 1 above it: the last, the one before, one in the middle, the second, the first.
    plot(rt, 38750000)?;
    plot(rt, 38749999)?;
    plot(rt, 37750000)?;
    plot(rt, 37749999)?;
    plot(rt, 23750000)?;
    plot(rt, 23749999)?;
    plot(rt, 10750000)?;
    plot(rt, 10749999)?;
    plot(rt, 9750000)?;
    plot(rt, 9749999)
}
