// Number 15: a sum would pass 10^18. It comes after every other number, changes nothing and leaves the count open.
use crate::plots::{FULL, PAST};
use crate::{days, plots, show};
use std::io;

// Room for the day's runoff, and for 1 less; a full sum with the most rain that gives no runoff, and with 1 more.
fn runoff(rt: &impl Print) -> io::Result<()> {
    days::under(rt, 50800, 999999999999985713, 0)?;
    days::under(rt, 50800, 999999999999985714, 0)?;
    days::under(rt, 12952, FULL, 0)?;
    days::under(rt, 12953, FULL, 0)?;
    days::under(rt, 12953, 999999999999999999, 0)?;
    days::under(rt, 50800, 0, FULL)
}

// Room for the day's drain, and for 1 less; a full sum with the table at the ground.
fn drain(rt: &impl Print) -> io::Result<()> {
    days::over(rt, 0, 0, 999999999999950000)?;
    days::over(rt, 0, 0, 999999999999950001)?;
    days::over(rt, 0, FULL, 0)?;
    let at = plots::reading(7, 0, 0x4120_0000);
    days::given(rt, "table at ground, rain 0", at, 0, FULL)
}

// Room for both, and for 1 less of either.
fn both(rt: &impl Print) -> io::Result<()> {
    days::over(rt, 50800, 999999999999949200, 999999999999950000)?;
    days::over(rt, 50800, 999999999999949201, 999999999999950000)?;
    days::over(rt, 50800, 999999999999949200, 999999999999950001)
}

// Both full, and nothing to add.
fn nothing(rt: &impl Print) -> io::Result<()> {
    days::under(rt, 0, FULL, FULL)?;
    days::given(rt, "a void", plots::void(), FULL, FULL)
}

// The count stays open: the next day is a gap until the plot is collected and the storm given again.
fn open(rt: &impl Print) -> io::Result<()> {
    let storm = plots::reading(7, 50800, 0x410c_0000);
    let later = plots::reading(8, 50800, 0x410c_0000);
    let mut row = plots::row(999999999999985714, 0);
    show::step(rt, "a storm on a nearly full sum", &mut row, storm)?;
    show::step(rt, "the next day", &mut row, later)?;
    show::collect(rt, plots::card(1), &mut row, 0)?;
    show::step(rt, "the storm again", &mut row, storm)?;
    show::step(rt, "the next day", &mut row, later)
}

// Numbers 10, 9, 17 and 8 come before 15 on a plot whose sums are full.
fn readings(rt: &impl Print) -> io::Result<()> {
    let inactive = plots::reading(7, 50800, 0x7149_f2ca);
    let unusable = plots::reading(7, 50800, 0x461c_4001);
    days::given(rt, "an inactive head", inactive, FULL, FULL)?;
    days::given(rt, "an unusable head", unusable, FULL, FULL)?;
    days::under(rt, 600000, FULL, FULL)?;
    days::under(rt, 600001, FULL, FULL)?;
    days::under(rt, 1000001, FULL, FULL)
}

// So do 7 and 6; and 5 comes before 6.
fn counts(rt: &impl Print) -> io::Result<()> {
    let high = plots::reading(8, 50800, 0x410c_0000);
    let low = plots::reading(6, 50800, 0x410c_0000);
    days::given(rt, "a count left out", high, FULL, FULL)?;
    days::given(rt, "the last count again", low, FULL, FULL)?;
    days::given(rt, "the last count again", low, PAST, 0)
}

pub fn cases(rt: &impl Print) -> io::Result<()> {
    runoff(rt)?;
    drain(rt)?;
    both(rt)?;
    nothing(rt)?;
    open(rt)?;
    readings(rt)?;
    counts(rt)
}
