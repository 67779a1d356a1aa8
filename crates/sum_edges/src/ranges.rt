// Numbers 5 and 2 of a step: what a row's sums may hold, and how long the row is.
use crate::plots::{FULL, PAST};
use crate::{days, plots, show};
use std::io;

// Number 5, by either sum, on a day that adds nothing to them.
fn sums(rt: &impl Print) -> io::Result<()> {
    days::under(rt, 0, FULL, 0)?;
    days::under(rt, 0, PAST, 0)?;
    days::under(rt, 0, 0, FULL)?;
    days::under(rt, 0, 0, PAST)?;
    // Past 10^18 by the high number alone: one more than that of 10^18, and the most there is.
    days::under(rt, 0, 1000000001486618624, 0)?;
    days::under(rt, 0, 0, 1000000001486618624)?;
    days::under(rt, 0, 18446744069414584320, 0)?;
    days::under(rt, 0, 0, 18446744069414584320)?;
    // Low numbers may hold the most there is, high ones not.
    days::under(rt, 0, 4294967295, 4294967295)?;
    days::under(rt, 0, 18446744073709551615, 18446744073709551615)?;
    days::given(rt, "a void", plots::void(), PAST, 0)?;
    days::given(rt, "a void", plots::void(), 0, PAST)
}

// Number 2: a row of the old form, of one number less or more than the new form has, and of the new form.
fn lengths(rt: &impl Print) -> io::Result<()> {
    let first = plots::reading(0, 50800, 0x410c_0000);
    let mut old = [0u32; 32];
    let mut short = [0u32; 35];
    let mut long = [0u32; 37];
    let mut row = [0u32; 36];
    show::step(rt, "a row of 32 numbers", &mut old, first)?;
    show::step(rt, "a row of 35 numbers", &mut short, first)?;
    show::step(rt, "a row of 37 numbers", &mut long, first)?;
    show::step(rt, "a row of 36 numbers", &mut row, first)
}

pub fn cases(rt: &impl Print) -> io::Result<()> {
    sums(rt)?;
    lengths(rt)
}
