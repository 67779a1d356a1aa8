// Numbers 2 and 3: the lengths of the slices, and the cell number; 4 and 5 by the named plot alone. Clearing, which knows 1 and 2.
ghost use Rattle.std.specs.Prelude.{◌≤◌};

use crate::{plots, show};
use cell::Entry;
use std::io;

// The example's reading for this cell, over these soil and row numbers.
fn over(rt: &impl Print, cells: u32, cell: u32, soil: &[i64], rows: &mut [u32]) -> io::Result<()> {
    show::form(
        rt,
        b"cells=# cell=#, soil numbers #, row numbers #",
        &[
            u64::from(cells),
            u64::from(cell),
            soil.len() as u64,
            rows.len() as u64,
        ],
    )?;
    let mut r = plots::reading();
    r.cell = cell;
    show::step(rt, plots::card_of(cells, 2), soil, rows, r)
}

// The same over so many of the soil and row numbers of two plots like the example's.
fn lent(rt: &impl Print, cells: u32, cell: u32, soils: usize, numbers: usize) -> io::Result<()>
    requires soils_bound { soils ≤ 11 }
    requires numbers_bound { numbers ≤ 73 }
{
    let soil = [
        10000000, 1500000, 200, 100000, 80, 10000000, 1500000, 200, 100000, 80, 80,
    ];
    let mut rows = [0u32; 73];
    over(rt, cells, cell, &soil[..soils], &mut rows[..numbers])
}

// The example's reading for this cell of two plots, the second under this top and with so much water in slot 1.
fn beside(rt: &impl Print, cell: u32, top: i64, water: u32) -> io::Result<()> {
    show::form(
        rt,
        b"cells=2 cell=#, second plot: slot=#",
        &[cell, water].map(u64::from),
    )?;
    show::signed(rt, " top=", top)?;
    let soil = [
        10000000, 1500000, 200, 100000, 80, top, 1500000, 200, 100000, 80,
    ];
    let mut rows = [0u32; 72];
    rows[38] = water;
    let mut r = plots::reading();
    r.cell = cell;
    show::step(rt, plots::card_of(2, 2), &soil, &mut rows, r)?;
    show::row(rt, &rows[36..], 2)
}

// A dry reading for this cell of 256 plots whose soil numbers are all 1; the last plot's row is printed.
fn largest(rt: &impl Print, cell: u32) -> io::Result<()> {
    show::form(rt, b"cells=256 cell=#: ", &[u64::from(cell)])?;
    let soil = [1i64; 1280];
    let mut rows = [0u32; 9216];
    let mut r = plots::reading_at(0xf149_f2ca);
    r.cell = cell;
    show::answer(
        rt,
        cell,
        site::step(plots::card_of(256, 2), &soil, &mut rows, Entry::Reading(r)),
    )?;
    show::row(rt, &rows[9180..], 2)
}

// Clears these rows under so many delays, and prints the first.
fn cleared(rt: &impl Print, delays: u32, rows: &mut [u32]) -> io::Result<()> {
    let number = cell::number_of(site::clear(plots::card_of(1, delays), rows));
    show::form(
        rt,
        b"clearing, row numbers #, delays=#: code=#\n",
        &[rows.len() as u64, u64::from(delays), u64::from(number)],
    )?;
    show::row(rt, rows, 2)
}

// Clears so many row numbers under so many delays.
fn clear(rt: &impl Print, delays: u32, numbers: usize) -> io::Result<()>
    requires { numbers ≤ 37 }
{
    let mut rows = [7u32; 37];
    cleared(rt, delays, &mut rows[..numbers])
}

pub fn cases(rt: &impl Print) -> io::Result<()> {
    // One number too few, one too many, and as many as the plots have.
    lent(rt, 1, 0, 4, 36)?;
    lent(rt, 1, 0, 6, 36)?;
    lent(rt, 1, 0, 5, 35)?;
    lent(rt, 1, 0, 5, 37)?;
    lent(rt, 1, 0, 5, 36)?;
    lent(rt, 2, 0, 9, 72)?;
    lent(rt, 2, 0, 11, 72)?;
    lent(rt, 2, 0, 10, 71)?;
    lent(rt, 2, 0, 10, 73)?;
    lent(rt, 2, 0, 10, 72)?;
    // The cell number at the number of cells, and below it.
    lent(rt, 1, 1, 5, 36)?;
    lent(rt, 2, 2, 10, 72)?;
    beside(rt, 1, 10000000, 0)?;
    // A soil number or a row out of range: the named plot's, and another plot's.
    beside(rt, 1, 10000000000, 0)?;
    beside(rt, 1, 10000000001, 0)?;
    beside(rt, 0, 10000000001, 0)?;
    beside(rt, 1, 10000000, 4000000)?;
    beside(rt, 1, 10000000, 4000001)?;
    beside(rt, 0, 10000000, 4000001)?;
    largest(rt, 255)?;
    largest(rt, 256)?;
    // Clearing; the check of the card comes first.
    clear(rt, 31, 36)?;
    clear(rt, 31, 37)?;
    clear(rt, 2, 35)?;
    clear(rt, 2, 37)?;
    clear(rt, 2, 36)
}
