// Collecting: both sums of one plot, and numbers 1, 2, 3 and 5. Clearing, which sets the sums to 0 too.
use crate::{plots, show};
use std::io;

// A plot's sums, collected under a card for so many plots.
fn collect(rt: &impl Print, rows: &mut [u32], cells: u32, cell: u32) -> io::Result<()> {
    show::named(rt, "plots ", cells)?;
    show::amount(rt, ", row numbers ", rows.len() as u64)?;
    print!(rt; ", ")?;
    show::collect(rt, plots::card(cells), rows, cell)
}

// The same from two plots, of which nothing has been collected.
fn of(rt: &impl Print, cells: u32, cell: u32) -> io::Result<()> {
    let mut rows = plots::two();
    collect(rt, &mut rows, cells, cell)
}

// The same with another number at one place of their rows.
fn with(rt: &impl Print, what: &str, place: usize, number: u32, cell: u32) -> io::Result<()> {
    let mut rows = plots::with(plots::two(), place, number);
    show::named(rt, what, number)?;
    print!(rt; ", ")?;
    collect(rt, &mut rows, 2, cell)
}

// The first plot, the first again, then the second.
fn one_after_another(rt: &impl Print) -> io::Result<()> {
    let mut rows = plots::two();
    collect(rt, &mut rows, 2, 0)?;
    collect(rt, &mut rows, 2, 0)?;
    collect(rt, &mut rows, 2, 1)
}

// Numbers 1, 2 and 3, by the card and the plot.
fn sites(rt: &impl Print) -> io::Result<()> {
    of(rt, 0, 0)?;
    of(rt, 257, 0)?;
    of(rt, 1, 0)?;
    of(rt, 3, 0)?;
    of(rt, 2, 2)?;
    of(rt, 2, 4294967295)
}

// Number 2: one row number too few, one too many, and rows of the old form. Number 1 comes before it, and 3 after it.
fn lengths(rt: &impl Print) -> io::Result<()> {
    let mut short = [7u32; 71];
    let mut long = [7u32; 73];
    let mut old = [7u32; 64];
    collect(rt, &mut short, 2, 0)?;
    collect(rt, &mut long, 2, 0)?;
    collect(rt, &mut old, 2, 0)?;
    collect(rt, &mut short, 0, 2)?;
    collect(rt, &mut short, 2, 2)
}

// Number 5, by the row of the named plot alone.
fn first_row(rt: &impl Print) -> io::Result<()> {
    with(rt, "first plot: life ", 0, 65535, 0)?;
    with(rt, "first plot: life ", 0, 65536, 0)?;
    with(rt, "first plot: life ", 0, 65536, 1)?;
    with(rt, "first plot: slot 3 at ", 4, 1, 0)?;
    with(rt, "first plot: high runoff number ", 32, 232830644, 0)?;
    with(rt, "first plot: high runoff number ", 32, 232830644, 1)
}

// The same by the second row. Number 3 comes before it.
fn second_row(rt: &impl Print) -> io::Result<()> {
    with(rt, "second plot: low drainage number ", 71, 2808348672, 1)?;
    with(rt, "second plot: low drainage number ", 71, 2808348673, 1)?;
    with(rt, "second plot: low drainage number ", 71, 2808348673, 0)?;
    with(rt, "second plot: life ", 36, 65536, 2)
}

// Clearing one plot with the rows of two, then both.
fn clearing(rt: &impl Print) -> io::Result<()> {
    let mut rows = plots::two();
    show::clear(rt, "plots 1, row numbers 72", plots::card(1), &mut rows)?;
    show::clear(rt, "plots 2, row numbers 72", plots::card(2), &mut rows)
}

pub fn cases(rt: &impl Print) -> io::Result<()> {
    one_after_another(rt)?;
    of(rt, 2, 1)?;
    sites(rt)?;
    lengths(rt)?;
    first_row(rt)?;
    second_row(rt)?;
    clearing(rt)
}
