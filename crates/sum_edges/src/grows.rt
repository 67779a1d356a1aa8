// Rows moved over to the form with sums: numbers 1, 2 for either slice, and 5 for every row. The slice that is written is filled with 7 before.
ghost use Rattle.std.specs.Prelude.{◌≤◌};

use crate::{plots, show};
use std::io;

// Rows moved over under a card for so many plots.
fn over(rt: &impl Print, cells: u32, old: &[u32], rows: &mut [u32]) -> io::Result<()> {
    show::asked(rt, " over into ", cells, old.len(), rows.len())?;
    show::moved(rt, site::grow(plots::deep(cells), old, rows), rows)
}

// The same into so many numbers.
fn into(rt: &impl Print, cells: u32, old: &[u32], numbers: usize) -> io::Result<()>
    requires { numbers ≤ 73 }
{
    let mut rows = [7u32; 73];
    over(rt, cells, old, &mut rows[..numbers])
}

// Two plots' rows with another number at one place, moved over.
fn with(rt: &impl Print, what: &str, place: usize, number: u32) -> io::Result<()> {
    let old = plots::with(plots::old(), place, number);
    show::named(rt, what, number)?;
    print!(rt; ", ")?;
    into(rt, 2, &old, 72)
}

// Numbers 1 and 2 by the card.
fn cards(rt: &impl Print) -> io::Result<()> {
    let old = plots::old();
    into(rt, 2, &old, 72)?;
    into(rt, 0, &old, 72)?;
    into(rt, 257, &old, 72)?;
    into(rt, 1, &old, 72)?;
    into(rt, 3, &old, 72)
}

// Number 2 by the rows that are moved: one number too few, one too many, and rows that have sums already. Number 1 comes before it.
fn lengths(rt: &impl Print) -> io::Result<()> {
    let short = [1u32; 63];
    let long = [1u32; 65];
    let new = plots::new();
    into(rt, 2, &short, 72)?;
    into(rt, 2, &long, 72)?;
    into(rt, 2, &new, 72)?;
    into(rt, 0, &short, 72)
}

// Number 2 by the slice that is written. It comes before 5.
fn rooms(rt: &impl Print) -> io::Result<()> {
    let old = plots::old();
    let bad = [65536u32; 64];
    into(rt, 2, &old, 71)?;
    into(rt, 2, &old, 73)?;
    into(rt, 2, &old, 64)?;
    print!(rt; "lives 65536, ")?;
    into(rt, 2, &bad, 71)
}

// Number 5: the first number of the first plot, the last of the second.
fn rows(rt: &impl Print) -> io::Result<()> {
    with(rt, "first plot: life ", 0, 65535)?;
    with(rt, "first plot: life ", 0, 65536)?;
    with(rt, "second plot: slot 30 at ", 63, 2000000)?;
    with(rt, "second plot: slot 30 at ", 63, 2000001)
}

pub fn cases(rt: &impl Print) -> io::Result<()> {
    cards(rt)?;
    lengths(rt)?;
    rooms(rt)?;
    rows(rt)
}
