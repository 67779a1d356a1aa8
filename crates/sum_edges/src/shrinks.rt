// Rows moved back to the form without sums: numbers 1, 2 for either slice, 5 for every row, and 16 while a sum holds anything. The slice that is written is filled with 7 before.
ghost use Rattle.std.specs.Prelude.{◌≤◌};

use crate::{plots, show};
use std::io;

// Rows moved back under a card for so many plots.
fn back(rt: &impl Print, cells: u32, rows: &[u32], old: &mut [u32]) -> io::Result<()> {
    show::asked(rt, " back into ", cells, rows.len(), old.len())?;
    show::moved(rt, site::shrink(plots::deep(cells), rows, old), old)
}

// The same into so many numbers.
fn into(rt: &impl Print, cells: u32, rows: &[u32], numbers: usize) -> io::Result<()>
    requires { numbers ≤ 72 }
{
    let mut old = [7u32; 72];
    back(rt, cells, rows, &mut old[..numbers])
}

// Two plots' rows, moved back.
fn with(rt: &impl Print, what: &str, rows: [u32; 72]) -> io::Result<()> {
    print!(rt; "{what}, ")?;
    into(rt, 2, &rows, 64)
}

// The rows that were moved over; numbers 1 and 2 by the card.
fn cards(rt: &impl Print) -> io::Result<()> {
    let new = plots::new();
    into(rt, 2, &new, 64)?;
    into(rt, 0, &new, 64)?;
    into(rt, 257, &new, 64)?;
    into(rt, 1, &new, 64)?;
    into(rt, 3, &new, 64)
}

// Number 2 by the rows that are moved: one number too few, one too many, and rows without sums. Number 1 comes before it.
fn lengths(rt: &impl Print) -> io::Result<()> {
    let short = [0u32; 71];
    let long = [0u32; 73];
    let old = plots::old();
    into(rt, 2, &short, 64)?;
    into(rt, 2, &long, 64)?;
    into(rt, 2, &old, 64)?;
    into(rt, 0, &old, 64)
}

// Number 2 by the slice that is written. It comes before 5.
fn rooms(rt: &impl Print) -> io::Result<()> {
    let new = plots::new();
    let bad = [65536u32; 72];
    into(rt, 2, &new, 63)?;
    into(rt, 2, &new, 65)?;
    into(rt, 2, &new, 72)?;
    print!(rt; "lives 65536, ")?;
    into(rt, 2, &bad, 63)
}

// Number 16 by each of the four numbers.
fn sums(rt: &impl Print) -> io::Result<()> {
    let new = plots::new();
    with(rt, "first plot: high runoff 1", plots::with(new, 32, 1))?;
    with(rt, "first plot: low runoff 1", plots::with(new, 33, 1))?;
    with(rt, "second plot: high drainage 1", plots::with(new, 70, 1))?;
    with(rt, "second plot: low drainage 1", plots::with(new, 71, 1))
}

// The same by a full sum; one past full is 5.
fn full(rt: &impl Print) -> io::Result<()> {
    let high = plots::with(plots::new(), 32, 232830643);
    let full = plots::with(high, 33, 2808348672);
    let past = plots::with(high, 33, 2808348673);
    with(rt, "first plot: runoff 10^18", full)?;
    with(rt, "first plot: runoff 10^18 + 1", past)
}

// Number 5 comes before 16, whichever plot's row it is.
fn order(rt: &impl Print) -> io::Result<()> {
    let first = plots::with(plots::new(), 33, 1);
    let kept = plots::with(first, 36, 65535);
    let later = plots::with(first, 36, 65536);
    let earlier = plots::with(plots::with(plots::new(), 71, 1), 0, 65536);
    with(
        rt,
        "first plot: low runoff 1, second plot: life 65535",
        kept,
    )?;
    with(
        rt,
        "first plot: low runoff 1, second plot: life 65536",
        later,
    )?;
    with(
        rt,
        "first plot: life 65536, second plot: low drainage 1",
        earlier,
    )
}

// The sum that stands in the way, collected.
fn collected(rt: &impl Print) -> io::Result<()> {
    let mut rows = plots::with(plots::new(), 71, 1);
    into(rt, 2, &rows, 64)?;
    show::collect(rt, plots::deep(2), &mut rows, 1)?;
    into(rt, 2, &rows, 64)
}

pub fn cases(rt: &impl Print) -> io::Result<()> {
    cards(rt)?;
    lengths(rt)?;
    rooms(rt)?;
    sums(rt)?;
    full(rt)?;
    order(rt)?;
    collected(rt)
}
