// What is printed of a case: what was asked, the number that came back, and the rows as they then stand.
use crate::plots;
use cell::{Answer, Card, Collected, Entry, Refusal};
use site::Unmoved;
use std::io;

// A name and an amount of water.
pub fn amount(rt: &impl Print, name: &str, water: u64) -> io::Result<()> {
    print!(rt; "{name}{water}")
}

// A name and a number.
pub fn named(rt: &impl Print, name: &str, number: u32) -> io::Result<()> {
    amount(rt, name, u64::from(number))
}

// A row's life, next count and first two slots.
fn queue(
    rt: &impl Print,
    life: u32,
    next: u32,
    first_slot: u32,
    second_slot: u32,
) -> io::Result<()> {
    print!(rt; "  life={life} next={next} slots={first_slot},{second_slot}")
}

// The high and the low number of one of its sums.
fn sum(rt: &impl Print, name: &str, high: u32, low: u32) -> io::Result<()> {
    print!(rt; "{name}{high},{low}")
}

// The row that stands first.
fn plot(rt: &impl Print, rows: &[u32]) -> io::Result<()> {
    if 36 <= rows.len() {
        queue(rt, rows[0], rows[1], rows[2], rows[3])?;
        sum(rt, " runoff=", rows[32], rows[33])?;
        sum(rt, " drainage=", rows[34], rows[35])?;
    }
    Ok(())
}

// The first two rows, where there are so many.
fn site_rows(rt: &impl Print, rows: &[u32]) -> io::Result<()> {
    plot(rt, rows)?;
    if 72 <= rows.len() {
        print!(rt; " |")?;
        plot(rt, &rows[36..])?;
    }
    println!(rt)
}

// The number of an answer, its runoff and its drain.
fn answered(rt: &impl Print, answer: Answer) -> io::Result<()> {
    let a = cell::amounts_of(answer);
    named(rt, ": ", cell::number_of(answer))?;
    amount(rt, " runoff=", a.runoff.0)?;
    amount(rt, " drain=", a.drain.0)
}

// One entry, given to the example's plot.
pub fn step(rt: &impl Print, what: &str, rows: &mut [u32], e: Entry) -> io::Result<()> {
    let soil = plots::soil();
    print!(rt; "{what}")?;
    answered(rt, site::step(plots::card(1), &soil, rows, e))?;
    site_rows(rt, rows)
}

// The number of a collection, and both sums.
fn gathered(rt: &impl Print, got: Result<Collected, Refusal>) -> io::Result<()> {
    let both = cell::sums_of(got);
    named(rt, ": ", cell::number_of(got))?;
    amount(rt, " runoff=", both.runoff.0)?;
    amount(rt, " drainage=", both.drain.0)
}

// A plot's sums, collected.
pub fn collect(rt: &impl Print, card: Card, rows: &mut [u32], cell: u32) -> io::Result<()> {
    named(rt, "collecting plot ", cell)?;
    gathered(rt, site::collect(card, rows, cell))?;
    site_rows(rt, rows)
}

// All rows, cleared.
pub fn clear(rt: &impl Print, what: &str, card: Card, rows: &mut [u32]) -> io::Result<()> {
    print!(rt; "{what}")?;
    named(rt, ", clearing: ", cell::number_of(site::clear(card, rows)))?;
    site_rows(rt, rows)
}

// For how many plots, and how many numbers, a move is asked.
pub fn asked(rt: &impl Print, way: &str, cells: u32, from: usize, to: usize) -> io::Result<()> {
    print!(rt; "plots {cells}, {from} numbers{way}{to}")
}

// One number of a slice.
fn one(rt: &impl Print, number: u32) -> io::Result<()> {
    named(rt, " ", number)
}

// The numbers of a slice.
fn numbers(rt: &impl Print, slice: &[u32]) -> io::Result<()> {
    for number in slice {
        one(rt, *number)?;
    }
    Ok(())
}

// How many numbers of a slice are 7.
fn sevens(slice: &[u32]) -> usize {
    slice.iter().filter(|number| **number == 7).count()
}

// What a move gave, and the slice into which it writes: its numbers, or how many are still the 7 that it was filled with.
pub fn moved(rt: &impl Print, answer: Result<(), Unmoved>, slice: &[u32]) -> io::Result<()> {
    match answer {
        Ok(()) => {
            named(rt, ": ", 0)?;
            numbers(rt, slice)?;
        }
        Err(why) => {
            let still = sevens(slice);
            let len = slice.len();
            named(rt, ": ", u32::from(why))?;
            print!(rt; ", {still} of {len} still 7")?;
        }
    }
    println!(rt)
}
