// What is printed of a case: its numbers, what came back, and the row in use as it then stands.
ghost use Rattle.std.specs.Prelude.{◌≡◌, [], ◌∷◌};
ghost use Rattle.text.specs.Cards.{card_given};
ghost use Rattle.text.specs.Readings.{reading_given};
ghost use Rattle.text.specs.Voids.{void_given};
ghost use Rattle.text.specs.Reads.{number_read, taken_read, line_read};
ghost use Rattle.text.specs.Written.{written_given};

use crate::plots;
use cell::{Answer, Card, Entry, Notice, Reading};
use std::io;
use text::{Read, Unread, Unwritten};

// What was written at the start of a buffer; nothing where it was refused.
pub fn line(rt: &impl Print, buf: &[u8], written: Result<usize, Unwritten>) -> io::Result<()> {
    if let Some(text) = buf.get(..written.unwrap_or(0)) {
        rt.write_all(text)?;
    }
    Ok(())
}

// The number of what was written, and its length.
pub fn written(written: Result<usize, Unwritten>) -> [u64; 2]
    ensures { result ≡ (written_given written).number ∷ (written_given written).len ∷ [] }
{
    match written {
        Ok(len) => [0, len as u64],
        Err(why) => [u64::from(u32::from(why)), 0],
    }
}

// The number of what was read, the bytes taken, and the malformed line.
pub fn taken<T: Copy>(read: Result<Read<T>, Unread>) -> [u64; 3]
    ensures { result ≡ number_read read ∷ taken_read read ∷ line_read read ∷ [] }
{
    match read {
        Ok(Read { taken, .. }) => [0, taken as u64, 0],
        Err(why) => [u64::from(u32::from(why)), 0, why.line() as u64],
    }
}

// The card, the reading and the notice that a reader comes to, by its definition: zeros where it was refused.
pub fn card_read(read: Result<Read<Card>, Unread>) -> Card
    ensures { result ≡ (card_given read).card }
{
    match read {
        Ok(read) => read.value,
        Err(_) => plots::no_card(),
    }
}

pub fn reading_read(read: Result<Read<Reading>, Unread>) -> Reading
    ensures { result ≡ (reading_given read).reading }
{
    match read {
        Ok(read) => read.value,
        Err(_) => plots::no_reading(),
    }
}

pub fn notice_read(read: Result<Read<Notice>, Unread>) -> Notice
    ensures { result ≡ (void_given read).notice }
{
    match read {
        Ok(read) => read.value,
        Err(_) => Notice {
            cell: 0,
            life: 0,
            count: 0,
        },
    }
}

// A form, with the numbers in place of its marks.
pub fn form(rt: &impl Print, marked: &[u8], numbers: &[u64]) -> io::Result<()> {
    let mut numbers = numbers.iter();
    for byte in marked {
        if *byte != b'#' {
            rt.write_all(&[*byte])?;
        } else if let Some(number) = numbers.next() {
            print!(rt; "{number}")?;
        }
    }
    Ok(())
}

// A name and a number with its sign.
pub fn signed(rt: &impl Print, name: &str, number: i64) -> io::Result<()> {
    print!(rt; "{name}{number}")
}

// The line of an answer.
pub fn answer(rt: &impl Print, cell: u32, answer: Answer) -> io::Result<()> {
    let mut buf = [0u8; 300];
    let written = text::print::answer(cell, answer, &mut buf);
    line(rt, &buf, written)
}

// The water in one slot.
fn slot(rt: &impl Print, water: u32) -> io::Result<()> {
    form(rt, b" slot=#", &[u64::from(water)])
}

// A row's life and next count.
fn turn(rt: &impl Print, life: u32, next: u32) -> io::Result<()> {
    form(
        rt,
        b"  row after: life=# next=#",
        &[life, next].map(u64::from),
    )
}

// The life, the next count and the slots in use of the row that stands first: one for each delay, 30 at the most.
pub fn row(rt: &impl Print, rows: &[u32], delays: u32) -> io::Result<()> {
    if let [life, next, slots @ ..] = rows {
        turn(rt, *life, *next)?;
        for water in slots.iter().take(delays.min(30) as usize) {
            slot(rt, *water)?;
        }
        println!(rt)?;
    }
    Ok(())
}

// One entry, given to a site, and the first plot's row after it.
pub fn entry(
    rt: &impl Print,
    card: Card,
    soil: &[i64],
    rows: &mut [u32],
    e: Entry,
) -> io::Result<()> {
    print!(rt; ": ")?;
    answer(rt, cell::cell_of(e), site::step(card, soil, rows, e))?;
    row(rt, rows, card.delays)
}

// One reading, so given.
pub fn step(
    rt: &impl Print,
    card: Card,
    soil: &[i64],
    rows: &mut [u32],
    r: Reading,
) -> io::Result<()> {
    entry(rt, card, soil, rows, Entry::Reading(r))
}

// One reading, given to a plot of these soil numbers on the example's card, whose row holds zeros.
pub fn plot(rt: &impl Print, soil: &[i64], r: Reading) -> io::Result<()> {
    let mut rows = [0u32; 36];
    step(rt, plots::card(), soil, &mut rows, r)
}

// One reading, given to the example's plot.
pub fn reading(rt: &impl Print, r: Reading) -> io::Result<()> {
    let soil = plots::soil();
    plot(rt, &soil, r)
}
