// Fresh outboxes, and entries that are taken or not: 14 and 13.
use crate::show;
use cell::{Entry, Notice, Reading};
use outbox::{NoSuchCell, Outbox};
use std::io;

// A reading of this cell, life and count.
pub fn reading(cell: u32, life: u32, count: u32) -> Entry {
    let h = head::from_pattern(0x410c_0000);
    Entry::Reading(Reading {
        cell,
        life,
        count,
        rain: 50800,
        irrig: 0,
        septic: 1000,
        etmin: 2000,
        pet: 5000,
        amc: 2,
        head: h.value,
        nan: h.nan,
    })
}

pub fn void(cell: u32, life: u32, count: u32) -> Entry {
    Entry::Void(Notice { cell, life, count })
}

// An outbox of cell 7 that holds nothing, at this life and next count.
pub fn at(life: u32, next: u32) -> Outbox {
    let (Ok(b) | Err(NoSuchCell(b))) = Outbox::fresh(7);
    Outbox { life, next, ..b }
}

// An outbox of cell 7 that was given so many readings, one after the other.
pub fn holding(count: u32) -> Outbox {
    let mut b = at(0, 0);
    for i in 0..count {
        let _ = b.add(reading(7, 0, i));
    }
    b
}

// An outbox of cell 7 at this life, that was given one reading.
pub fn one_in(life: u32) -> Outbox {
    let mut b = at(life, 0);
    let _ = b.add(reading(7, life, 0));
    b
}

fn fresh(rt: &impl Print) -> io::Result<()> {
    show::fresh(rt, "fresh cell 0", 0)?;
    show::fresh(rt, "fresh cell 255", 255)?;
    show::fresh(rt, "fresh cell 256", 256)
}

// A case in which an outbox is given an entry.
fn given(rt: &impl Print, what: &str, b: Outbox, e: Entry) -> io::Result<Outbox> {
    show::after(rt, what, b, |b| b.add(e))
}

// The next entry, and one that differs in its cell, its life or its count.
fn next(rt: &impl Print) -> io::Result<()> {
    let b = holding(3);
    given(rt, "three held, the next reading", b, reading(7, 0, 3))?;
    given(rt, "three held, the next void", b, void(7, 0, 3))?;
    given(rt, "another cell", b, reading(8, 0, 3))?;
    given(rt, "another life", b, reading(7, 1, 3))?;
    given(rt, "the last count again", b, reading(7, 0, 2))?;
    given(rt, "a count left out", b, void(7, 0, 4))?;
    Ok(())
}

// The last count, and the one behind it.
fn last(rt: &impl Print) -> io::Result<()> {
    let b = given(rt, "count 999999", at(0, 999999), reading(7, 0, 999999))?;
    given(rt, "count 1000000", b, reading(7, 0, 1000000))?;
    Ok(())
}

// The thirtieth, the one after it, and what is not the next in a full outbox.
fn full(rt: &impl Print) -> io::Result<()> {
    let b = given(rt, "the thirtieth", holding(29), reading(7, 0, 29))?;
    given(rt, "one more", b, reading(7, 0, 30))?;
    given(rt, "one more, not the next", b, reading(7, 0, 31))?;
    let b = show::after(rt, "life 0, next 1", b, |b| b.acknowledge(0, 1))?;
    given(rt, "one more then", b, reading(7, 0, 30))?;
    Ok(())
}

pub fn cases(rt: &impl Print) -> io::Result<()> {
    fresh(rt)?;
    next(rt)?;
    last(rt)?;
    full(rt)
}
