// Outboxes out of their form: 23, whatever is asked.
use crate::{adds, show};
use cell::{Entry, Reading};
use outbox::Outbox;
use std::io;

// Each call of an outbox: its number.
fn calls(rt: &impl Print, what: &str, b: Outbox) -> io::Result<()> {
    print!(rt; "{what}: offers")?;
    show::offers(rt, &b)?;
    let (life, next) = (b.life, b.next);
    show::after(rt, ", adds", b, |b| b.add(adds::reading(7, life, next)))?;
    show::replaced(rt, "  replaces", b)?;
    show::after(rt, "  hears", b, |b| b.acknowledge(life, next))?;
    show::after(rt, "  swaps", b, |b| b.swap(65535))?;
    Ok(())
}

// Whether an outbox is in its form, by what it offers.
fn look(rt: &impl Print, what: &str, b: Outbox) -> io::Result<()> {
    print!(rt; "{what}:")?;
    show::outbox(rt, &b)
}

// Two held, with other numbers.
fn numbers(cell: u32, life: u32, next: u32, held: u32) -> Outbox {
    Outbox {
        cell,
        life,
        next,
        held,
        ..adds::holding(2)
    }
}

// Two held, with another entry in this place.
fn with(i: usize, e: Entry) -> Outbox {
    let mut b = adds::holding(2);
    if let Some(place) = b.places.get_mut(i) {
        *place = e;
    }
    b
}

// A reading of zeros but for its rain and its head.
fn spare(rain: u32, bits: u32) -> Entry {
    let h = head::from_pattern(bits);
    Entry::Reading(Reading {
        cell: 0,
        life: 0,
        count: 0,
        rain,
        irrig: 0,
        septic: 0,
        etmin: 0,
        pet: 0,
        amc: 0,
        head: h.value,
        nan: h.nan,
    })
}

pub fn cases(rt: &impl Print) -> io::Result<()> {
    calls(rt, "two held", numbers(7, 0, 2, 2))?;
    calls(rt, "another cell's", numbers(8, 0, 2, 2))?;
    calls(rt, "another life's", numbers(7, 1, 2, 2))?;
    calls(rt, "counts not up to next", numbers(7, 0, 3, 2))?;
    calls(rt, "one not counted", numbers(7, 0, 2, 1))?;
    calls(rt, "one too many counted", numbers(7, 0, 2, 3))?;
    look(rt, "31 counted", numbers(7, 0, 31, 31))?;
    look(rt, "more held than made", numbers(7, 0, 1, 2))?;
    look(rt, "life 65535", adds::at(65535, 0))?;
    look(rt, "life 65536", adds::at(65536, 0))?;
    look(rt, "next 1000000", adds::at(0, 1000000))?;
    look(rt, "next 1000001", adds::at(0, 1000001))?;
    look(rt, "a void among them", with(1, adds::void(7, 0, 1)))?;
    look(rt, "a count twice", with(1, adds::void(7, 0, 0)))?;
    look(rt, "a spare place of zeros", with(2, spare(0, 0)))?;
    look(rt, "a spare place with rain", with(2, spare(1, 0)))?;
    look(
        rt,
        "a spare place with head bits 80000000",
        with(2, spare(0, 0x8000_0000)),
    )?;
    look(
        rt,
        "a void in the last spare place",
        with(29, adds::void(0, 0, 0)),
    )
}
