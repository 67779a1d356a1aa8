// Numbers 5, 6 and 7: the stored row, and whether it is the reading's turn.
ghost use Rattle.std.specs.Prelude.{◌<◌};

use crate::{plots, show};
use cell::Card;
use std::io;

// The example's reading, under a card, on a row with water in one slot.
fn waiting(rt: &impl Print, card: Card, slot: usize, water: u32) -> io::Result<()>
    requires { slot < 31 }
{
    show::form(
        rt,
        b"slot # of # at #",
        &[slot as u64, u64::from(card.delays), u64::from(water)],
    )?;
    let soil = plots::soil();
    let mut rows = [0u32; 36];
    rows[slot + 1] = water;
    show::step(rt, card, &soil, &mut rows, plots::reading())
}

// A reading of this life and count, on a row of that life and next count.
fn turn(rt: &impl Print, row_life: u32, next: u32, life: u32, count: u32) -> io::Result<()> {
    show::form(
        rt,
        b"row (#,#), reading (#,#)",
        &[row_life, next, life, count].map(u64::from),
    )?;
    let soil = plots::soil();
    let mut rows = [0u32; 36];
    rows[0] = row_life;
    rows[1] = next;
    let mut r = plots::reading();
    r.life = life;
    r.count = count;
    show::step(rt, plots::card(), &soil, &mut rows, r)
}

pub fn cases(rt: &impl Print) -> io::Result<()> {
    // Number 5: with two delays slot 1 takes 4,000,000, slot 2 half of that, and no other slot any; without delays none does.
    let two = plots::card();
    let none = plots::card_without_delays();
    waiting(rt, two, 1, 4000000)?;
    waiting(rt, two, 1, 4000001)?;
    waiting(rt, two, 2, 2000000)?;
    waiting(rt, two, 2, 2000001)?;
    waiting(rt, two, 3, 0)?;
    waiting(rt, two, 3, 1)?;
    waiting(rt, two, 30, 1)?;
    waiting(rt, none, 1, 0)?;
    waiting(rt, none, 1, 1)?;
    // Numbers 6 and 7: row life 3, next 7.
    turn(rt, 3, 7, 3, 6)?;
    turn(rt, 3, 7, 3, 7)?;
    turn(rt, 3, 7, 3, 8)?;
    turn(rt, 3, 7, 5, 1)?;
    turn(rt, 3, 7, 5, 0)?;
    turn(rt, 3, 7, 2, 900)?;
    // The ends of lives and counts: 5 by the row, 8 by the reading.
    turn(rt, 65535, 0, 65535, 0)?;
    turn(rt, 65536, 0, 65536, 0)?;
    turn(rt, 0, 0, 65535, 0)?;
    turn(rt, 0, 0, 65536, 0)?;
    turn(rt, 0, 999999, 0, 999999)?;
    turn(rt, 0, 1000000, 0, 1000000)?;
    turn(rt, 0, 1000001, 0, 1000001)
}
