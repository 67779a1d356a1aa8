// [3] Voids: what the queue gives up, both sides of each number that a void can meet, and its text.
use crate::{plots, show};
use cell::{Card, Entry, Notice};
use std::io;

// The first void of a life, of the plot that stands first.
const FIRST: Notice = Notice {
    cell: 0,
    life: 0,
    count: 0,
};

// A void of this cell, life and count, given to a site.
fn given(rt: &impl Print, card: Card, soil: &[i64], rows: &mut [u32], n: Notice) -> io::Result<()> {
    show::form(
        rt,
        b"void cell=# life=# count=#",
        &[n.cell, n.life, n.count].map(u64::from),
    )?;
    show::entry(rt, card, soil, rows, Entry::Void(n))
}

// The first void of a life, given to the plot that stands first.
fn first(rt: &impl Print, card: Card, soil: &[i64], rows: &mut [u32]) -> io::Result<()> {
    given(rt, card, soil, rows, FIRST)
}

// A row with water in its first slots, under a card.
fn waiting(rt: &impl Print, card: Card, first_slot: u32, second_slot: u32) -> io::Result<()> {
    show::form(
        rt,
        b"# delays, slots # and #, ",
        &[card.delays, first_slot, second_slot].map(u64::from),
    )?;
    let soil = plots::soil();
    let mut rows = [0u32; 36];
    rows[2] = first_slot;
    rows[3] = second_slot;
    first(rt, card, &soil, &mut rows)
}

// Thirty delays, with this in slot 1 and as much in slot 30 as it takes.
fn deep(rt: &impl Print, first_slot: u32) -> io::Result<()> {
    let depths = plots::full_depths();
    let card = Card {
        cells: 1,
        delays: 30,
        depths,
        share: 20,
    };
    show::form(rt, b"30 delays, slot 1 at #, ", &[u64::from(first_slot)])?;
    let soil = plots::soil();
    let mut rows = [0u32; 36];
    rows[2] = first_slot;
    rows[31] = 2000000;
    first(rt, card, &soil, &mut rows)
}

// A void of this life and count, on a row of that life and next count.
fn turn(rt: &impl Print, row_life: u32, next: u32, life: u32, count: u32) -> io::Result<()> {
    show::form(rt, b"row (#,#), ", &[row_life, next].map(u64::from))?;
    let soil = plots::soil();
    let mut rows = [0u32; 36];
    rows[0] = row_life;
    rows[1] = next;
    rows[2] = 700;
    given(
        rt,
        plots::card(),
        &soil,
        &mut rows,
        Notice {
            cell: 0,
            life,
            count,
        },
    )
}

// Numbers 6 and 7, row life 3, next 7; then the ends of lives and counts: 8 by the void.
fn turns(rt: &impl Print) -> io::Result<()> {
    turn(rt, 3, 7, 3, 6)?;
    turn(rt, 3, 7, 3, 7)?;
    turn(rt, 3, 7, 3, 8)?;
    turn(rt, 3, 7, 5, 1)?;
    turn(rt, 3, 7, 5, 0)?;
    turn(rt, 3, 7, 2, 900)?;
    turn(rt, 0, 0, 65535, 0)?;
    turn(rt, 0, 0, 65536, 0)?;
    turn(rt, 0, 999999, 0, 999999)?;
    turn(rt, 0, 1000000, 0, 1000000)?;
    turn(rt, 0, 1000000, 1, 0)
}

// Number 1: a card of no plots.
fn no_plots(rt: &impl Print) -> io::Result<()> {
    let soil = plots::soil();
    let mut rows = [0u32; 36];
    print!(rt; "no plots, ")?;
    first(rt, plots::card_of(0, 2), &soil, &mut rows)
}

// Number 2: a soil number or a row number is lacking.
fn short_soil(rt: &impl Print) -> io::Result<()> {
    let soil = [10000000i64, 1500000, 200, 100000];
    let mut rows = [0u32; 36];
    print!(rt; "4 soil numbers, ")?;
    first(rt, plots::card(), &soil, &mut rows)
}

fn short_rows(rt: &impl Print) -> io::Result<()> {
    let soil = plots::soil();
    let mut rows = [0u32; 35];
    print!(rt; "35 row numbers, ")?;
    first(rt, plots::card(), &soil, &mut rows)
}

// Number 3: a plot too many.
fn another_plot(rt: &impl Print) -> io::Result<()> {
    let soil = plots::soil();
    let mut rows = [0u32; 36];
    given(
        rt,
        plots::card(),
        &soil,
        &mut rows,
        Notice { cell: 1, ..FIRST },
    )
}

// Number 4: an etdepth of 0.
fn no_etdepth(rt: &impl Print) -> io::Result<()> {
    let soil = [10000000i64, 0, 200, 100000, 80];
    let mut rows = [0u32; 36];
    print!(rt; "etdepth 0, ")?;
    first(rt, plots::card(), &soil, &mut rows)
}

// A gauge that froze: its reading is refused, the next day's is a gap, the void uses up the count, and the next day's is accepted.
fn frozen(rt: &impl Print) -> io::Result<()> {
    let card = plots::card();
    let soil = plots::soil();
    let mut rows = [0u32; 36];
    let mut broken = plots::reading();
    broken.rain = 1000001;
    let mut later = plots::reading();
    later.count = 1;
    print!(rt; "a frozen gauge")?;
    show::step(rt, card, &soil, &mut rows, broken)?;
    print!(rt; "the next day")?;
    show::step(rt, card, &soil, &mut rows, later)?;
    first(rt, card, &soil, &mut rows)?;
    print!(rt; "the next day")?;
    show::step(rt, card, &soil, &mut rows, later)
}

// A void, read from a text that stands between two bars, and its line; a void of zeros where it was refused.
fn read(rt: &impl Print, s: &[u8]) -> io::Result<()> {
    let read = text::void::read(s);
    let mut buf = [0u8; 60];
    let written = text::void::write(show::notice_read(read), &mut buf);
    print!(rt; "|")?;
    rt.write_all(s)?;
    show::form(rt, b"|code=# taken=# line=#\n  ", &show::taken(read))?;
    show::line(rt, &buf, written)
}

// An entry, read from such a text: whether it is refused, and its bytes.
fn entry(rt: &impl Print, s: &[u8]) -> io::Result<()> {
    let read = text::entry::read(s);
    print!(rt; "|")?;
    rt.write_all(s)?;
    show::form(
        rt,
        b"|an entry: code=# taken=# line=#\n",
        &show::taken(read),
    )
}

// The longest void, written into a buffer of zeros.
fn write(rt: &impl Print, buf: &mut [u8]) -> io::Result<()> {
    let n = Notice {
        cell: 4294967295,
        life: 4294967295,
        count: 4294967295,
    };
    let [number, len] = show::written(text::void::write(n, buf));
    show::form(
        rt,
        b"a void, written into # bytes: code=# length=#\n",
        &[buf.len() as u64, number, len],
    )
}

// Two lines that are voids, and what makes one malformed: a leading zero, no end, a pair more, no `void`, a number of 33 bits, no text.
fn texts(rt: &impl Print) -> io::Result<()> {
    read(rt, b"void cell=0 life=0 count=0\n")?;
    read(rt, b"void cell=4294967295 life=65536 count=1000000\nvoid\n")?;
    read(rt, b"void cell=00 life=0 count=0\n")?;
    read(rt, b"void cell=0 life=0 count=0")?;
    read(rt, b"void cell=0 life=0 count=0 rain=0\n")?;
    read(rt, b"cell=0 life=0 count=0\n")?;
    read(rt, b"void cell=4294967296 life=0 count=0\n")?;
    read(rt, b"")?;
    entry(rt, b"void cell=0 life=0 count=0\n")?;
    entry(
        rt,
        b"cell=0 life=0 count=0 rain=50800 irrig=0 septic=1000 etmin=2000 pet=5000 amc=2 head=410c0000\n",
    )?;
    entry(
        rt,
        b"void cell=0 life=0 count=0 rain=50800 irrig=0 septic=1000 etmin=2000 pet=5000 amc=2 head=410c0000\n",
    )?;
    entry(rt, b"Void cell=0 life=0 count=0\n")
}

pub fn cases(rt: &impl Print) -> io::Result<()> {
    waiting(rt, plots::card(), 100, 700)?;
    waiting(rt, plots::card(), 4000000, 2000000)?;
    waiting(rt, plots::card(), 4000001, 0)?;
    waiting(rt, plots::card_without_delays(), 0, 0)?;
    waiting(rt, plots::card_without_delays(), 1, 0)?;
    deep(rt, 60000000)?;
    deep(rt, 60000001)?;
    turns(rt)?;
    no_plots(rt)?;
    short_soil(rt)?;
    short_rows(rt)?;
    another_plot(rt)?;
    no_etdepth(rt)?;
    frozen(rt)?;
    texts(rt)?;
    let mut exact = [0u8; 54];
    let mut short = [0u8; 53];
    write(rt, &mut exact)?;
    write(rt, &mut short)
}
