// Number 12, and number 2 after it: the text of a card.
use crate::{plots, show};
use cell::Card;
use std::io;

// A card, written into a buffer.
fn write(rt: &impl Print, card: Card, soil: &[i64], buf: &mut [u8]) -> io::Result<()> {
    let written = text::card::write(card, soil, buf);
    show::form(rt, b"written: code=# length=#\n", &show::written(written))?;
    show::line(rt, buf, written)
}

// A card, read from a text that stands between two bars, and written again; a card of zeros where it was refused.
fn read_into(rt: &impl Print, s: &[u8], soil: &mut [i64]) -> io::Result<()> {
    let read = text::card::read(s, soil);
    print!(rt; "|")?;
    rt.write_all(s)?;
    show::form(rt, b"|code=# taken=# line=#, ", &show::taken(read))?;
    let mut buf = [0u8; 300];
    write(rt, show::card_read(read), soil, &mut buf)
}

// A card, read from a text, with room for one plot.
fn read(rt: &impl Print, s: &[u8]) -> io::Result<()> {
    let mut soil = [0i64; 5];
    read_into(rt, s, &mut soil)
}

// Room for the soil numbers, and for one number less.
fn rooms(rt: &impl Print) -> io::Result<()> {
    let good = b"cells=1 delays=2 depth=1000000 depth=2000000\n\
          top=10000000 etdepth=1500000 vadpor=200 leak=100000 cn=80\n";
    let mut four = [0i64; 4];
    read(rt, good)?;
    print!(rt; "room for 4 soil numbers: ")?;
    read_into(rt, good, &mut four)
}

// The number of cells, without their lines.
fn cells(rt: &impl Print) -> io::Result<()> {
    read(rt, b"cells=0 delays=0\n")?;
    read(rt, b"cells=256 delays=0\n")?;
    read(rt, b"cells=257 delays=0\n")
}

// Tops that fit a signed 64-bit number, and tops that are malformed.
fn tops(rt: &impl Print) -> io::Result<()> {
    read(
        rt,
        b"cells=1 delays=0\ntop=-0 etdepth=1 vadpor=1 leak=0 cn=1\n",
    )?;
    read(
        rt,
        b"cells=1 delays=0\ntop=9223372036854775807 etdepth=1 vadpor=1 leak=0 cn=1\n",
    )?;
    read(
        rt,
        b"cells=1 delays=0\ntop=9223372036854775808 etdepth=1 vadpor=1 leak=0 cn=1\n",
    )?;
    read(
        rt,
        b"cells=1 delays=0\ntop=-9223372036854775808 etdepth=1 vadpor=1 leak=0 cn=1\n",
    )?;
    read(
        rt,
        b"cells=1 delays=0\ntop=-9223372036854775809 etdepth=1 vadpor=1 leak=0 cn=1\n",
    )
}

// A depth for each delay, and no line for the plot.
fn delays(rt: &impl Print) -> io::Result<()> {
    read(
        rt,
        b"cells=1 delays=30 \
          depth=1 depth=1 depth=1 depth=1 depth=1 depth=1 depth=1 depth=1 depth=1 depth=1 \
          depth=1 depth=1 depth=1 depth=1 depth=1 depth=1 depth=1 depth=1 depth=1 depth=1 \
          depth=1 depth=1 depth=1 depth=1 depth=1 depth=1 depth=1 depth=1 depth=1 depth=1\n",
    )?;
    read(
        rt,
        b"cells=1 delays=31 \
          depth=1 depth=1 depth=1 depth=1 depth=1 depth=1 depth=1 depth=1 depth=1 depth=1 \
          depth=1 depth=1 depth=1 depth=1 depth=1 depth=1 depth=1 depth=1 depth=1 depth=1 \
          depth=1 depth=1 depth=1 depth=1 depth=1 depth=1 depth=1 depth=1 depth=1 depth=1 \
          depth=1\n",
    )
}

// The example's card for so many plots and with so many delays, its soil numbers with this leak, written into 103 bytes.
fn put(rt: &impl Print, cells: u32, delays: u32, leak: i64) -> io::Result<()> {
    show::form(rt, b"cells=# delays=#", &[cells, delays].map(u64::from))?;
    show::signed(rt, " leak=", leak)?;
    print!(rt; ", room for 103 bytes, ")?;
    let soil = [10000000, 1500000, 200, leak, 80];
    let mut buf = [0u8; 103];
    write(rt, plots::card_of(cells, delays), &soil, &mut buf)
}

// A buffer one byte short.
fn short(rt: &impl Print) -> io::Result<()> {
    print!(rt; "cells=1 delays=2 leak=100000, room for 102 bytes, ")?;
    let soil = plots::soil();
    let mut buf = [0u8; 102];
    write(rt, plots::card(), &soil, &mut buf)
}

// A soil number missing.
fn four(rt: &impl Print) -> io::Result<()> {
    print!(rt; "cells=1 delays=2, 4 soil numbers, room for 103 bytes, ")?;
    let soil = [10000000i64, 1500000, 200, 100000];
    let mut buf = [0u8; 103];
    write(rt, plots::card(), &soil, &mut buf)
}

pub fn cases(rt: &impl Print) -> io::Result<()> {
    rooms(rt)?;
    cells(rt)?;
    tops(rt)?;
    delays(rt)?;
    // Writing: a short buffer, cards that no text gives, and soil numbers that do not fit.
    short(rt)?;
    put(rt, 1, 2, 100000)?;
    put(rt, 0, 2, 100000)?;
    put(rt, 257, 2, 100000)?;
    put(rt, 1, 31, 100000)?;
    put(rt, 1, 1, 100000)?;
    four(rt)?;
    put(rt, 1, 2, -1)
}
