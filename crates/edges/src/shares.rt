// [5] Shares: both sides of their range in a step, a void and clearing, the first rain that runs off, and the key in a card's text.
use crate::{plots, show};
use cell::{Card, Entry, Notice};
use std::io;

// The example's card with this share.
fn card(share: u32) -> Card {
    let mut card = plots::card();
    card.share = share;
    card
}

// The example's reading with this rain.
fn storm(rt: &impl Print, share: u32, rain: u32) -> io::Result<()> {
    show::form(rt, b"share=# rain=#", &[share, rain].map(u64::from))?;
    let soil = plots::soil();
    let mut rows = [0u32; 36];
    let mut r = plots::reading();
    r.rain = rain;
    show::step(rt, card(share), &soil, &mut rows, r)
}

// A void with water in slot 1, and then clearing the row.
fn stored(rt: &impl Print, share: u32) -> io::Result<()> {
    show::form(rt, b"share=# slot 1 at 7, void", &[u64::from(share)])?;
    let soil = plots::soil();
    let mut rows = [0u32; 36];
    rows[2] = 7;
    let first = Notice {
        cell: 0,
        life: 0,
        count: 0,
    };
    show::entry(rt, card(share), &soil, &mut rows, Entry::Void(first))?;
    rows[3] = 7;
    let number = cell::number_of(site::clear(card(share), &mut rows));
    show::form(rt, b"clearing: code=#\n", &[u64::from(number)])?;
    show::row(rt, &rows, 2)
}

// What reading a card from this text gives.
fn read(rt: &impl Print, s: &[u8]) -> io::Result<()> {
    let mut soil = [0i64; 5];
    let read = text::card::read(s, &mut soil);
    let [number, _, line] = show::taken(read);
    let share = show::card_read(read).share;
    show::form(
        rt,
        b"  read: code=# line=# share=#\n",
        &[number, line, u64::from(share)],
    )
}

// The example's card with this share, written and read again.
fn text(rt: &impl Print, share: u32) -> io::Result<()> {
    let soil = plots::soil();
    let mut buf = [0u8; 120];
    let written = text::card::write(card(share), &soil, &mut buf);
    show::line(rt, &buf, written)?;
    read(rt, &buf)
}

pub fn cases(rt: &impl Print) -> io::Result<()> {
    storm(rt, 4, 50800)?;
    storm(rt, 5, 50800)?;
    storm(rt, 20, 50800)?;
    storm(rt, 21, 50800)?;
    // The first rain that runs off.
    storm(rt, 5, 3427)?;
    storm(rt, 5, 3428)?;
    storm(rt, 19, 12317)?;
    storm(rt, 19, 12318)?;
    storm(rt, 20, 12952)?;
    storm(rt, 20, 12953)?;
    stored(rt, 4)?;
    stored(rt, 5)?;
    stored(rt, 20)?;
    stored(rt, 21)?;
    // Every share but 20 is written and read; 20 is what a card has that says none.
    text(rt, 0)?;
    text(rt, 19)?;
    text(rt, 20)?;
    text(rt, 21)?;
    text(rt, 4294967295)?;
    read(
        rt,
        b"cells=1 delays=0 share=20\n\
          top=10000000 etdepth=1500000 vadpor=200 leak=100000 cn=80\n",
    )
}
