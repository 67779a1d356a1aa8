// Number 12: the text of a reading.
use crate::{plots, show};
use cell::Reading;
use std::io;

// The line of a reading.
fn again(rt: &impl Print, r: Reading) -> io::Result<()> {
    let mut buf = [0u8; 300];
    let written = text::reading::write(r, &mut buf);
    show::line(rt, &buf, written)
}

// A reading, read from a text that stands between two bars, and its line; a reading of zeros where it was refused.
fn read(rt: &impl Print, s: &[u8]) -> io::Result<()> {
    let read = text::reading::read(s);
    print!(rt; "|")?;
    rt.write_all(s)?;
    show::form(rt, b"|code=# taken=# line=#\n  ", &show::taken(read))?;
    again(rt, show::reading_read(read))
}

// The example's reading, written into a buffer of zeros.
fn write(rt: &impl Print, buf: &mut [u8]) -> io::Result<()> {
    let written = text::reading::write(plots::reading(), buf);
    let [number, len] = show::written(written);
    show::form(
        rt,
        b"a reading, written into # bytes: code=# length=#\n",
        &[buf.len() as u64, number, len],
    )
}

// A line, and what makes it malformed: a leading zero, no end, a head in upper case, no text.
fn reading(rt: &impl Print) -> io::Result<()> {
    read(
        rt,
        b"cell=0 life=0 count=0 rain=50800 irrig=0 septic=1000 etmin=2000 pet=5000 amc=2 head=410c0000\n",
    )?;
    read(
        rt,
        b"cell=0 life=0 count=0 rain=050800 irrig=0 septic=1000 etmin=2000 pet=5000 amc=2 head=410c0000\n",
    )?;
    read(
        rt,
        b"cell=0 life=0 count=0 rain=50800 irrig=0 septic=1000 etmin=2000 pet=5000 amc=2 head=410c0000",
    )?;
    read(
        rt,
        b"cell=0 life=0 count=0 rain=50800 irrig=0 septic=1000 etmin=2000 pet=5000 amc=2 head=410C0000\n",
    )?;
    read(rt, b"")
}

// A number that just fits 32 bits, with text after its line, and one that does not.
fn numbers(rt: &impl Print) -> io::Result<()> {
    read(
        rt,
        b"cell=4294967295 life=0 count=0 rain=0 irrig=0 septic=0 etmin=0 pet=0 amc=0 head=7f800001\ncell=\n",
    )?;
    read(
        rt,
        b"cell=4294967296 life=0 count=0 rain=0 irrig=0 septic=0 etmin=0 pet=0 amc=0 head=7f800001\ncell=\n",
    )
}

pub fn cases(rt: &impl Print) -> io::Result<()> {
    reading(rt)?;
    numbers(rt)?;
    let mut exact = [0u8; 93];
    let mut short = [0u8; 92];
    write(rt, &mut exact)?;
    write(rt, &mut short)
}
