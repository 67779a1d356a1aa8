// Rain: the end of its range, number 8, and [7] a jammed bucket, number 17, which comes after every other field and before the head.
use crate::{plots, show};
use std::io;

// The example's reading with this rain and etmin, at the head of these bits.
fn storm(rt: &impl Print, rain: u32, etmin: u32, bits: u32) -> io::Result<()> {
    show::form(rt, b"rain=# etmin=# head=", &[rain, etmin].map(u64::from))?;
    print!(rt; "{bits:08x}")?;
    let mut r = plots::reading_at(bits);
    r.rain = rain;
    r.etmin = etmin;
    show::reading(rt, r)
}

// A day of the example's plot: its reading with this count and rain.
fn day(rt: &impl Print, what: &str, rows: &mut [u32], count: u32, rain: u32) -> io::Result<()> {
    let soil = plots::soil();
    let mut r = plots::reading();
    r.count = count;
    r.rain = rain;
    print!(rt; "{what}")?;
    show::step(rt, plots::card(), &soil, rows, r)
}

// A bucket that jams: its reading is refused, the next day's is a gap, the day's reading as it should have been is accepted, and so is the next day's.
fn jammed(rt: &impl Print) -> io::Result<()> {
    let mut rows = [0u32; 36];
    day(rt, "a jammed bucket", &mut rows, 0, 940000)?;
    day(rt, "the next day", &mut rows, 1, 50800)?;
    day(rt, "the jammed day, mended", &mut rows, 0, 50800)?;
    day(rt, "the next day", &mut rows, 1, 50800)
}

pub fn cases(rt: &impl Print) -> io::Result<()> {
    storm(rt, 600000, 2000, 0x410c_0000)?;
    storm(rt, 600001, 2000, 0x410c_0000)?;
    storm(rt, 1000000, 2000, 0x410c_0000)?;
    storm(rt, 1000001, 2000, 0x410c_0000)?;
    // Beside an etmin above pet, a head that is unusable and one that is inactive.
    storm(rt, 600001, 5001, 0x410c_0000)?;
    storm(rt, 600000, 2000, 0x461c_4001)?;
    storm(rt, 600001, 2000, 0x461c_4001)?;
    storm(rt, 600000, 2000, 0x7149_f2ca)?;
    storm(rt, 600001, 2000, 0x7149_f2ca)?;
    jammed(rt)
}
