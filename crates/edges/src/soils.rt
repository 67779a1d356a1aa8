// Number 4: the soil numbers. What the depth of the water table decides: delay, etsat and drain.
use crate::{plots, show};
use std::io;

// The example's reading with this rain, whose level is 8,750,000, given to a plot of these soil numbers.
fn plot(
    rt: &impl Print,
    top: i64,
    etdepth: i64,
    vadpor: i64,
    leak: i64,
    cn: i64,
    rain: u32,
) -> io::Result<()> {
    show::form(rt, b"rain=#", &[u64::from(rain)])?;
    show::signed(rt, " top=", top)?;
    show::signed(rt, " etdepth=", etdepth)?;
    show::signed(rt, " vadpor=", vadpor)?;
    show::signed(rt, " leak=", leak)?;
    show::signed(rt, " cn=", cn)?;
    let soil = [top, etdepth, vadpor, leak, cn];
    let mut r = plots::reading();
    r.rain = rain;
    show::plot(rt, &soil, r)
}

// Number 4: both sides of each end.
fn ranges(rt: &impl Print) -> io::Result<()> {
    // The ends of the range of tops, and of the numbers of 64 bits.
    plot(rt, -9223372036854775808, 1500000, 200, 100000, 80, 50800)?;
    plot(rt, -9223372036854775807, 1500000, 200, 100000, 80, 50800)?;
    plot(rt, -10000000001, 1500000, 200, 100000, 80, 50800)?;
    plot(rt, -10000000000, 1500000, 200, 100000, 80, 50800)?;
    plot(rt, 10000000000, 1500000, 200, 100000, 80, 50800)?;
    plot(rt, 10000000001, 1500000, 200, 100000, 80, 50800)?;
    plot(rt, 9223372036854775806, 1500000, 200, 100000, 80, 50800)?;
    plot(rt, 9223372036854775807, 1500000, 200, 100000, 80, 50800)?;
    // The ends of the other ranges.
    plot(rt, 10000000, 0, 200, 100000, 80, 50800)?;
    plot(rt, 10000000, 1, 200, 100000, 80, 50800)?;
    plot(rt, 10000000, 100000000, 200, 100000, 80, 50800)?;
    plot(rt, 10000000, 100000001, 200, 100000, 80, 50800)?;
    plot(rt, 10000000, 1500000, 0, 100000, 80, 50800)?;
    plot(rt, 10000000, 1500000, 1, 100000, 80, 50800)?;
    plot(rt, 10000000, 1500000, 1000, 100000, 80, 50800)?;
    plot(rt, 10000000, 1500000, 1001, 100000, 80, 50800)?;
    plot(rt, 10000000, 1500000, 200, -1, 80, 50800)?;
    plot(rt, 10000000, 1500000, 200, 0, 80, 50800)?;
    plot(rt, 10000000, 1500000, 200, 1000000, 80, 50800)?;
    plot(rt, 10000000, 1500000, 200, 1000001, 80, 50800)?;
    plot(rt, 10000000, 1500000, 200, 100000, 0, 50800)?;
    plot(rt, 10000000, 1500000, 200, 100000, 1, 50800)?;
    plot(rt, 10000000, 1500000, 200, 100000, 100, 50800)?;
    plot(rt, 10000000, 1500000, 200, 100000, 101, 50800)
}

// What the depth of the water table decides.
fn depths(rt: &impl Print) -> io::Result<()> {
    // Delay: the water table 1 above each delay depth, and at it.
    plot(rt, 9749999, 1500000, 200, 100000, 80, 50800)?;
    plot(rt, 9750000, 1500000, 200, 100000, 80, 50800)?;
    plot(rt, 10749999, 1500000, 200, 100000, 80, 50800)?;
    plot(rt, 10750000, 1500000, 200, 100000, 80, 50800)?;
    // Drain and etsat: the water table 10, 9 and 1 over the top, at it and 1 under it; 1 above etdepth, at it and 1 under it.
    plot(rt, 8749990, 1000, 200, 100000, 80, 0)?;
    plot(rt, 8749991, 1000, 200, 100000, 80, 0)?;
    plot(rt, 8749999, 1000, 200, 100000, 80, 0)?;
    plot(rt, 8750000, 1000, 200, 100000, 80, 0)?;
    plot(rt, 8750001, 1000, 200, 100000, 80, 0)?;
    plot(rt, 8750999, 1000, 200, 100000, 80, 0)?;
    plot(rt, 8751000, 1000, 200, 100000, 80, 0)?;
    plot(rt, 8751001, 1000, 200, 100000, 80, 0)
}

pub fn cases(rt: &impl Print) -> io::Result<()> {
    ranges(rt)?;
    depths(rt)
}
