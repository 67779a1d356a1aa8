// [1] The curve numbers of dry and of wet ground: the first that show, at a listed normal number and beside it, the last five.
use crate::{plots, show};
use std::io;

// The most rain that is accepted, on ground of this wetness, given to the example's plot with this curve number.
fn storm(rt: &impl Print, cn: i64, amc: u32) -> io::Result<()> {
    show::form(rt, b"rain=600000 amc=#", &[u64::from(amc)])?;
    show::signed(rt, " cn=", cn)?;
    let soil = [10000000, 1500000, 200, 100000, cn];
    let mut r = plots::reading();
    r.rain = 600000;
    r.amc = amc;
    show::plot(rt, &soil, r)
}

// On dry ground, then on wet.
fn grounds(rt: &impl Print, cn: i64) -> io::Result<()> {
    storm(rt, cn, 1)?;
    storm(rt, cn, 3)
}

pub fn cases(rt: &impl Print) -> io::Result<()> {
    grounds(rt, 2)?;
    grounds(rt, 3)?;
    grounds(rt, 17)?;
    grounds(rt, 18)?;
    grounds(rt, 74)?;
    grounds(rt, 75)?;
    grounds(rt, 76)?;
    grounds(rt, 80)?;
    grounds(rt, 95)?;
    grounds(rt, 96)?;
    grounds(rt, 97)?;
    grounds(rt, 99)?;
    grounds(rt, 100)
}
