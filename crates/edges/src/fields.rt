// Number 8: the other fields of a reading, but for rain. What decides how much plants take of the day's own water.
use crate::{plots, show};
use std::io;

// A reading of these waters, needs of the plants and wetness before, given to the example's plot.
fn day(
    rt: &impl Print,
    rain: u32,
    irrig: u32,
    septic: u32,
    etmin: u32,
    pet: u32,
    amc: u32,
) -> io::Result<()> {
    show::form(
        rt,
        b"rain=# irrig=# septic=# etmin=# pet=# amc=#",
        &[rain, irrig, septic, etmin, pet, amc].map(u64::from),
    )?;
    let mut r = plots::reading();
    r.rain = rain;
    r.irrig = irrig;
    r.septic = septic;
    r.etmin = etmin;
    r.pet = pet;
    r.amc = amc;
    show::reading(rt, r)
}

pub fn cases(rt: &impl Print) -> io::Result<()> {
    // The ends of the ranges.
    day(rt, 50800, 1000000, 1000, 2000, 5000, 2)?;
    day(rt, 50800, 1000001, 1000, 2000, 5000, 2)?;
    day(rt, 50800, 0, 1000000, 2000, 5000, 2)?;
    day(rt, 50800, 0, 1000001, 2000, 5000, 2)?;
    day(rt, 50800, 0, 1000, 2000, 1000000, 2)?;
    day(rt, 50800, 0, 1000, 2000, 1000001, 2)?;
    day(rt, 50800, 0, 1000, 1000000, 1000000, 2)?;
    day(rt, 50800, 0, 1000, 1000001, 1000001, 2)?;
    day(rt, 50800, 0, 1000, 5000, 5000, 2)?;
    day(rt, 50800, 0, 1000, 5001, 5000, 2)?;
    day(rt, 50800, 0, 1000, 2000, 5000, 0)?;
    day(rt, 50800, 0, 1000, 2000, 5000, 1)?;
    day(rt, 50800, 0, 1000, 2000, 5000, 3)?;
    day(rt, 50800, 0, 1000, 2000, 5000, 4)?;
    // Etvad with irrigation: G - runoff beside etmin + irrig, etmin + irrig beside pet, G - runoff beside pet.
    day(rt, 1999, 500, 1000, 2000, 5000, 2)?;
    day(rt, 2000, 500, 1000, 2000, 5000, 2)?;
    day(rt, 2001, 500, 1000, 2000, 5000, 2)?;
    day(rt, 50800, 2999, 1000, 2000, 5000, 2)?;
    day(rt, 50800, 3000, 1000, 2000, 5000, 2)?;
    day(rt, 50800, 3001, 1000, 2000, 5000, 2)?;
    day(rt, 1000, 3999, 1000, 2000, 5000, 2)?;
    day(rt, 1000, 4000, 1000, 2000, 5000, 2)?;
    day(rt, 1000, 4001, 1000, 2000, 5000, 2)
}
