// Numbers 9 and 10: the head. Drain, where the water table stands over the top.
use crate::{plots, show};
use std::io;

// The example's reading with this rain, at the head of these bits.
fn at(rt: &impl Print, bits: u32, rain: u32) -> io::Result<()> {
    print!(rt; "head={bits:08x}")?;
    show::form(rt, b" rain=#", &[u64::from(rain)])?;
    let mut r = plots::reading_at(bits);
    r.rain = rain;
    show::reading(rt, r)
}

pub fn cases(rt: &impl Print) -> io::Result<()> {
    // Sizes up to 10,000 metres; infinities, and bits that are no number.
    at(rt, 0x461c_4000, 50800)?;
    at(rt, 0x461c_4001, 50800)?;
    at(rt, 0xc61c_4000, 50800)?;
    at(rt, 0xc61c_4001, 50800)?;
    at(rt, 0x7f80_0000, 50800)?;
    at(rt, 0xff80_0000, 50800)?;
    at(rt, 0x7f80_0001, 50800)?;
    at(rt, 0x7fc0_0000, 50800)?;
    // The marks of an inactive and of a dry head, and the bits beside them.
    at(rt, 0x7149_f2c9, 50800)?;
    at(rt, 0x7149_f2ca, 50800)?;
    at(rt, 0x7149_f2cb, 50800)?;
    at(rt, 0xf149_f2c9, 50800)?;
    at(rt, 0xf149_f2ca, 50800)?;
    at(rt, 0xf149_f2cb, 50800)?;
    // The water table at the top, and half a metre over it.
    at(rt, 0x4120_0000, 0)?;
    at(rt, 0x4128_0000, 0)
}
