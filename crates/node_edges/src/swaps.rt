// Battery swaps: 14 for a life that is not higher, or past the last.
use crate::{adds, show};
use std::io;

pub fn cases(rt: &impl Print) -> io::Result<()> {
    let b = adds::one_in(3);
    show::after(rt, "swap to life 2", b, |b| b.swap(2))?;
    show::after(rt, "swap to life 3", b, |b| b.swap(3))?;
    show::after(rt, "swap to life 4", b, |b| b.swap(4))?;
    let last = show::after(rt, "swap to life 65535", b, |b| b.swap(65535))?;
    show::after(rt, "swap to life 65536", b, |b| b.swap(65536))?;
    show::after(rt, "and then to life 65535", last, |b| b.swap(65535))?;
    Ok(())
}
