// Acknowledgements, and voids in place of the oldest.
use crate::{adds, show};
use std::io;

// Both sides of each end of the counts that remove entries, where those from 2 to 4 are held.
fn counts(rt: &impl Print) -> io::Result<()> {
    let b = show::after(rt, "five made, life 0, next 2", adds::holding(5), |b| {
        b.acknowledge(0, 2)
    })?;
    show::after(rt, "life 0, next 1", b, |b| b.acknowledge(0, 1))?;
    show::after(rt, "life 0, next 2", b, |b| b.acknowledge(0, 2))?;
    show::after(rt, "life 0, next 3", b, |b| b.acknowledge(0, 3))?;
    show::after(rt, "life 0, next 5", b, |b| b.acknowledge(0, 5))?;
    show::after(rt, "life 0, next 6", b, |b| b.acknowledge(0, 6))?;
    Ok(())
}

// Another life changes nothing.
fn lives(rt: &impl Print) -> io::Result<()> {
    let b = adds::one_in(3);
    show::after(rt, "life 2, next 1", b, |b| b.acknowledge(2, 1))?;
    show::after(rt, "life 3, next 1", b, |b| b.acknowledge(3, 1))?;
    show::after(rt, "life 4, next 1", b, |b| b.acknowledge(4, 1))?;
    show::after(rt, "life 0, next 1", b, |b| b.acknowledge(0, 1))?;
    Ok(())
}

// A void in place of the oldest, again, and of none; then the room of those heard is used again.
fn voids(rt: &impl Print) -> io::Result<()> {
    let b = show::replaced(rt, "two held, replaced", adds::holding(2))?;
    let b = show::replaced(rt, "replaced again", b)?;
    let b = show::after(rt, "life 0, next 2", b, |b| b.acknowledge(0, 2))?;
    let b = show::replaced(rt, "none held, replaced", b)?;
    show::after(rt, "the next", b, |b| b.add(adds::reading(7, 0, 2)))?;
    Ok(())
}

pub fn cases(rt: &impl Print) -> io::Result<()> {
    counts(rt)?;
    lives(rt)?;
    voids(rt)
}
