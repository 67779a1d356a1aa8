// What a sum's low number cannot hold goes over to its high number.
use crate::days;
use std::io;

pub fn cases(rt: &impl Print) -> io::Result<()> {
    // A low runoff number up to its end, and past it.
    days::under(rt, 50800, 4294953008, 0)?;
    days::under(rt, 50800, 4294953009, 0)?;
    days::under(rt, 12953, 4294967295, 0)?;
    // From the last high number but one, whose low number is at its end.
    days::under(rt, 50800, 999999997191651327, 0)?;
    // A low drainage number.
    days::over(rt, 0, 0, 4294917295)?;
    days::over(rt, 0, 0, 4294917296)?;
    // Both, at their end; under a high number of 0, then of 9 and of 5.
    days::over(rt, 50800, 4294967295, 4294967295)?;
    days::over(rt, 50800, 42949672959, 25769803775)
}
