// Number 11: what a sheet takes.
use crate::show;
use cell::{Amounts, Answer, Net, Refusal, Water};
use site::Sheet;
use std::io;

// The line of a sheet.
fn sheet(rt: &impl Print, sheet: Sheet) -> io::Result<()> {
    let mut buf = [0u8; 300];
    let written = text::print::sheet(sheet, &mut buf);
    show::line(rt, &buf, written)
}

// An answer, added to a sheet.
fn add(rt: &impl Print, before: Sheet, answer: Answer) -> io::Result<()> {
    print!(rt; "sheet: ")?;
    sheet(rt, before)?;
    print!(rt; "  answer: ")?;
    show::answer(rt, 0, answer)?;
    let added = before.add(answer);
    show::form(rt, b"  added: code=# ", &[u64::from(added.number)])?;
    sheet(rt, added.sheet)
}

// A sheet of so many steps whose other sums are 0.
fn sheet_of(steps: u64, inflow: u64, recharge: i64) -> Sheet {
    Sheet {
        steps,
        inflow: Water(inflow),
        recharge: Net(recharge),
        ..Sheet::default()
    }
}

// An accepted answer whose other amounts are 0.
fn step_of(inflow: u64, recharge: i64, left: u64) -> Answer {
    Ok(Amounts {
        inflow: Water(inflow),
        recharge: Net(recharge),
        left: Water(left),
        ..Amounts::default()
    })
}

// An accepted answer, added to a sheet of so many steps with this sum of inflow and of recharge.
fn next(
    rt: &impl Print,
    steps: u64,
    sum: u64,
    net: i64,
    inflow: u64,
    recharge: i64,
    left: u64,
) -> io::Result<()> {
    add(
        rt,
        sheet_of(steps, sum, net),
        step_of(inflow, recharge, left),
    )
}

pub fn cases(rt: &impl Print) -> io::Result<()> {
    add(rt, sheet_of(3, 500, -200), Err(Refusal::Old))?;
    add(rt, Sheet::new(), step_of(100, -40, 60))?;
    // Amounts: 30,000,000,000 is the most, `left` included.
    next(rt, 0, 0, 0, 30000000000, 0, 0)?;
    next(rt, 0, 0, 0, 30000000001, 0, 0)?;
    next(rt, 0, 0, 0, 0, -30000000000, 0)?;
    next(rt, 0, 0, 0, 0, -30000000001, 0)?;
    next(rt, 0, 0, 0, 0, 0, 30000000000)?;
    next(rt, 0, 0, 0, 0, 0, 30000000001)?;
    // Steps below 100,000,000, and sums of at most 30,000,000,000 for each.
    next(rt, 99999999, 0, 0, 100, -40, 60)?;
    next(rt, 100000000, 0, 0, 100, -40, 60)?;
    next(rt, 2, 60000000000, 0, 100, -40, 60)?;
    next(rt, 2, 60000000001, 0, 100, -40, 60)?;
    next(rt, 2, 0, -60000000000, 100, -40, 60)?;
    next(rt, 2, 0, -60000000001, 100, -40, 60)?;
    next(rt, 0, 1, 0, 100, -40, 60)
}
