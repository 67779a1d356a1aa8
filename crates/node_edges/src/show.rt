// What is printed of a case: what was asked, the number that came back, and the outbox as it then stands.
use cell::{Entry, Notice};
use outbox::{NoSuchCell, Outbox, Refusal};
use std::io;

// The cell, life and count of an entry, after its kind.
fn entry(rt: &impl Print, e: Entry) -> io::Result<()> {
    let (kind, n) = match e {
        Entry::Reading(r) => {
            let n = Notice {
                cell: r.cell,
                life: r.life,
                count: r.count,
            };
            ("reading", n)
        }
        Entry::Void(n) => ("void", n),
    };
    print!(rt; " {kind} cell={} life={} count={}", n.cell, n.life, n.count)
}

// What an outbox offers.
pub fn offers(rt: &impl Print, b: &Outbox) -> io::Result<()> {
    match b.offer() {
        Ok(Some(e)) => entry(rt, e),
        Ok(None) => print!(rt; " empty"),
        Err(why) => print!(rt; " {}", u32::from(why)),
    }
}

// The numbers of an outbox, and what it offers.
pub fn outbox(rt: &impl Print, b: &Outbox) -> io::Result<()> {
    print!(rt; "  life={} next={} held={} offers", b.life, b.next, b.held)?;
    offers(rt, b)?;
    println!(rt)
}

fn number_of(answer: Result<(), Refusal>) -> u32 {
    match answer {
        Ok(()) => 0,
        Err(why) => u32::from(why),
    }
}

// A fresh outbox of a cell.
pub fn fresh(rt: &impl Print, what: &str, cell: u32) -> io::Result<()> {
    let (number, b) = match Outbox::fresh(cell) {
        Ok(b) => (0, b),
        Err(NoSuchCell(b)) => (u32::from(Refusal::NotNext), b),
    };
    print!(rt; "{what}: {number}")?;
    outbox(rt, &b)
}

// What a call makes of an outbox.
pub fn after<F: FnOnce(&mut Outbox) -> Result<(), Refusal>>(
    rt: &impl Print,
    what: &str,
    b: Outbox,
    call: F,
) -> io::Result<Outbox>
    requires { F.IsAlwaysCallable call }
{
    let mut b = b;
    let number = number_of(call(&mut b));
    print!(rt; "{what}: {number}")?;
    outbox(rt, &b)?;
    Ok(b)
}

// A void in place of the oldest.
pub fn replaced(rt: &impl Print, what: &str, b: Outbox) -> io::Result<Outbox> {
    let mut b = b;
    match b.replace() {
        Ok(true) => print!(rt; "{what}: 0")?,
        Ok(false) => print!(rt; "{what}: 0 empty")?,
        Err(why) => print!(rt; "{what}: {}", u32::from(why))?,
    }
    outbox(rt, &b)?;
    Ok(b)
}
