// An entry and an outbox as rows of numbers, there and back.
ghost use Rattle.std.specs.Prelude.{◌≡◌, cond};
ghost use Rattle.node.specs.Numbers.{zeros, is_entry, entry_from, entry_numbers, all_entries, box_from, box_numbers};

use cell::{Entry, Notice};
use outbox::Outbox;

// Each number is 0.
fn all_zero(l: &[u32]) -> bool
    ensures { result ≡ zeros l.now }
{
    l.iter().all(|n| *n == 0)
}

// A reading, or a void with nothing behind its notice.
pub fn entry_from(l: &[u32; 11]) -> Option<Entry>
    ensures { result ≡ cond (is_entry l.now) (Some (entry_from l.now)) None }
{
    let row = l.last_chunk::<10>()?;
    match l[0] {
        0 => Some(Entry::Reading(shapes::reading_from(row))),
        1 => {
            let notice = row.first_chunk::<3>()?;
            if all_zero(&l[4..]) {
                Some(Entry::Void(shapes::notice_from(notice)))
            } else {
                None
            }
        }
        _ => None,
    }
}

#[tactic(auto, unfolding(crate::specs::Numbers::entry_numbers))]
pub fn entry_numbers(e: Entry) -> [u32; 11]
    ensures { result ≡ entry_numbers e }
{
    let mut out = [0; 11];
    match e {
        Entry::Reading(r) => out[1..].copy_from_slice(&shapes::reading_numbers(r)),
        Entry::Void(n) => {
            out[0] = 1;
            out[1..4].copy_from_slice(&shapes::notice_numbers(n));
        }
    }
    out
}

// An outbox, where each of its places is an entry.
pub fn box_from(l: &[u32; 334]) -> Option<Outbox>
    ensures { result ≡ cond (all_entries l.now) (Some (box_from l.now)) None }
{
    let none = Entry::Void(Notice {
        cell: 0,
        life: 0,
        count: 0,
    });
    let mut places = [none; 30];
    let (rows, _) = l[4..].as_chunks::<11>();
    for (i, row) in rows.iter().enumerate() {
        let entry = entry_from(row)?;
        places[i] = entry;
    }
    Some(Outbox {
        cell: l[0],
        life: l[1],
        next: l[2],
        held: l[3],
        places,
    })
}

pub fn put_box(b: &Outbox, out: &mut [u32; 334])
    ensures { out.new ≡ box_numbers b.now }
{
    out[..4].copy_from_slice(&[b.cell, b.life, b.next, b.held]);
    for (i, e) in b.places.iter().enumerate() {
        let from = 4 + 11 * i;
        out[from..from + 11].copy_from_slice(&entry_numbers(*e));
    }
}
