// The form of an outbox.
ghost use Rattle.std.specs.Prelude.{◌≡◌, ◌≤◌, drop};
ghost use Rattle.cell.specs.Ranges.{notice_of};
ghost use Rattle.outbox.specs.Outbox.{is_zero, is_spare, held_of, oldest_of, in_turn, all_spare, form_ok};

use crate::Outbox;
use cell::{Entry, Notice, Reading};
use head::Carried;

// The cell, life and count that an entry names.
pub fn notice_of(e: Entry) -> Notice
    ensures { result ≡ notice_of e }
{
    match e {
        Entry::Reading(r) => Notice {
            cell: r.cell,
            life: r.life,
            count: r.count,
        },
        Entry::Void(n) => n,
    }
}

// All of a reading is zero, the head's bits too.
#[tactic(auto, unfolding(crate::specs::Outbox::is_zero))]
fn is_zero(r: Reading) -> bool
    ensures { result ≡ is_zero r }
{
    let bits = head::pattern_of(Carried {
        value: r.head,
        nan: r.nan,
    });
    let own = (r.cell == 0) & (r.life == 0) & (r.count == 0);
    let water = (r.rain == 0) & (r.irrig == 0) & (r.septic == 0);
    let plants = (r.etmin == 0) & (r.pet == 0) & (r.amc == 0);
    own & water & plants & (bits == 0)
}

// A place that holds this entry is spare.
fn is_spare(e: Entry) -> bool
    ensures { result ≡ is_spare e }
{
    match e {
        Entry::Reading(r) => is_zero(r),
        Entry::Void(_) => false,
    }
}

// The entries held are the outbox's own, their counts running up to the next one.
fn in_turn(b: &Outbox) -> bool
    requires { (b.now.held ≤ 30) × (b.now.held ≤ b.now.next) × (b.now.next ≤ 1000000) }
    ensures { result ≡ in_turn b.now.cell b.now.life (oldest_of b.now) (held_of b.now) }
{
    let mut due = Notice {
        cell: b.cell,
        life: b.life,
        count: b.next - b.held,
    };
    for e in &b.places[..b.held as usize] {
        if notice_of(*e) != due {
            return false;
        }
        due.count += 1;
    }
    true
}

// The room behind the entries held is spare.
fn rest_spare(b: &Outbox) -> bool
    requires { b.now.held ≤ 30 }
    ensures { result ≡ all_spare (drop b.now.held b.now.places) }
{
    b.places[b.held as usize..].iter().all(|e| is_spare(*e))
}

pub fn form_ok(b: &Outbox) -> bool
    ensures { result ≡ form_ok b.now }
{
    let own = (b.cell <= 255) & (b.life <= 65535) & (b.next <= 1000000);
    let numbers = own & (b.held <= 30) & (b.held <= b.next);
    numbers && in_turn(b) && rest_spare(b)
}
