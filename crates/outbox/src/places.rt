// The 30 places of an outbox.
ghost use Rattle.std.specs.Prelude.{◌≡◌, [], ◌≤◌, drop, take};
ghost use Rattle.outbox.specs.Outbox.{spare, padded, box_of};

use crate::Outbox;
use cell::{Entry, Reading};

// Spare room.
fn spare() -> Entry
    ensures { result ≡ spare }
{
    let none = head::from_pattern(0);
    Entry::Reading(Reading {
        cell: 0,
        life: 0,
        count: 0,
        rain: 0,
        irrig: 0,
        septic: 0,
        etmin: 0,
        pet: 0,
        amc: 0,
        head: none.value,
        nan: none.nan,
    })
}

// An outbox that holds nothing.
#[tactic(auto, unfolding(crate::specs::Outbox::box_of, crate::specs::Outbox::padded))]
pub fn empty(cell: u32, life: u32) -> Outbox
    ensures { result ≡ box_of cell life 0 [] }
{
    Outbox {
        cell,
        life,
        next: 0,
        held: 0,
        places: [spare(); 30],
    }
}

// Moves the entries in places `first` to `held` - 1 to the start; the room behind them is spare.
pub fn keep(places: &mut [Entry; 30], first: usize, held: usize)
    requires { (first ≤ held) × (held ≤ 30) }
    ensures { places.new ≡ padded (drop first (take held places.old)) }
{
    places.copy_within(first..held, 0);
    places[held - first..].fill(spare());
}
