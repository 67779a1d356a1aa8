// The waiting queue of one plot: its slots 1 to M, lent as a part of the row.
ghost use Rattle.std.specs.Prelude.{◌≡◌, ◌+◌, ◌^◌, ◌≤◌, ◌<◌, length, sum};
ghost use Rattle.cell.specs.Queue.{slot, total, shifted, taken, spared, joined};
ghost use Rattle.cell.specs.Parts.{Pulls, Putting, Puts};

use crate::Water;

// What leaves the queue in a step: slot 1 by the shift, and what the plants draw.
#[derive(Clone, Copy)]
pub struct Pulled {
    pub release: Water,
    pub drawn: Water,
}

// Slot k + 1 becomes slot k and the last becomes 0; what was in slot 1 is the result.
#[tactic(auto, using(crate::proofs::Loops::shift_is), unfolding(crate::specs::Queue::slot))]
fn shift(slots: &mut [u32]) -> Water
    ensures { (result.0 ≡ slot slots.old 1) × (slots.new ≡ shifted slots.old) }
{
    let n = slots.len();
    if n == 0 {
        return Water(0);
    }
    let first = slots[0];
    slots.copy_within(1..n, 0);
    slots[n - 1] = 0;
    Water(u64::from(first))
}

// Draws a lack from slots 1, 2, .. in that order, each as far as it goes; the result is how much there was.
fn draw(slots: &mut [u32], lack: Water) -> Water
    requires { lack.0 ≤ 1000000 }
    ensures { (result.0 ≡ total (taken lack.0 slots.old)) × (slots.new ≡ spared lack.0 slots.old) }
{
    let asked = lack.0 as u32;
    let mut want = asked;
    for slot in slots.iter_mut() {
        if want == 0 {
            break;
        }
        let held = *slot;
        *slot = held.saturating_sub(want);
        want = want.saturating_sub(held);
    }
    Water(u64::from(asked - want))
}

// f joins slot k; with k = 0 none.
#[tactic(auto, using(crate::proofs::Loops::total_elem, crate::proofs::Loops::joined_is, crate::proofs::Loops::joined_none))]
fn join(slots: &mut [u32], k: usize, f: Water)
    requires { (k ≤ length slots.old) × (total slots.old + f.0 < 2 ^ 32) }
    ensures { slots.new ≡ joined k f.0 slots.old }
{
    if let Some(i) = k.checked_sub(1) {
        slots[i] += f.0 as u32;
    }
}

// What all slots hold together.
fn waiting(slots: &[u32]) -> Water
    requires { sum slots.now < 2 ^ 32 }
    ensures { result.0 ≡ sum slots.now }
{
    let sum: u32 = slots.iter().sum();
    Water(u64::from(sum))
}

// 1 and 7: the shift, then the draw.
pub fn pull(slots: &mut [u32], lack: Water) -> Pulled
    requires { lack.0 ≤ 1000000 }
    ensures { Pulls lack.0 slots.old result slots.new }
{
    let release = shift(slots);
    let drawn = draw(slots, lack);
    Pulled { release, drawn }
}

// 10: the deposit; the result is what the queue then holds.
#[tactic(auto, using(crate::proofs::Loops::total_sum, crate::proofs::Parts::joined_few))]
pub fn put(slots: &mut [u32], k: usize, f: Water) -> Water
    requires { Putting k f.0 slots.old }
    ensures { Puts k f.0 slots.old result.0 slots.new }
{
    join(slots, k, f);
    waiting(slots)
}
