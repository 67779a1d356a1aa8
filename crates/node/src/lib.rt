// The static library of a node: the calls that a host in C or Rust makes of an outbox. include/outbox.h says what each number means.
#![tactic(auto)]

ghost use Rattle.std.specs.Prelude.{true};
ghost use Rattle.outbox.specs.Outbox.{given, number_of};
ghost use Rattle.node.specs.Calls.{GivesBox, Freshens, Adds, Replaces, Acknowledges, Swaps, Offers};

use outbox::{Outbox, Refusal};

mod numbers;

// The number of a call whose rows are ill shaped.
const ILL_SHAPED: u32 = 255;

// The number of a call that finds an outbox empty.
const EMPTY: u32 = 254;

// An empty outbox of a cell.
#[unsafe(no_mangle)]
pub extern "C" fn outbox_fresh(cell: u32, outbox: &mut [u32]) -> u32
    ensures { Freshens cell outbox.old result outbox.new }
{
    let Some(outbox) = outbox.as_mut_array::<334>() else {
        return ILL_SHAPED;
    };
    match Outbox::fresh(cell) {
        Ok(b) => keep(Ok(()), &b, outbox),
        Err(_) => u32::from(Refusal::NotNext),
    }
}

// Offers the oldest entry.
#[unsafe(no_mangle)]
pub extern "C" fn outbox_offer(outbox: &[u32], entry: &mut [u32]) -> u32
    ensures { Offers outbox.now entry.old result entry.new }
{
    let Some(outbox) = outbox.as_array::<334>() else {
        return ILL_SHAPED;
    };
    let Some(entry) = entry.as_mut_array::<11>() else {
        return ILL_SHAPED;
    };
    *entry = [0; 11];
    let Some(b) = numbers::box_from(outbox) else {
        return u32::from(Refusal::BadForm);
    };
    match b.offer() {
        Ok(Some(e)) => {
            *entry = numbers::entry_numbers(e);
            0
        }
        Ok(None) => EMPTY,
        Err(why) => u32::from(why),
    }
}

// Takes a new entry.
#[unsafe(no_mangle)]
pub extern "C" fn outbox_add(outbox: &mut [u32], entry: &[u32]) -> u32
    ensures { Adds outbox.old entry.now result outbox.new }
{
    let Some(outbox) = outbox.as_mut_array::<334>() else {
        return ILL_SHAPED;
    };
    let Some(entry) = entry.as_array::<11>() else {
        return ILL_SHAPED;
    };
    let Some(e) = numbers::entry_from(entry) else {
        return ILL_SHAPED;
    };
    let Some(mut b) = numbers::box_from(outbox) else {
        return u32::from(Refusal::BadForm);
    };
    let answer = b.add(e);
    keep(answer, &b, outbox)
}

// Puts a void in place of the oldest.
#[unsafe(no_mangle)]
pub extern "C" fn outbox_replace(outbox: &mut [u32]) -> u32
    ensures { Replaces outbox.old result outbox.new }
{
    let Some(outbox) = outbox.as_mut_array::<334>() else {
        return ILL_SHAPED;
    };
    let Some(mut b) = numbers::box_from(outbox) else {
        return u32::from(Refusal::BadForm);
    };
    match b.replace() {
        Ok(true) => keep(Ok(()), &b, outbox),
        Ok(false) => EMPTY,
        Err(why) => u32::from(why),
    }
}

// Takes an acknowledgement: the gateway's life and next count.
#[unsafe(no_mangle)]
pub extern "C" fn outbox_acknowledge(outbox: &mut [u32], life: u32, next: u32) -> u32
    ensures { Acknowledges outbox.old life next result outbox.new }
{
    let Some(outbox) = outbox.as_mut_array::<334>() else {
        return ILL_SHAPED;
    };
    let Some(mut b) = numbers::box_from(outbox) else {
        return u32::from(Refusal::BadForm);
    };
    let answer = b.acknowledge(life, next);
    keep(answer, &b, outbox)
}

// A battery swap: empties it and starts a higher life.
#[unsafe(no_mangle)]
pub extern "C" fn outbox_swap(outbox: &mut [u32], life: u32) -> u32
    ensures { Swaps outbox.old life result outbox.new }
{
    let Some(outbox) = outbox.as_mut_array::<334>() else {
        return ILL_SHAPED;
    };
    let Some(mut b) = numbers::box_from(outbox) else {
        return u32::from(Refusal::BadForm);
    };
    let answer = b.swap(life);
    keep(answer, &b, outbox)
}

// Writes the outbox that a call took or made; a refused one stays as it came.
fn keep(answer: Result<(), Refusal>, b: &Outbox, outbox: &mut [u32; 334]) -> u32
    ensures { GivesBox true (given b.now (number_of answer)) outbox.old result outbox.new }
{
    match answer {
        Ok(()) => {
            numbers::put_box(b, outbox);
            0
        }
        Err(why) => u32::from(why),
    }
}
