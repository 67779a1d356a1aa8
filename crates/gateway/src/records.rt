// The records as rows of numbers, there and back.
ghost use Rattle.std.specs.Prelude.{◌≡◌};
ghost use Rattle.site.specs.SheetLaws.{AmountsWithin, SheetIn};
ghost use Rattle.gateway.specs.Shapes.{card_from, card_numbers, amount_numbers, amounts_from, sheet_numbers, sheet_from, signs_from, zeros, AllFit};
ghost use Rattle.gateway.specs.Calls.{is_answer};

use cell::{Amounts, Card, Net, Water};
use site::Sheet;

// The places of the recharge, the one number of a row that may be negative: among the amounts and on a sheet.
pub const AMOUNTS_RECHARGE: usize = 8;

pub const SHEET_RECHARGE: usize = 9;

#[tactic(auto, unfolding(crate::specs::Shapes::card_from))]
pub fn card_from(l: &[u32; 33]) -> Card
    ensures { result ≡ card_from l.now }
{
    let mut depths = [0; 30];
    depths.copy_from_slice(&l[2..32]);
    Card {
        cells: l[0],
        delays: l[1],
        depths,
        share: l[32],
    }
}

#[tactic(auto, unfolding(crate::specs::Shapes::card_numbers))]
pub fn card_numbers(c: Card) -> [u32; 33]
    ensures { result ≡ card_numbers c }
{
    let mut l = [0; 33];
    l[0] = c.cells;
    l[1] = c.delays;
    l[2..32].copy_from_slice(&c.depths);
    l[32] = c.share;
    l
}

#[tactic(auto, unfolding(crate::specs::Shapes::amount_numbers))]
pub fn amount_numbers(a: Amounts) -> [i64; 10]
    requires { AmountsWithin a }
    ensures { result ≡ amount_numbers a }
{
    [
        a.inflow.0 as i64,
        a.runoff.0 as i64,
        a.etvad.0 as i64,
        a.etstor.0 as i64,
        a.etsat.0 as i64,
        a.drain.0 as i64,
        a.release.0 as i64,
        a.stored.0 as i64,
        a.recharge.0,
        a.left.0 as i64,
    ]
}

#[tactic(auto, unfolding(crate::specs::Shapes::amounts_from))]
pub fn amounts_from(l: &[i64; 10]) -> Amounts
    ensures is { result ≡ amounts_from l.now }
    ensures fit { AllFit l.now }
{
    let [
        inflow,
        runoff,
        etvad,
        etstor,
        etsat,
        drain,
        release,
        stored,
        recharge,
        left,
    ] = *l;
    Amounts {
        inflow: Water(inflow.unsigned_abs()),
        runoff: Water(runoff.unsigned_abs()),
        etvad: Water(etvad.unsigned_abs()),
        etstor: Water(etstor.unsigned_abs()),
        etsat: Water(etsat.unsigned_abs()),
        drain: Water(drain.unsigned_abs()),
        release: Water(release.unsigned_abs()),
        stored: Water(stored.unsigned_abs()),
        recharge: Net(recharge),
        left: Water(left.unsigned_abs()),
    }
}

#[tactic(auto, unfolding(crate::specs::Shapes::sheet_numbers))]
pub fn sheet_numbers(s: Sheet) -> [i64; 10]
    requires { SheetIn s }
    ensures { result ≡ sheet_numbers s }
{
    [
        s.steps as i64,
        s.inflow.0 as i64,
        s.runoff.0 as i64,
        s.etvad.0 as i64,
        s.etstor.0 as i64,
        s.etsat.0 as i64,
        s.drain.0 as i64,
        s.release.0 as i64,
        s.stored.0 as i64,
        s.recharge.0,
    ]
}

#[tactic(auto, unfolding(crate::specs::Shapes::sheet_from))]
pub fn sheet_from(l: &[i64; 10]) -> Sheet
    ensures is { result ≡ sheet_from l.now }
    ensures fit { AllFit l.now }
{
    let [
        steps,
        inflow,
        runoff,
        etvad,
        etstor,
        etsat,
        drain,
        release,
        stored,
        recharge,
    ] = *l;
    Sheet {
        steps: steps.unsigned_abs(),
        inflow: Water(inflow.unsigned_abs()),
        runoff: Water(runoff.unsigned_abs()),
        etvad: Water(etvad.unsigned_abs()),
        etstor: Water(etstor.unsigned_abs()),
        etsat: Water(etsat.unsigned_abs()),
        drain: Water(drain.unsigned_abs()),
        release: Water(release.unsigned_abs()),
        stored: Water(stored.unsigned_abs()),
        recharge: Net(recharge),
    }
}

// No number is negative but the one at place k.
pub fn signs(l: &[i64; 10], k: usize) -> bool
    ensures { result ≡ signs_from 0 k l.now }
{
    l.iter().enumerate().all(|(i, z)| i == k || *z >= 0)
}

// Each number is 0.
fn all_zero(l: &[i64; 10]) -> bool
    ensures { result ≡ zeros l.now }
{
    l.iter().all(|z| *z == 0)
}

// By number and signs, a host's number and amounts can be an answer of a step.
#[tactic(auto, unfolding(crate::specs::Calls::is_answer))]
pub fn is_answer(number: u32, amounts: &[i64; 10]) -> bool
    ensures { result ≡ is_answer number amounts.now }
{
    match number {
        0 => signs(amounts, AMOUNTS_RECHARGE),
        1..=10 | 15 | 17 => all_zero(amounts),
        _ => false,
    }
}
