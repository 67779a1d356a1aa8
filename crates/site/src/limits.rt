// Which answers a sheet takes, and what it is with them.
ghost use Rattle.std.specs.Prelude.{◌≡◌, true, ◌<◌};
ghost use Rattle.site.specs.Sheet.{amounts_fit, sums_within, addable, plus_of};
ghost use Rattle.site.specs.Parts.{waters_within};

use crate::Sheet;
use cell::{Amounts, Net, Water};

// The most that an amount may be in size.
const AMOUNT_LIMIT: u64 = 30000000000;

#[tactic(auto, unfolding(crate::specs::Sheet::amounts_fit))]
fn amounts_fit(a: Amounts) -> bool
    ensures { result ≡ amounts_fit a }
{
    let most = AMOUNT_LIMIT;
    a.waters_within(most) & (a.recharge.0.unsigned_abs() <= most)
}

#[tactic(auto, unfolding(crate::specs::Sheet::sums_within))]
fn sums_within(s: Sheet) -> bool
    requires { s.steps < 100000000 }
    ensures { result ≡ sums_within s.steps s }
{
    let most = AMOUNT_LIMIT * s.steps;
    s.waters_within(most) & (s.recharge.0.unsigned_abs() <= most)
}

#[tactic(auto, unfolding(crate::specs::Sheet::addable))]
pub fn takes(s: Sheet, a: Amounts) -> bool
    ensures { result ≡ addable s (Ok a) }
{
    s.steps < 100000000 && amounts_fit(a) && sums_within(s)
}

impl Sheet {
    // No sum of water is above so much; what the water tables gained, which has a sign, is not looked at.
    pub fn waters_within(self, most: u64) -> bool
        ensures { result ≡ waters_within most self }
    {
        (self.inflow.0 <= most)
            & (self.runoff.0 <= most)
            & (self.etvad.0 <= most)
            & (self.etstor.0 <= most)
            & (self.etsat.0 <= most)
            & (self.drain.0 <= most)
            & (self.release.0 <= most)
            & (self.stored.0 <= most)
    }
}

// One step more, and each amount added to its sum.
#[tactic(auto, using(crate::specs::SheetLaws::takes_in), unfolding(crate::specs::Sheet::plus_of))]
pub fn plus(s: Sheet, a: Amounts) -> Sheet
    requires { addable s (Ok a) ≡ true }
    ensures { result ≡ plus_of s a }
{
    Sheet {
        steps: s.steps + 1,
        inflow: Water(s.inflow.0 + a.inflow.0),
        runoff: Water(s.runoff.0 + a.runoff.0),
        etvad: Water(s.etvad.0 + a.etvad.0),
        etstor: Water(s.etstor.0 + a.etstor.0),
        etsat: Water(s.etsat.0 + a.etsat.0),
        drain: Water(s.drain.0 + a.drain.0),
        release: Water(s.release.0 + a.release.0),
        stored: Water(s.stored.0 + a.stored.0),
        recharge: Net(s.recharge.0 + a.recharge.0),
    }
}
