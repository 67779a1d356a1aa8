// Numbers and their ranges.
ghost use Rattle.std.specs.Prelude.{◌≡◌, true, false, ◌&&◌, ◌-◌, ◌*◌, ◌≤◌, leb, length, get_or, MatchResult};
ghost use Rattle.cell.specs.Parts.{held_under};
ghost use Rattle.cell.specs.Ranges.{none_of, rising_from, depths_ok, soil_ok, soil_of, slots_ok, form_ok, row_ok, fields_ok};

use crate::sums::{SUM_LIMIT, Sum};
use crate::{Card, Reading, Refusal};
use head::Height;

// The soil numbers of a cell by their names.
#[derive(Clone, Copy)]
pub struct Soil {
    pub top: Height,
    pub etdepth: u64,
    pub vadpor: u64,
    pub leak: u64,
    pub cn: u64,
}

// The number at a place; 0 past the end.
pub fn number_at(v: &[u32], i: usize) -> u32
    ensures { result ≡ get_or v.now i 0 }
{
    v.get(i).copied().unwrap_or(0)
}

// Whether all numbers are 0. It looks at each, so that several can be looked at at once.
#[tactic(auto, using(crate::proofs::Loops::none_turn, crate::proofs::Loops::none_end))]
fn none(v: &[u32]) -> bool
    ensures { result ≡ none_of v.now }
{
    let mut ok = true;
    for x in v {
        ok &= *x == 0;
    }
    ok
}

// Whether the delay depths in use rise from above 0, none above 1,000,000,000.
#[tactic(auto, using(crate::proofs::Loops::rising_turn, crate::proofs::Loops::rising_end))]
fn rising(used: &[u32]) -> bool
    ensures { result ≡ rising_from 0 used.now }
{
    let mut ok = true;
    let mut before = 0;
    for d in used {
        ok &= (before < *d) & (*d <= 1000000000);
        before = *d;
    }
    ok
}

#[tactic(auto, using(crate::proofs::Loops::rest_is), unfolding(crate::specs::Ranges::depths_ok))]
pub fn depths_ok(depths: [u32; 30], m: u32) -> bool
    requires { m ≤ 30 }
    ensures { result ≡ depths_ok m depths }
{
    let n = m as usize;
    if !rising(&depths[..n]) {
        return false;
    }
    none(&depths[n..])
}

impl Soil {
    // The soil numbers of a cell by their names, where they are five and each is in its range.
    pub fn of(s: &[i64]) -> Result<Soil, Refusal>
        ensures { MatchResult result (λ soil. (soil_ok s.now ≡ true) × (soil ≡ soil_of s.now)) (λ why. (soil_ok s.now ≡ false) × (why ≡ Refusal.BadSoil)) }
    {
        let [top, etdepth, vadpor, leak, cn] = s else {
            return Err(Refusal::BadSoil);
        };
        let fit = (-10000000000..=10000000000).contains(top)
            & (1..=100000000).contains(etdepth)
            & (1..=1000).contains(vadpor)
            & (0..=1000000).contains(leak)
            & (1..=100).contains(cn);
        if !fit {
            return Err(Refusal::BadSoil);
        }
        Ok(Soil {
            top: Height(*top),
            etdepth: etdepth.unsigned_abs(),
            vadpor: vadpor.unsigned_abs(),
            leak: leak.unsigned_abs(),
            cn: cn.unsigned_abs(),
        })
    }
}

// Whether each slot in use holds at most its limit, `most` at the first and 2,000,000 less at each after it.
#[tactic(auto, using(crate::proofs::Loops::held_turn, crate::proofs::Loops::held_end))]
fn held(used: &[u32], most: u32) -> bool
    requires { 2000000 * length used.now ≤ most }
    ensures { result ≡ held_under most used.now }
{
    let mut ok = true;
    let mut limit = most;
    for held in used {
        ok &= *held <= limit;
        limit -= 2000000;
    }
    ok
}

#[tactic(auto, using(crate::proofs::Loops::rest_is, crate::proofs::Loops::slots_split))]
fn slots_ok(slots: &[u32], m: u32) -> bool
    requires { (m ≤ 30) × (length slots.now ≡ 30) }
    ensures { result ≡ slots_ok m slots.now }
{
    let n = m as usize;
    let used = held(&slots[..n], 2000000 * m);
    let unused = none(&slots[n..]);
    used & unused
}

// The numbers of a row in any of its forms are in range, under a number of delays that is.
#[tactic(auto, unfolding(crate::specs::Ranges::form_ok, crate::specs::Ranges::life_of, crate::specs::Ranges::next_of, crate::specs::Ranges::slots_of))]
pub fn form_ok(row: &[u32], m: u32) -> bool
    ensures { result ≡ (leb m 30 && form_ok m row.now) }
{
    if 30 < m {
        return false;
    }
    if row.len() < 32 {
        return false;
    }
    let slots = slots_ok(&row[2..32], m);
    let runoff = Sum::Runoff.of(row);
    let drain = Sum::Drain.of(row);
    let most = SUM_LIMIT;
    (row[0] <= 65535) & (row[1] <= 1000000) & slots & (runoff.0 <= most) & (drain.0 <= most)
}

// A stored row is in range, under a number of delays that is.
#[tactic(auto, unfolding(crate::specs::Ranges::row_ok))]
pub fn row_ok(card: Card, row: &[u32]) -> bool
    ensures { result ≡ (leb card.delays 30 && row_ok card row.now) }
{
    if row.len() != 36 {
        return false;
    }
    form_ok(row, card.delays)
}

// The fields of a reading, but for its cell and its head, are in their ranges.
#[tactic(auto, unfolding(crate::specs::Ranges::fields_ok, crate::specs::Ranges::notice_ok))]
pub fn fields_ok(r: Reading) -> bool
    ensures { result ≡ fields_ok r }
{
    (r.life <= 65535)
        & (r.count <= 999999)
        & (r.rain <= 1000000)
        & (r.irrig <= 1000000)
        & (r.septic <= 1000000)
        & (r.etmin <= 1000000)
        & (r.pet <= 1000000)
        & (r.etmin <= r.pet)
        & (1 <= r.amc)
        & (r.amc <= 3)
}
