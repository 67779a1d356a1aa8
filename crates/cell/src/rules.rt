// The number rules of one accepted step, in the order of document 01.
ghost use Rattle.std.specs.Prelude.{◌≡◌, ◌+◌, ◌-◌, ◌*◌, ◌≤◌, max, nat_abs};
ghost use Rattle.cell.specs.Depth.{depth_of, distance};
ghost use Rattle.cell.specs.Rules.{nearest, line_of, curve_of, storm_of, reach_of, delay_of, shallow_of, runoff_of, etvad_of, lack_of, fading_of, etsat_of, drain_of, stored_of, direct_of, recharge_of};

use crate::{Card, Depth, Net, Water};
use head::Height;

pub fn depth_at(top: Height, level: Height) -> Depth
    requires { (nat_abs top.0 ≤ 10000000000) × (nat_abs level.0 ≤ 10000000000) }
    ensures { result ≡ depth_of top.0 level.0 }
{
    let d = top.0 - level.0;
    let size = d.unsigned_abs();
    if d <= 0 {
        Depth::Over(size)
    } else {
        Depth::Under(size)
    }
}

// n / d, to the nearest whole, halves up.
fn rounded(n: u64, d: u64) -> u64
    requires { (n ≤ 1000000) × (1 ≤ d) × (d ≤ 1000000) }
    ensures { result ≡ nearest n d }
{
    (2 * n + d) / (2 * d)
}

// [1] The handbook's numbers for dry ground, at the normal numbers 0, 5, 10 .. 100.
const DRY_GROUND: [u8; 21] = [
    0, 2, 4, 6, 9, 12, 15, 18, 22, 26, 31, 35, 40, 45, 51, 57, 63, 70, 78, 87, 100,
];

// And for wet ground.
const WET_GROUND: [u8; 21] = [
    0, 13, 22, 30, 37, 43, 50, 55, 60, 65, 70, 74, 78, 82, 85, 88, 91, 94, 96, 98, 100,
];

// j fifths of the way from a to b, to the nearest whole.
fn part_way(a: u8, b: u8, j: u64) -> u64
    requires { j ≤ 5 }
    ensures { result ≡ nearest ((5 - j) * a + j * b) 5 }
{
    rounded((5 - j) * u64::from(a) + j * u64::from(b), 5)
}

// What the straight line between two listed numbers gives at cn, which is j above the lower one, 5 at a listed number.
#[tactic(auto, using(crate::specs::RuleLaws::line_below))]
fn on_line(listed: [u8; 21], cn: u64) -> u64
    requires { (1 ≤ cn) × (cn ≤ 100) }
    ensures { result ≡ line_of listed cn }
{
    let below = (cn - 1) / 5;
    let j = cn - 5 * below;
    let k = below as usize;
    part_way(listed[k], listed[k + 1], j)
}

#[tactic(auto, unfolding(crate::specs::Rules::curve_of, crate::specs::Rules::dry_ground, crate::specs::Rules::wet_ground))]
pub fn curve(cn: u64, amc: u32) -> u64
    requires { (1 ≤ cn) × (cn ≤ 100) }
    ensures { result ≡ curve_of cn amc }
{
    let c = match amc {
        1 => on_line(DRY_GROUND, cn),
        3 => on_line(WET_GROUND, cn),
        _ => cn,
    };
    c.max(1)
}

// [5] With the share of the first wetting.
#[tactic(auto, unfolding(crate::specs::Rules::storm_of))]
pub fn storm(share: u64, c: u64, rain: Water) -> Water
    requires { (share ≤ 20) × (1 ≤ c) × (c ≤ 100) × (rain.0 ≤ 1000000) }
    ensures result_value { result.0 ≡ storm_of share c rain.0 }
    ensures result_le_rain { result.0 ≤ rain.0 }
{
    let p = c * rain.0;
    let s = 2540 * share * (100 - c);
    if p <= s {
        return Water(0);
    }
    let x = p - s;
    let y = p + 2540 * (100 - share) * (100 - c);
    Water(x * x / (c * y))
}

// The storm runoff on this ground, which need not be looked at on a day without rain.
#[tactic(auto, using(crate::specs::RuleLaws::storm_dry, crate::specs::RuleLaws::curve_low, crate::specs::RuleLaws::curve_high))]
pub fn storm_on(share: u64, cn: u64, amc: u32, rain: Water) -> Water
    requires { (share ≤ 20) × (1 ≤ cn) × (cn ≤ 100) × (rain.0 ≤ 1000000) }
    ensures result_value { result.0 ≡ storm_of share (curve_of cn amc) rain.0 }
    ensures result_le_rain { result.0 ≤ rain.0 }
{
    if rain.0 == 0 {
        return Water(0);
    }
    storm(share, curve(cn, amc), rain)
}

// The largest k ≤ m whose delay depth is at most n, or 0: looked for from the deepest, up to the first that is.
#[tactic(auto, using(crate::proofs::Loops::reach_hit, crate::proofs::Loops::reach_miss), unfolding(crate::specs::Rules::reach_of))]
fn reach(depths: [u32; 30], m: usize, n: u64) -> usize
    requires { m ≤ 30 }
    ensures { result ≡ reach_of depths m n }
{
    for i in (0..m).rev() {
        if u64::from(depths[i]) <= n {
            return i + 1;
        }
    }
    0
}

#[tactic(auto, using(crate::specs::RuleLaws::reach_le), unfolding(crate::specs::Rules::delay_of))]
pub fn delay(card: Card, d: Depth) -> usize
    requires { card.delays ≤ 30 }
    ensures value { result ≡ delay_of card.depths card.delays d }
    ensures upper_bound { result ≤ card.delays }
{
    match d {
        Depth::Over(_) => 0,
        Depth::Under(n) => reach(card.depths, card.delays as usize, n),
    }
}

// What of g runs off where the table is n under the ground and nothing is delayed.
#[tactic(auto, unfolding(crate::specs::Rules::shallow_of))]
fn shallow(g: Water, q: Water, vadpor: u64, n: u64) -> Water
    requires { (g.0 ≤ 2000000) × (q.0 ≤ g.0) × (vadpor ≤ 1000) × (n ≤ 20000000000) }
    ensures { result.0 ≡ shallow_of g.0 q.0 vadpor n }
{
    let part = n * vadpor;
    let whole = 1000 * g.0;
    if part < whole {
        Water(g.0 - part * (g.0 - q.0) / whole)
    } else {
        q
    }
}

#[tactic(auto, using(crate::specs::RuleLaws::shallow_le), unfolding(crate::specs::Rules::runoff_of, crate::specs::Depth::distance))]
pub fn runoff(g: Water, q: Water, k: usize, vadpor: u64, d: Depth) -> Water
    requires { (g.0 ≤ 2000000) × (q.0 ≤ g.0) × (vadpor ≤ 1000) × (distance d ≤ 20000000000) }
    ensures result_value { result.0 ≡ runoff_of g.0 q.0 k vadpor d }
    ensures result_le_g { result.0 ≤ g.0 }
{
    match d {
        Depth::Over(_) => g,
        Depth::Under(n) => { if k == 0 { shallow(g, q, vadpor, n) } else { q } }
    }
}

pub fn etvad(g: Water, runoff: Water, pet: Water, etmin: Water, irrig: Water) -> Water
    requires { (runoff.0 ≤ g.0) × (etmin.0 + irrig.0 ≤ 2000000) }
    ensures result_value { result.0 ≡ etvad_of g.0 runoff.0 pet.0 etmin.0 irrig.0 }
    ensures result_le_pet { (result.0 ≤ pet.0) × (runoff.0 + result.0 ≤ g.0) }
{
    Water((g.0 - runoff.0).min(pet.0).min(etmin.0 + irrig.0))
}

// What the plants ask of the queue.
#[tactic(auto, unfolding(crate::specs::Rules::lack_of))]
pub fn lack(etvad: Water, etmin: Water, d: Depth) -> Water
    ensures result_value { result.0 ≡ lack_of etvad.0 etmin.0 d }
    ensures result_le_etmin { (result.0 ≤ etmin.0) × (etvad.0 + result.0 ≤ max etvad.0 etmin.0) }
{
    match d {
        Depth::Over(_) => Water(0),
        Depth::Under(_) => Water(etmin.0.saturating_sub(etvad.0)),
    }
}

// The part of rest that is taken where the table is n under the ground.
#[tactic(auto, unfolding(crate::specs::Rules::fading_of))]
fn fading(rest: Water, etdepth: u64, n: u64) -> Water
    requires { (rest.0 ≤ 1000000) × (etdepth ≤ 100000000) }
    ensures { result.0 ≡ fading_of rest.0 etdepth n }
{
    if n < etdepth {
        Water((etdepth - n) * rest.0 / etdepth)
    } else {
        Water(0)
    }
}

#[tactic(auto, using(crate::specs::RuleLaws::fading_le), unfolding(crate::specs::Rules::etsat_of))]
pub fn etsat(rest: Water, etdepth: u64, d: Depth) -> Water
    requires { (rest.0 ≤ 1000000) × (etdepth ≤ 100000000) }
    ensures result_value { result.0 ≡ etsat_of rest.0 etdepth d }
    ensures result_le_rest { result.0 ≤ rest.0 }
{
    match d {
        Depth::Over(_) => rest,
        Depth::Under(n) => fading(rest, etdepth, n),
    }
}

#[tactic(auto, unfolding(crate::specs::Rules::drain_of, crate::specs::Depth::distance))]
pub fn drain(leak: u64, d: Depth) -> Water
    requires { (leak ≤ 1000000) × (distance d ≤ 20000000000) }
    ensures result_value { result.0 ≡ drain_of leak d }
    ensures result_bound { result.0 ≤ 20000000000 }
{
    match d {
        Depth::Over(n) => Water(leak * n / 1000000),
        Depth::Under(_) => Water(0),
    }
}

#[tactic(auto, unfolding(crate::specs::Rules::stored_of))]
pub fn stored(k: usize, f: Water) -> Water
    ensures result_value { result.0 ≡ stored_of k f.0 }
    ensures result_le_f { result.0 ≤ f.0 }
{
    if k == 0 { Water(0) } else { f }
}

#[tactic(auto, unfolding(crate::specs::Rules::direct_of))]
pub fn direct(k: usize, f: Water) -> Water
    ensures result_value { result.0 ≡ direct_of k f.0 }
    ensures result_le_f { result.0 ≤ f.0 }
{
    if k == 0 { f } else { Water(0) }
}

pub fn recharge(release: Water, direct: Water, septic: Water, etsat: Water, drain: Water) -> Net
    requires { (release.0 + direct.0 + septic.0 ≤ 30000000000) × (etsat.0 + drain.0 ≤ 30000000000) }
    ensures { result.0 ≡ recharge_of release.0 direct.0 septic.0 etsat.0 drain.0 }
{
    let gain = release.0 + direct.0 + septic.0;
    let loss = etsat.0 + drain.0;
    Net((gain as i64) - (loss as i64))
}
