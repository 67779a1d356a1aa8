// The records that both static libraries hand over as rows of numbers, there and back: a reading and a notice.
#![tactic(auto)]

ghost use Rattle.std.specs.Prelude.{◌≡◌};
ghost use Rattle.shapes.specs.Shapes.{reading_from, reading_numbers, notice_from, notice_numbers};

use cell::{Notice, Reading};
use head::Carried;

#[tactic(auto, unfolding(crate::specs::Shapes::reading_from))]
pub fn reading_from(l: &[u32; 10]) -> Reading
    ensures { result ≡ reading_from l.now }
{
    let [
        cell,
        life,
        count,
        rain,
        irrig,
        septic,
        etmin,
        pet,
        amc,
        bits,
    ] = *l;
    let h = head::from_pattern(bits);
    Reading {
        cell,
        life,
        count,
        rain,
        irrig,
        septic,
        etmin,
        pet,
        amc,
        head: h.value,
        nan: h.nan,
    }
}

#[tactic(auto, unfolding(crate::specs::Shapes::reading_numbers))]
pub fn reading_numbers(r: Reading) -> [u32; 10]
    ensures { result ≡ reading_numbers r }
{
    let bits = head::pattern_of(Carried {
        value: r.head,
        nan: r.nan,
    });
    [
        r.cell, r.life, r.count, r.rain, r.irrig, r.septic, r.etmin, r.pet, r.amc, bits,
    ]
}

#[tactic(auto, unfolding(crate::specs::Shapes::notice_from))]
pub fn notice_from(l: &[u32; 3]) -> Notice
    ensures { result ≡ notice_from l.now }
{
    let [cell, life, count] = *l;
    Notice { cell, life, count }
}

#[tactic(auto, unfolding(crate::specs::Shapes::notice_numbers))]
pub fn notice_numbers(n: Notice) -> [u32; 3]
    ensures { result ≡ notice_numbers n }
{
    [n.cell, n.life, n.count]
}
