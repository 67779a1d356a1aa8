// The plot of document 01's example, which each case changes in one place.
ghost use Rattle.std.specs.Prelude.{◌≡◌, []};
ghost use Rattle.text.specs.Cards.{no_card};
ghost use Rattle.text.specs.Readings.{fields_of};
ghost use Rattle.edges.specs.Plots.{depths_of, metre_by_metre, card_of, bare_card, soil_numbers, reading_at};

use cell::{Card, Reading};

// Two delay depths; the 28 places after them hold 0.
pub fn depths(first: u32, second: u32) -> [u32; 30]
    ensures { result ≡ depths_of first second }
{
    let mut d = [0u32; 30];
    d[0] = first;
    d[1] = second;
    d
}

// A depth in each of the 30 places, one metre below the last.
pub fn full_depths() -> [u32; 30]
    ensures { result ≡ metre_by_metre 30 1000000 }
{
    [
        1000000, 2000000, 3000000, 4000000, 5000000, 6000000, 7000000, 8000000, 9000000, 10000000,
        11000000, 12000000, 13000000, 14000000, 15000000, 16000000, 17000000, 18000000, 19000000,
        20000000, 21000000, 22000000, 23000000, 24000000, 25000000, 26000000, 27000000, 28000000,
        29000000, 30000000,
    ]
}

// The example's card, for so many plots and with so many delays.
pub fn card_of(cells: u32, delays: u32) -> Card
    ensures { result ≡ card_of cells delays }
{
    let depths = depths(1000000, 2000000);
    Card {
        cells,
        delays,
        depths,
        share: 20,
    }
}

// The example's card.
pub fn card() -> Card
    ensures { result ≡ card_of 1 2 }
{
    card_of(1, 2)
}

// The card of one plot without delays.
pub fn card_without_delays() -> Card
    ensures { result ≡ bare_card }
{
    let depths = depths(0, 0);
    Card {
        cells: 1,
        delays: 0,
        depths,
        share: 20,
    }
}

// Its soil numbers: top, etdepth, vadpor, leak, cn.
pub fn soil() -> [i64; 5]
    ensures { result ≡ soil_numbers }
{
    [10000000, 1500000, 200, 100000, 80]
}

// Its first reading, at the head of these bits.
pub fn reading_at(bits: u32) -> Reading
    ensures { result ≡ reading_at bits }
{
    let h = head::from_pattern(bits);
    Reading {
        cell: 0,
        life: 0,
        count: 0,
        rain: 50800,
        irrig: 0,
        septic: 1000,
        etmin: 2000,
        pet: 5000,
        amc: 2,
        head: h.value,
        nan: h.nan,
    }
}

// Its first reading.
pub fn reading() -> Reading
    ensures { result ≡ reading_at 0x410c0000 }
{
    reading_at(0x410c_0000)
}

// A card and a reading of zeros, which a refused reader stands for.
pub fn no_card() -> Card
    ensures { result ≡ no_card }
{
    Card {
        cells: 0,
        share: 0,
        ..card_without_delays()
    }
}

pub fn no_reading() -> Reading
    ensures { result ≡ fields_of [] }
{
    Reading {
        rain: 0,
        septic: 0,
        etmin: 0,
        pet: 0,
        amc: 0,
        ..reading_at(0)
    }
}
