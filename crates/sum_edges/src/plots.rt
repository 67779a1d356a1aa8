// The plot of document 01's example at life 3 and next count 7, with water in its slots and in its sums.
use cell::{Card, Entry, Notice, Reading};
use std::array;

// The most that a sum holds, and 1 more.
pub const FULL: u64 = 1000000000000000000;

pub const PAST: u64 = 1000000000000000001;

// The example's card, for so many plots.
pub fn card(cells: u32) -> Card {
    let mut depths = [0u32; 30];
    depths[0] = 1000000;
    depths[1] = 2000000;
    Card {
        cells,
        delays: 2,
        depths,
        share: 20,
    }
}

// Its soil numbers: top, etdepth, vadpor, leak, cn.
pub fn soil() -> [i64; 5] {
    [10000000, 1500000, 200, 100000, 80]
}

// A reading of this count, with so much rain, at the head of these bits.
pub fn reading(count: u32, rain: u32, bits: u32) -> Entry {
    let h = head::from_pattern(bits);
    Entry::Reading(Reading {
        cell: 0,
        life: 3,
        count,
        rain,
        irrig: 0,
        septic: 1000,
        etmin: 2000,
        pet: 5000,
        amc: 2,
        head: h.value,
        nan: h.nan,
    })
}

// The next void.
pub fn void() -> Entry {
    Entry::Void(Notice {
        cell: 0,
        life: 3,
        count: 7,
    })
}

// The plot's row with these sums.
pub fn row(runoff: u64, drain: u64) -> [u32; 36] {
    let mut row = [0u32; 36];
    row[0] = 3;
    row[1] = 7;
    row[2] = 100;
    row[3] = 700;
    row[32] = (runoff / 4294967296) as u32;
    row[33] = (runoff % 4294967296) as u32;
    row[34] = (drain / 4294967296) as u32;
    row[35] = (drain % 4294967296) as u32;
    row
}

// Rows of two such plots; the second is at life 4 and next count 9, its runoff sum full, its drainage sum 1 below.
pub fn two() -> [u32; 72] {
    let mut rows = [0u32; 72];
    rows[0] = 3;
    rows[1] = 7;
    rows[2] = 100;
    rows[3] = 700;
    rows[32] = 1;
    rows[33] = 5;
    rows[35] = 50000;
    rows[36] = 4;
    rows[37] = 9;
    rows[38] = 200;
    rows[39] = 800;
    rows[68] = 232830643;
    rows[69] = 2808348672;
    rows[70] = 232830643;
    rows[71] = 2808348671;
    rows
}

// A card with thirty delays, for so many plots.
pub fn deep(cells: u32) -> Card {
    Card {
        cells,
        delays: 30,
        depths: array::from_fn(|i| i as u32 + 1),
        share: 20,
    }
}

// Rows of two plots in the old form, no two numbers alike: 1 to 32, then 33 to 64.
pub fn old() -> [u32; 64] {
    array::from_fn(|i| i as u32 + 1)
}

// The same rows, moved over to the new form.
pub fn new() -> [u32; 72] {
    let from = old();
    let mut rows = [7u32; 72];
    let _ = site::grow(deep(2), &from, &mut rows);
    rows
}

// Rows with another number at one place.
pub fn with<const N: usize>(mut rows: [u32; N], place: usize, number: u32) -> [u32; N] {
    if let Some(old) = rows.get_mut(place) {
        *old = number;
    }
    rows
}
