// A reading as text: one line.
ghost use Rattle.std.specs.Prelude.{◌≡◌};
ghost use Rattle.text.specs.Readings.{text_of, read_reading, reading_given, fields_of, vals_of, reading_checks};
ghost use Rattle.text.specs.Written.{Writes, written_given};

use crate::{Read, Unread, Unwritten, put_line, read_line};
use cell::Reading;
use form::words::word_at;
use head::Carried;

const READING: [u8; 73] =
    *b"cell=# life=# count=# rain=# irrig=# septic=# etmin=# pet=# amc=# head=%\n";

// The reading of a line's values.
fn to_reading(v: &[i64; 10]) -> Reading
    ensures { result ≡ fields_of v.now }
{
    let h = head::from_pattern(word_at(v, 9));
    Reading {
        cell: word_at(v, 0),
        life: word_at(v, 1),
        count: word_at(v, 2),
        rain: word_at(v, 3),
        irrig: word_at(v, 4),
        septic: word_at(v, 5),
        etmin: word_at(v, 6),
        pet: word_at(v, 7),
        amc: word_at(v, 8),
        head: h.value,
        nan: h.nan,
    }
}

// Reads a reading's line at the start of s.
pub fn read(s: &[u8]) -> Result<Read<Reading>, Unread>
    ensures { reading_given result ≡ read_reading s.now }
{
    let line = read_line::<10>(s, &READING)?;
    Ok(Read {
        taken: line.taken,
        value: to_reading(&line.value),
    })
}

// The values of a reading's line.
fn reading_values(r: Reading) -> [i64; 10]
    ensures { result ≡ vals_of r }
{
    let bits = head::pattern_of(Carried {
        value: r.head,
        nan: r.nan,
    });
    [
        r.cell, r.life, r.count, r.rain, r.irrig, r.septic, r.etmin, r.pet, r.amc, bits,
    ]
    .map(i64::from)
}

// Writes a reading's line at the start of buf.
pub fn write(r: Reading, buf: &mut [u8]) -> Result<usize, Unwritten>
    ensures { Writes (reading_checks r buf.old) (text_of r) buf.old (written_given result) buf.new }
{
    put_line(&READING, &reading_values(r), buf)
}
