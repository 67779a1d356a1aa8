// Cards, readings, voids, answers and the sheet as text: one text each.
#![tactic(auto)]

ghost use Rattle.std.specs.Prelude.{◌≡◌, [], ◌∷◌, ◌≤◌, length};
ghost use Rattle.cell.specs.Refusals.{malformed};
ghost use Rattle.form.specs.Form.{marks, form_at, form_text};
ghost use Rattle.text.specs.Reads.{unread_number, unread_line, values_read};
ghost use Rattle.text.specs.Written.{unwritten_number, written_given, fits_in, Writes};

use form::line::{form_len, put_form, read_form};

pub mod card;
pub mod entry;
pub mod print;
pub mod reading;
pub mod void;

// What was read, and how many bytes it took.
#[derive(Clone, Copy)]
pub struct Read<T> {
    pub taken: usize,
    pub value: T,
}

// Why nothing was read: the malformed line by its number, or too few places for the soil numbers.
#[derive(Clone, Copy, PartialEq, Eq)]
pub enum Unread {
    Malformed(usize),
    ShortSoil,
}

impl Unread {
    // The malformed line's number, 0 where none is.
    pub fn line(self) -> usize
        ensures { result ≡ unread_line self }
    {
        match self {
            Unread::Malformed(line) => line,
            Unread::ShortSoil => 0,
        }
    }
}

impl From<Unread> for u32 {
    ghost from_gives = { λ e number. number ≡ unread_number e };

    fn from(e: Unread) -> u32 {
        match e {
            Unread::Malformed(_) => 12,
            Unread::ShortSoil => 2,
        }
    }
}

// Why nothing was written: no text or no room for it, or soil numbers that are not the card's.
#[derive(Clone, Copy, PartialEq, Eq)]
pub enum Unwritten {
    Unfit,
    SoilLength,
}

impl From<Unwritten> for u32 {
    ghost from_gives = { λ e number. number ≡ unwritten_number e };

    fn from(e: Unwritten) -> u32 {
        match e {
            Unwritten::Unfit => 12,
            Unwritten::SoilLength => 2,
        }
    }
}

// Reads the values of the form f, a whole line, at the start of s.
fn read_line<const W: usize>(s: &[u8], f: &[u8]) -> Result<Read<[i64; W]>, Unread>
    requires { marks f.now ≡ W }
    ensures { result ≡ values_read (form_at f.now s.now 0) }
{
    let mut v = [0i64; W];
    let taken = read_form(s, 0, f, &mut v, 0).ok_or(Unread::Malformed(1))?;
    Ok(Read { taken, value: v })
}

// Writes the text of the form f with the values v at the start of buf, if there is room.
fn put_line(f: &[u8], v: &[i64], buf: &mut [u8]) -> Result<usize, Unwritten>
    requires { (marks f.now ≤ length v.now) × (length f.now ≤ 65536) }
    ensures { Writes ((malformed, fits_in (form_text f.now v.now) buf.old) ∷ [])
        (form_text f.now v.now) buf.old (written_given result) buf.new }
{
    let n = form_len(f, v, 0);
    if buf.len() < n {
        return Err(Unwritten::Unfit);
    }
    put_form(f, v, 0, buf, 0);
    Ok(n)
}
