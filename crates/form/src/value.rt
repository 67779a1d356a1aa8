// One value of a line, by its mark.
ghost use Rattle.std.specs.Prelude.{◌≡◌, ◌+◌, ◌≤◌, length, is_some, IfSome};
ghost use Rattle.std.proofs.lemmas.List.Edits.{sets};
ghost use Rattle.form.specs.Form.{val_at, val_text, is_mark, byte_of, ok_val};

use crate::decimal::{dec_len, number, put_dec};
use crate::hex::{hex_number, put_hex};

// What stands at a mark: a decimal of 32 bits, a signed decimal of 64, eight hex digits.
#[derive(Clone, Copy)]
pub enum Mark {
    Word,
    Signed,
    Hex,
}

impl Mark {
    // The mark that a byte of a form is.
    pub fn of(c: u8) -> Option<Mark>
        ensures some { is_some result ≡ is_mark c }
        ensures byte { IfSome result (λ m. c ≡ byte_of m) }
    {
        // By range first: where a form known when compiled has no hex mark, what is done at one then falls away.
        if !(b'#'..=b'%').contains(&c) {
            return None;
        }
        Some(match c {
            b'%' => Mark::Hex,
            b'$' => Mark::Signed,
            _ => Mark::Word,
        })
    }
}

// The signed decimal that starts at `at`, and the place after it. There is no -0.
fn signed(s: &[u8], at: usize) -> Option<(i64, usize)>
    ensures { result ≡ val_at 36 s.now at }
{
    if *s.get(at)? == b'-' {
        let (n, next) = number(s, at + 1, 9223372036854775808)?;
        if n == 0 {
            return None;
        }
        return Some((-1 - (n - 1) as i64, next));
    }
    let (n, next) = number(s, at, 9223372036854775807)?;
    Some((n as i64, next))
}

// The value with the mark that starts at `at`, and the place after it.
pub fn value(mark: Mark, s: &[u8], at: usize) -> Option<(i64, usize)>
    ensures { result ≡ val_at (byte_of mark) s.now at }
{
    let (n, next) = match mark {
        Mark::Word => number(s, at, 4294967295)?,
        Mark::Signed => return signed(s, at),
        Mark::Hex => hex_number(s, at)?,
    };
    Some((n as i64, next))
}

// The length of the text of a value with the mark. Its size is taken once its sign is known, here and in put_value, which is quicker.
#[tactic(auto, using(crate::proofs::Values::value_texts))]
pub fn value_len(mark: Mark, z: i64) -> usize
    ensures { (result ≡ length (val_text (byte_of mark) z)) × (result ≤ 21) }
{
    match mark {
        Mark::Hex => 8,
        _ if z < 0 => dec_len(z.unsigned_abs()) + 1,
        _ => dec_len(z.unsigned_abs()),
    }
}

// Writes a value with the mark from `at` on, and returns the place after it.
#[tactic(auto, using(crate::proofs::Values::value_texts))]
pub fn put_value(mark: Mark, z: i64, buf: &mut [u8], at: usize) -> usize
    requires { at + length (val_text (byte_of mark) z) ≤ length buf.old }
    ensures { (result ≡ at + length (val_text (byte_of mark) z)) × (buf.new ≡ sets buf.old at (val_text (byte_of mark) z)) }
{
    match mark {
        Mark::Hex => put_hex(8, z.unsigned_abs(), buf, at),
        _ if z < 0 => {
            buf[at] = b'-';
            put_dec(z.unsigned_abs(), buf, at + 1)
        }
        _ => put_dec(z.unsigned_abs(), buf, at),
    }
}

// Whether a value fits its mark.
pub fn value_fits(mark: Mark, z: i64) -> bool
    ensures { result ≡ ok_val (byte_of mark) z }
{
    match mark {
        Mark::Signed => true,
        _ => u32::try_from(z).is_ok(),
    }
}
