// A form that stands several times, one behind the other.
ghost use Rattle.std.specs.Prelude.{◌≡◌, ◌+◌, ◌*◌, ◌≤◌, length, drop};
ghost use Rattle.std.proofs.lemmas.List.Edits.{sets};
ghost use Rattle.form.specs.Form.{marks};
ghost use Rattle.form.specs.Many.{many_at, stood_of, rows_text, many_fit};

use crate::line::{put_row, read_form, read_row, row_fits, row_len};

// Reads the form f n times from `from` on, and puts the values into vals from `first` on: the place after it, or how often it stood.
#[tactic(auto, using(crate::proofs::Rows::reading_rows))]
pub fn read_many(
    s: &[u8],
    from: usize,
    f: &[u8],
    n: usize,
    vals: &mut [i64],
    first: usize,
) -> Result<usize, usize>
    requires { first + n * marks f.now ≤ length vals.old }
    ensures { (result ≡ stood_of (many_at n f.now s.now from))
        × (vals.new ≡ sets vals.old first (many_at n f.now s.now from).vals) }
{
    let mut at = from;
    let mut j = first;
    for k in 0..n {
        at = read_row(s, at, f, vals, &mut j).ok_or(k)?;
    }
    Ok(at)
}

// Looks whether the form f, of 8 values at the most, stands n times from `from` on, and keeps no value.
#[tactic(auto, using(crate::proofs::Rows::reading_rows))]
pub fn pass_many(s: &[u8], from: usize, f: &[u8], n: usize) -> Result<usize, usize>
    requires { marks f.now ≤ 8 }
    ensures { result ≡ stood_of (many_at n f.now s.now from) }
{
    let mut v = [0i64; 8];
    let mut at = from;
    for k in 0..n {
        at = read_form(s, at, f, &mut v, 0).ok_or(k)?;
    }
    Ok(at)
}

// The length of the text of n rows of the form f with the values of vals from `first` on.
#[tactic(auto, using(crate::proofs::Rows::measuring_rows))]
pub fn many_len(f: &[u8], n: usize, vals: &[i64], first: usize) -> usize
    requires { (first + n * marks f.now ≤ length vals.now) × (length f.now ≤ 64) × (n ≤ 256) }
    ensures { (result ≡ length (rows_text n f.now (drop first vals.now))) × (result ≤ n * 1344) }
{
    let mut len: usize = 0;
    let mut j = first;
    for _ in 0..n {
        let (row, behind) = row_len(f, vals, j);
        len += row;
        j = behind;
    }
    len
}

// Writes n rows of the form f with the values of vals from `first` on, from `from` on.
#[tactic(auto, using(crate::proofs::Rows::writing_rows))]
pub fn put_many(
    f: &[u8],
    n: usize,
    vals: &[i64],
    first: usize,
    buf: &mut [u8],
    from: usize,
) -> usize
    requires { (first + n * marks f.now ≤ length vals.now) × (from + length (rows_text n f.now (drop first vals.now)) ≤ length buf.old) }
    ensures { (result ≡ from + length (rows_text n f.now (drop first vals.now)))
        × (buf.new ≡ sets buf.old from (rows_text n f.now (drop first vals.now))) }
{
    let mut at = from;
    let mut j = first;
    for _ in 0..n {
        (at, j) = put_row(f, vals, j, buf, at);
    }
    at
}

// Whether the values of vals from `first` on fit n rows of the form f.
#[tactic(auto, using(crate::proofs::Rows::fitting_rows))]
pub fn many_fit(f: &[u8], n: usize, vals: &[i64], first: usize) -> bool
    requires { first + n * marks f.now ≤ length vals.now }
    ensures { result ≡ many_fit n f.now (drop first vals.now) }
{
    let mut j = first;
    for _ in 0..n {
        let Some(behind) = row_fits(f, vals, j) else {
            return false;
        };
        j = behind;
    }
    true
}
