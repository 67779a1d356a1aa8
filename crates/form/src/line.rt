// One line by its form: fixed bytes, and a mark for each value.
ghost use Rattle.std.specs.Prelude.{◌≡◌, ◌+◌, ◌*◌, ◌≤◌, cond, Some, None, length, drop, OnSome};
ghost use Rattle.std.proofs.lemmas.List.Edits.{sets};
ghost use Rattle.form.specs.Form.{form_at, taken_of, marks, form_text, fits};

use crate::value::{Mark, put_value, value, value_fits, value_len};

// Reads the form f from `from` on, and puts its values into vals from `j` on: the place after it. j then stands behind its last value.
#[tactic(auto, using(crate::proofs::Turns::reading))]
pub(crate) fn read_row(
    s: &[u8],
    from: usize,
    f: &[u8],
    vals: &mut [i64],
    j: &mut usize,
) -> Option<usize>
    requires { j.old + marks f.now ≤ length vals.old }
    ensures place { result ≡ taken_of (form_at f.now s.now from) }
    ensures values { vals.new ≡ sets vals.old j.old (form_at f.now s.now from).vals }
    ensures behind { OnSome result (j.new ≡ j.old + marks f.now) }
{
    let mut at = from;
    for c in f {
        if let Some(mark) = Mark::of(*c) {
            let (z, next) = value(mark, s, at)?;
            vals[*j] = z;
            *j += 1;
            at = next;
        } else {
            if s.get(at)? != c {
                return None;
            }
            at += 1;
        }
    }
    Some(at)
}

// The same, where the place after it is all that is asked for.
pub fn read_form(s: &[u8], from: usize, f: &[u8], vals: &mut [i64], first: usize) -> Option<usize>
    requires { first + marks f.now ≤ length vals.old }
    ensures { (result ≡ taken_of (form_at f.now s.now from))
        × (vals.new ≡ sets vals.old first (form_at f.now s.now from).vals) }
{
    let mut j = first;
    read_row(s, from, f, vals, &mut j)
}

// The length of the text of a form with the values of vals from `first` on, and the place behind its last value.
#[tactic(auto, using(crate::proofs::Turns::measuring))]
pub(crate) fn row_len(f: &[u8], vals: &[i64], first: usize) -> (usize, usize)
    requires { (first + marks f.now ≤ length vals.now) × (length f.now ≤ 65536) }
    ensures len { (result.0 ≡ length (form_text f.now (drop first vals.now))) × (result.0 ≤ 21 * length f.now) }
    ensures behind { result.1 ≡ first + marks f.now }
{
    let mut n: usize = 0;
    let mut j = first;
    for c in f {
        if let Some(mark) = Mark::of(*c) {
            n += value_len(mark, vals[j]);
            j += 1;
        } else {
            n += 1;
        }
    }
    (n, j)
}

// The length alone.
pub fn form_len(f: &[u8], vals: &[i64], first: usize) -> usize
    requires { (first + marks f.now ≤ length vals.now) × (length f.now ≤ 65536) }
    ensures { (result ≡ length (form_text f.now (drop first vals.now))) × (result ≤ 21 * length f.now) }
{
    row_len(f, vals, first).0
}

// Writes a form with the values of vals from `first` on, from `from` on: the place after it, and that behind its last value.
#[tactic(auto, using(crate::proofs::Turns::writing))]
pub(crate) fn put_row(
    f: &[u8],
    vals: &[i64],
    first: usize,
    buf: &mut [u8],
    from: usize,
) -> (usize, usize)
    requires { (first + marks f.now ≤ length vals.now) × (from + length (form_text f.now (drop first vals.now)) ≤ length buf.old) }
    ensures text { buf.new ≡ sets buf.old from (form_text f.now (drop first vals.now)) }
    ensures places { (result.0 ≡ from + length (form_text f.now (drop first vals.now))) × (result.1 ≡ first + marks f.now) }
{
    let mut at = from;
    let mut j = first;
    for c in f {
        if let Some(mark) = Mark::of(*c) {
            at = put_value(mark, vals[j], buf, at);
            j += 1;
        } else {
            buf[at] = *c;
            at += 1;
        }
    }
    (at, j)
}

// The same, where the place after it is all that is asked for.
pub fn put_form(f: &[u8], vals: &[i64], first: usize, buf: &mut [u8], from: usize) -> usize
    requires { (first + marks f.now ≤ length vals.now) × (from + length (form_text f.now (drop first vals.now)) ≤ length buf.old) }
    ensures { (result ≡ from + length (form_text f.now (drop first vals.now)))
        × (buf.new ≡ sets buf.old from (form_text f.now (drop first vals.now))) }
{
    put_row(f, vals, first, buf, from).0
}

// Where the values of vals from `first` on fit the form f, the place behind its last value.
#[tactic(auto, using(crate::proofs::Turns::fitting))]
pub(crate) fn row_fits(f: &[u8], vals: &[i64], first: usize) -> Option<usize>
    requires { first + marks f.now ≤ length vals.now }
    ensures { result ≡ cond (fits f.now (drop first vals.now)) (Some (first + marks f.now)) None }
{
    let mut j = first;
    for c in f {
        if let Some(mark) = Mark::of(*c) {
            if !value_fits(mark, vals[j]) {
                return None;
            }
            j += 1;
        }
    }
    Some(j)
}
