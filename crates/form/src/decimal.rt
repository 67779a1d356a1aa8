// Decimal numbers.
ghost use Rattle.std.specs.Prelude.{◌≡◌, ◌+◌, ◌≤◌, ◌<◌, length, IfSome, MatchOption};
ghost use Rattle.std.proofs.lemmas.List.Edits.{sets};
ghost use Rattle.form.specs.Dec.{dec, num_at, digit_of};

// What a byte stands for as a digit.
fn digit(c: u8) -> Option<u64>
    ensures { MatchOption result (9 < digit_of c) (λ d. (d ≡ digit_of c) × (d ≤ 9)) }
{
    match c {
        b'0'..=b'9' => Some(u64::from(c - b'0')),
        _ => None,
    }
}

// The decimal number that starts at `at`, at most max, which is at least 9: one digit is never above it. Its value, and the place after it.
#[tactic(auto, using(crate::proofs::Digits::digits))]
pub fn number(s: &[u8], at: usize, max: u64) -> Option<(u64, usize)>
    requires { 9 ≤ max }
    ensures value { result ≡ num_at max s.now at }
    ensures small { IfSome result (λ r. r.0 ≤ max) }
{
    let mut v = digit(*s.get(at)?)?;
    for i in at + 1..s.len() {
        let Some(d) = digit(s[i]) else {
            return Some((v, i));
        };
        if v == 0 {
            return None;
        }
        if (max - d) / 10 < v {
            return None;
        }
        v = v * 10 + d;
    }
    Some((v, s.len()))
}

// How many digits n has.
#[tactic(auto, using(crate::proofs::Digits::digit_count))]
pub fn dec_len(n: u64) -> usize
    ensures { result ≡ length (dec n) }
{
    // One digit is told sooner without the logarithm.
    if n < 10 {
        return 1;
    }
    n.ilog10() as usize + 1
}

// Writes n in decimal from `at` on, and returns the place after it.
#[tactic(auto, using(crate::proofs::Digits::last_digit))]
pub fn put_dec(n: u64, buf: &mut [u8], at: usize) -> usize
    requires { at + length (dec n) ≤ length buf.old }
    ensures { (result ≡ at + length (dec n)) × (buf.new ≡ sets buf.old at (dec n)) }
{
    if n < 10 {
        buf[at] = b'0' + n as u8;
        return at + 1;
    }
    let i = put_dec(n / 10, buf, at);
    buf[i] = b'0' + (n % 10) as u8;
    i + 1
}
