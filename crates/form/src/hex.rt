// Numbers of eight lowercase hex digits.
ghost use Rattle.std.specs.Prelude.{◌≡◌, ◌+◌, ◌≤◌, ◌<◌, ◌^◌, length, IfSome, MatchOption};
ghost use Rattle.std.proofs.lemmas.List.Edits.{sets};
ghost use Rattle.form.specs.Hex.{hex, hex_at, hex_of, hex_byte};

// What a byte stands for as a lowercase hex digit.
fn hex_digit(c: u8) -> Option<u64>
    ensures { MatchOption result (15 < hex_of c) (λ d. (d ≡ hex_of c) × (d ≤ 15)) }
{
    match c {
        b'0'..=b'9' => Some(u64::from(c - b'0')),
        b'a'..=b'f' => Some(u64::from(c - b'a') + 10),
        _ => None,
    }
}

// The byte of a hex digit.
fn hex_byte(d: u64) -> u8
    requires { d < 16 }
    ensures { result ≡ hex_byte d }
{
    b"0123456789abcdef"[d as usize]
}

// The eight hex digits that start at `at`: their value, and the place after them.
#[tactic(auto, using(crate::proofs::Digits::hex_digits))]
pub fn hex_number(s: &[u8], at: usize) -> Option<(u64, usize)>
    ensures value { result ≡ hex_at s.now at }
    ensures small { IfSome result (λ r. r.0 < 2 ^ 32) }
{
    let mut v = 0;
    for c in s.get(at..)?.get(..8)? {
        v = v * 16 + hex_digit(*c)?;
    }
    Some((v, at + 8))
}

// Writes the last k hex digits of n from `at` on, and returns the place after them.
#[tactic(auto, using(crate::proofs::Digits::last_hex_digit))]
pub fn put_hex(k: usize, n: u64, buf: &mut [u8], at: usize) -> usize
    requires { at + k ≤ length buf.old }
    ensures { (result ≡ at + k) × (buf.new ≡ sets buf.old at (hex k n)) }
{
    if k == 0 {
        return at;
    }
    let i = put_hex(k - 1, n / 16, buf, at);
    buf[i] = hex_byte(n % 16);
    i + 1
}
