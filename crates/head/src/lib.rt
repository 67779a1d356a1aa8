#![tactic(auto)]

ghost use Rattle.std.specs.Prelude.{◌≡◌, ◌/◌, ◌^◌, ◌<◌};
ghost use Rattle.std.specs.Float.{binary32};
ghost use Rattle.std.specs.Float.Ieee.{nan_bits};
ghost use Rattle.head.specs.Level.{floor_div, usable, level_um};
ghost use Rattle.head.specs.Class.{class_of};
ghost use Rattle.head.specs.Pattern.{pattern_of, carried_of};

// What a head's float means.
#[derive(Clone, Copy)]
pub enum Head {
    Level(f32),
    Dry,
    Inactive,
    Unusable,
}

// A height of the water table, in µm.
#[derive(Clone, Copy)]
pub struct Height(pub i64);

// A head's float, and beside it the bits of a NaN, which the float does not keep.
#[derive(Clone, Copy)]
pub struct Carried {
    pub value: f32,
    pub nan: u32,
}

// Whether a float can be a level: at most 10,000 m in size.
fn usable(x: f32) -> bool
    ensures { result ≡ usable x }
{
    -10000.0 <= x && x <= 10000.0
}

// The head that a float means.
pub fn classify(x: f32) -> Head
    ensures { result ≡ class_of x }
{
    if x == -1.0e30 {
        return Head::Dry;
    }
    if x == 1.0e30 {
        return Head::Inactive;
    }
    if usable(x) {
        return Head::Level(x);
    }
    Head::Unusable
}

// n / 2 ^ k, for any k.
fn shifted(n: u64, k: u32) -> u64
    ensures { result ≡ n / 2 ^ k }
{
    n.checked_shr(k).unwrap_or(0)
}

// n / 2 ^ k, or -n / 2 ^ k, rounded down.
fn floored(negative: bool, n: u64, k: u32) -> i64
    requires { n < 2 ^ 63 }
    ensures { result ≡ floor_div negative n (2 ^ k) }
{
    if !negative {
        return shifted(n, k) as i64;
    }
    if n == 0 {
        return 0;
    }
    -1 - (shifted(n - 1, k) as i64)
}

// The height of a level, rounded down; 0 for a float that can be none. |x| <= 10,000 leaves a field of at most
// 150, so the shift is always to the right.
pub fn level_um(x: f32) -> Height
    ensures { result.0 ≡ level_um x }
{
    if !usable(x) {
        return Height(0);
    }
    // in size x is `fraction` * 2 ^ -149, or (`fraction` + 2 ^ 23) * 2 ^ (`field` - 150)
    let bits = x.to_bits();
    let negative = bits >= 0x8000_0000;
    let field = bits / 0x80_0000 % 256;
    let fraction = u64::from(bits % 0x80_0000);
    if field == 0 {
        return Height(floored(negative, fraction * 1000000, 149));
    }
    Height(floored(negative, (fraction + 0x80_0000) * 1000000, 150 - field))
}

// Whether a pattern is a NaN's.
fn is_nan_pattern(bits: u32) -> bool
    ensures { result ≡ nan_bits binary32 bits }
{
    bits % 0x8000_0000 > 0x7f80_0000
}

// The float of a pattern. A NaN's bits are kept beside it.
pub fn from_pattern(bits: u32) -> Carried
    ensures { result ≡ carried_of bits }
{
    if is_nan_pattern(bits) {
        Carried {
            value: f32::NAN,
            nan: bits,
        }
    } else {
        Carried {
            value: f32::from_bits(bits),
            nan: 0,
        }
    }
}

// The pattern of a carried head, as it was read.
pub fn pattern_of(h: Carried) -> u32
    ensures { result ≡ pattern_of h }
{
    if !h.value.is_nan() {
        return h.value.to_bits();
    }
    if is_nan_pattern(h.nan) {
        h.nan
    } else {
        0x7fc0_0000
    }
}
