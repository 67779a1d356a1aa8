// Values as numbers of 32 bits.
ghost use Rattle.std.specs.Prelude.{◌≡◌, ◌<◌, pos, length, get_or};
ghost use Rattle.form.specs.Words.{word_of};

// What a value is as 32 bits; 0 where it does not fit them.
pub fn word(z: i64) -> u32
    ensures { result ≡ word_of z }
{
    u32::try_from(z).unwrap_or(0)
}

// The same of the value at i.
pub fn word_at(v: &[i64], i: usize) -> u32
    requires { i < length v.now }
    ensures { result ≡ word_of (get_or v.now i (pos 0)) }
{
    word(v[i])
}
