// Hexadecimal digits and words: what a byte counts as, the value of eight digits, and two's complement. Nothing here knows of lines.
#![tactic(auto)]

ghost use Rattle.std.specs.Prelude.{◌≡◌, ◌+◌, ◌≤◌, ◌<◌, length};
ghost use Rattle.line_hex.specs.Hex.{digit, value_at, signed, unsigned, Values};

// What a byte counts as: a digit its value, any other more than any word.
#[tactic(auto, unfolding(crate::specs::Hex::digit))]
pub fn value(b: usize) -> u64
    ensures { result ≡ digit b }
{
    if b < 48 {
        return 4294967296;
    }
    if b < 58 {
        return (b - 48) as u64;
    }
    if b < 97 {
        return 4294967296;
    }
    if b < 103 {
        return (b - 87) as u64;
    }
    4294967296
}

// The values of all bytes, to be made once and lent.
pub fn values() -> [u64; 256]
    ensures { Values result }
{
    std::array::from_fn(value)
}

// The value of eight digits; more than any word where one of the bytes is no digit.
pub fn eight(values: &[u64; 256], part: &[u8], i: usize) -> u64
    requires { (i + 8 ≤ length part.now) × Values values.now }
    ensures { result ≡ value_at part.now i 8 }
{
    let mut v = 0;
    for &b in &part[i..i + 8] {
        v = v * 16 + values[usize::from(b)];
    }
    v
}

// Two's complement.
#[tactic(auto, unfolding(crate::specs::Hex::signed))]
pub fn signed_of(w: u64) -> i32
    requires { w < 4294967296 }
    ensures { result ≡ signed w }
{
    if w < 2147483648 {
        return w as i32;
    }
    let m = 4294967295 - w;
    -1 - (m as i32)
}

// The opposite.
pub fn word_of(x: i32) -> usize
    ensures { result ≡ unsigned x }
{
    if x < 0 {
        return 4294967295 - ((-1 - x) as usize);
    }
    x as usize
}
