// Bytes and numbers put into an output buffer, one after the other. What is said of the buffer is defined in `line_read`, the digits in `line_hex`.
#![tactic(auto)]

ghost use Rattle.std.specs.Prelude.{◌≡◌, [], ◌∷◌, ◌+◌, ◌≤◌, ◌<◌, length};
ghost use Rattle.line_hex.specs.Hex.{glyph, hex};
ghost use Rattle.line_read.specs.Lent.{Wrote};

// One byte.
pub fn put(out: &mut [u8], at: usize, b: u8) -> usize
    requires { at < length out.old }
    ensures { Wrote out.old at (b ∷ []) out.new result }
{
    out[at] = b;
    at + 1
}

#[tactic(auto, unfolding(line_hex::specs::Hex::glyph))]
fn glyph_of(d: usize) -> u8
    requires { d < 16 }
    ensures { result ≡ glyph d }
{
    if d < 10 {
        return d as u8 + 48;
    }
    d as u8 + 87
}

// Eight digits.
pub fn put_number(out: &mut [u8], at: usize, n: usize) -> usize
    requires { at + 8 ≤ length out.old }
    ensures { Wrote out.old at (hex 8 n) out.new result }
{
    for k in (0..8).rev() {
        out[at + 7 - k] = glyph_of((n >> (4 * k)) % 16);
    }
    at + 8
}
