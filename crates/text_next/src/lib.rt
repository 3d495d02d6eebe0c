// The next word of a text, behind a word, and the number that it is. Most words have at most seven bytes and stand behind one blank: these are read
// as one number of 64 bits, with no loop and no branch on what they say, so that a processor need not guess.
#![tactic(auto)]

ghost use Rattle.std.specs.Prelude.{◌≡◌, ◌+◌, ◌<◌, ◌≤◌, true, length};
ghost use Rattle.std.proofs.Math.Seq.{slice};
ghost use Rattle.rules.specs.Lists.{all_pass};
ghost use Rattle.text.specs.Places.{word_at, Behind};
ghost use Rattle.text_numbers.specs.Numbers.{said_on};
ghost use Rattle.text_next.specs.Bytes.{little, bytes_of, low_bit, is_small, digits_of, LastDigits};
ghost use Rattle.text_next.specs.Next.{QuickTold, NextTold};

use text_numbers::Integer;

// Eight bytes as one number, the first of them the least significant.
fn eight(text: &[u8], at: usize) -> u64
    requires { at + 8 ≤ length text.now }
    ensures { result ≡ little (slice at (at + 8) text.now) }
{
    u64::from_le_bytes([
        text[at],
        text[at + 1],
        text[at + 2],
        text[at + 3],
        text[at + 4],
        text[at + 5],
        text[at + 6],
        text[at + 7],
    ])
}

// Of eight bytes the first that is below 33, as every blank is: the place of its highest bit, which is 8 times its own and 7 more; 64 where none is.
// 33 taken from every byte turns that bit on, which was off, and turns on none before it that was off.
fn low_bit(x: u64) -> u64
    ensures { result ≡ low_bit (bytes_of 8 x) }
{
    let taken = std::num::wrapping_sub_u64(x, 0x2121212121212121);
    u64::from((taken & (u64::MAX - x) & 0x8080808080808080).trailing_zeros())
}

// Of eight bytes those before the place of that bit, as the last of eight: with 48, the digit 0, taken from each, and 0 before them.
fn last_digits(x: u64, bits: u64) -> u64
    requires { bits ≤ 64 }
    ensures { LastDigits x bits result }
{
    let shift = (71 - bits) % 64;
    std::num::wrapping_sub_u64(x << shift, 0x3030303030303030 << shift)
}

// Whether each of eight bytes is at most 9: 118 given to every byte turns on the highest bit of the first that is more, if it was off.
fn are_digits(e: u64) -> bool
    ensures { result ≡ all_pass is_small (bytes_of 8 e) }
{
    (std::num::wrapping_add_u64(e, 0x7676767676767676) | e) & 0x8080808080808080 == 0
}

// What eight digits say, the first of them in the least significant byte: two by two, and then the four pairs.
fn said_by(e: u64) -> u64
    requires { all_pass is_small (bytes_of 8 e) ≡ true }
    ensures { (result ≡ said_on 0 (digits_of 8 e)) × (result < 100000000) }
{
    let p = e * 10 + e / 256;
    ((p % 256 * 100 + p / 65536 % 256) * 100 + p / 4294967296 % 256) * 100
        + p / 281474976710656 % 256
}

// A word of at most seven bytes, and a blank behind it, as a number; nothing is told of any other. A minus is 3 less than the digit 0.
pub fn quick(text: &[u8], at: usize) -> Option<Integer>
    requires { at + 8 ≤ length text.now }
    ensures { QuickTold (word_at at text.now) at result }
{
    let x = eight(text, at);
    let bits = low_bit(x);
    let minus = x % 256 == 45;
    let sign = u64::from(minus);
    let e = last_digits(x + 3 * sign, bits);
    if (bits < 8) | (63 < bits) | !are_digits(e) {
        return None;
    }
    let value = said_by(e);
    let end = at + (bits / 8) as usize;
    if !text::is_blank(text[end]) | (value < sign) {
        return None;
    }
    Some(Integer { minus, value, end })
}

// Where the next word starts, or the text's length; whether it is the first of its line; and the number that it is.
#[derive(Clone, Copy)]
pub struct NextWord {
    pub at: usize,
    pub first: bool,
    pub read: Option<Integer>,
}

// Any next word.
fn next_of_any(text: &[u8], from: usize) -> NextWord
    requires { from ≤ length text.now }
    ensures { NextTold text.now from result }
{
    let w = text::seek(text, from, false);
    let at = w.at;
    let read = if at == text.len() {
        None
    } else {
        text_numbers::read_integer(text, at)
    };
    NextWord {
        at,
        first: w.first,
        read,
    }
}

// The next word behind a word that ends at `from`.
pub fn next_word(text: &[u8], from: usize) -> NextWord
    requires { (from ≤ length text.now) × Behind text.now from }
    ensures { NextTold text.now from result }
{
    if 9 <= text.len() - from {
        let at = from + 1;
        let read = quick(text, at);
        if read.is_some() {
            return NextWord {
                at,
                first: text[from] == 10,
                read,
            };
        }
    }
    next_of_any(text, from)
}
