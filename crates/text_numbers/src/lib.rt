// Words that are numbers, of any length: no string of digits wraps.
#![tactic(auto)]

ghost use Rattle.std.specs.Prelude.{◌≡◌, ℕ, ◌+◌, ◌*◌, ◌≤◌, ◌<◌, length, get_or, drop};
ghost use Rattle.text.specs.Places.{word_at};
ghost use Rattle.text_numbers.specs.Numbers.{is_decimal};
ghost use Rattle.text_numbers.specs.Told.{capped, ends_word, Decimals, NumeralTold, IntegerTold};

// One digit more, where numbers of 10^19 and above are told as that.
pub fn grown(n: u64, d: u64) -> u64
    requires { d < 10 }
    ensures { (x : ℕ) → n ≡ capped x → result ≡ capped (x * 10 + d) }
{
    if n < 1000000000000000000 {
        return n * 10 + d;
    }
    10000000000000000000
}

// Whether a byte is one of 0 to 9.
pub fn is_digit(b: u8) -> bool
    ensures { result ≡ is_decimal b }
{
    (48 <= b) & (b < 58)
}

// What digits say, and where they end.
#[derive(Clone, Copy)]
pub struct Numeral {
    pub value: u64,
    pub end: usize,
}

// The digits from a place on.
fn digits(text: &[u8], from: usize) -> Numeral
    requires { from ≤ length text.now }
    ensures { Decimals text.now from result }
{
    let mut value: u64 = 0;
    for i in from..text.len() {
        let b = text[i];
        if !is_digit(b) {
            return Numeral { value, end: i };
        }
        value = grown(value, u64::from(b - 48));
    }
    Numeral {
        value,
        end: text.len(),
    }
}

// Whether no byte of a word stands at the place.
pub fn is_behind(text: &[u8], at: usize) -> bool
    requires { at ≤ length text.now }
    ensures { result ≡ ends_word (drop at text.now) }
{
    if at < text.len() {
        return text::is_blank(text[at]);
    }
    true
}

// A word that is a number: its value, and where the word ends.
pub fn read_numeral(text: &[u8], at: usize) -> Option<Numeral>
    requires { at ≤ length text.now }
    ensures { NumeralTold (word_at at text.now) at result }
{
    let d = digits(text, at);
    if d.end == at {
        return None;
    }
    if !is_behind(text, d.end) {
        return None;
    }
    Some(d)
}

// A word that is a number with a minus or without: its sign, its value, and where the word ends.
#[derive(Clone, Copy)]
pub struct Integer {
    pub minus: bool,
    pub value: u64,
    pub end: usize,
}

// A word that starts with a minus: there is no -0.
fn read_minus(text: &[u8], at: usize) -> Option<Integer>
    requires { (at < length text.now) × (get_or text.now at 0 ≡ 45) }
    ensures { IntegerTold (word_at at text.now) at result }
{
    let n = read_numeral(text, at + 1)?;
    if n.value == 0 {
        return None;
    }
    Some(Integer {
        minus: true,
        value: n.value,
        end: n.end,
    })
}

pub fn read_integer(text: &[u8], at: usize) -> Option<Integer>
    requires { at < length text.now }
    ensures { IntegerTold (word_at at text.now) at result }
{
    if text[at] == 45 {
        return read_minus(text, at);
    }
    let n = read_numeral(text, at)?;
    Some(Integer {
        minus: false,
        value: n.value,
        end: n.end,
    })
}
