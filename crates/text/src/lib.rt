// Texts that people write, byte by byte: where a line ends, and where the next word starts, past blanks and comment lines.
#![tactic(auto)]

ghost use Rattle.std.specs.Prelude.{◌≡◌, [], ◌∷◌, ◌≤◌, ◌<◌, length};
ghost use Rattle.text.specs.Words.{is_blank};
ghost use Rattle.text.specs.Places.{LineEnds, PastComments, Seeks, SeeksFirst, place_on, text_place};

// Where the bytes of a line end: at its LF, or with the text.
pub fn line_end(text: &[u8], from: usize) -> usize
    requires { from ≤ length text.now }
    ensures { LineEnds text.now from result }
{
    for i in from..text.len() {
        if text[i] == 10 {
            return i;
        }
    }
    text.len()
}

// A byte between words: space, tab, CR or LF.
pub fn is_blank(b: u8) -> bool
    ensures { result ≡ is_blank b }
{
    (b == 32) | (b == 9) | (b == 13) | (b == 10)
}

// From the start of a line on: where the first line starts that is no comment.
fn past_comments(text: &[u8], from: usize) -> usize
    requires { from ≤ length text.now }
    ensures { PastComments text.now from result }
{
    let mut i = from;
    // Stays a `while`: the step is a whole line, and not one.
    while i < text.len() {
        if text[i] != 99 {
            break;
        }
        i = line_end(text, i);
        if i < text.len() {
            i += 1;
        }
    }
    i
}

// Where the next word starts, or the text's length; and whether a word there is the first of its line.
#[derive(Clone, Copy)]
pub struct Sought {
    pub at: usize,
    pub first: bool,
}

// From a place on that is inside a line, before its first word or not.
pub fn seek(text: &[u8], from: usize, before: bool) -> Sought
    requires { from ≤ length text.now }
    ensures { Seeks text.now before from result }
{
    let mut i = from;
    let mut first = before;
    // Stays a `while`: behind an LF the step goes past comment lines, and is not one.
    while i < text.len() {
        let b = text[i];
        if !is_blank(b) {
            break;
        }
        i += 1;
        if b == 10 {
            first = true;
            i = past_comments(text, i);
        }
    }
    Sought { at: i, first }
}

// The first word of the text.
pub fn seek_first(text: &[u8]) -> Sought
    ensures { SeeksFirst text.now result }
{
    seek(text, past_comments(text, 0), true)
}

// A place as a person finds it: its line and its column, both counted from 1.
#[derive(Clone, Copy)]
pub struct Place {
    pub line: usize,
    pub column: usize,
}

// Behind one byte more.
#[tactic(auto, unfolding(crate::specs::Places::place_on))]
fn onward(p: Place, b: u8) -> Place
    requires { (p.line < 18446744073709551615) × (p.column < 18446744073709551615) }
    ensures { result ≡ place_on p.line p.column (b ∷ []) }
{
    if b == 10 {
        return Place {
            line: p.line + 1,
            column: 1,
        };
    }
    Place {
        line: p.line,
        column: p.column + 1,
    }
}

pub fn place_of(text: &[u8], at: usize) -> Place
    requires { at ≤ length text.now }
    ensures { result ≡ text_place text.now at }
{
    let mut place = Place { line: 1, column: 1 };
    for &b in &text[..at] {
        place = onward(place, b);
    }
    place
}
