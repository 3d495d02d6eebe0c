// The words of a proof's lines, byte by byte, however the proof is cut: of a word that is on its way no byte is kept, but what they say so far.
#![tactic(auto)]

ghost use Rattle.std.specs.Prelude.{◌≡◌, ◌≤◌, length};
ghost use Rattle.lrat.specs.Machine as machine;
ghost use Rattle.lrat_words.specs.Taken.{TookWord};

use lrat::{LineWord, ProofWord};

// ---- one byte

// Nothing of a line is read yet.
pub fn at_start() -> ProofWord
    ensures { result ≡ machine.at_start }
{
    of_kind(0, false)
}

// A blank was read last.
pub fn between() -> ProofWord
    ensures { result ≡ machine.between }
{
    of_kind(5, false)
}

// One digit more. All numbers from 2^32 on are told as that, so nothing overflows, whatever was told before.
fn grown(v: u64, d: u64) -> u64
    requires { d ≤ 255 }
    ensures { result ≡ machine.grown v d }
{
    if 4294967296 <= v {
        return 4294967296;
    }
    (v * 10 + d).min(4294967296)
}

// A word of this kind that says no number yet.
fn of_kind(kind: u32, minus: bool) -> ProofWord
    ensures { result ≡ machine.word kind minus 0 }
{
    ProofWord {
        kind,
        minus,
        value: 0,
    }
}

// Its first byte.
fn begin(b: u8) -> ProofWord
    ensures { result ≡ machine.begin b }
{
    if text_numbers::is_digit(b) {
        return ProofWord {
            kind: 2,
            minus: false,
            value: u64::from(b - 48),
        };
    }
    if b == 45 {
        return of_kind(1, true);
    }
    if b == 100 {
        return of_kind(3, false);
    }
    of_kind(4, false)
}

// A byte behind a minus or a digit.
fn digit_or(w: ProofWord, b: u8) -> ProofWord
    ensures { result ≡ machine.digit_or w b }
{
    if text_numbers::is_digit(b) {
        return ProofWord {
            kind: 2,
            minus: w.minus,
            value: grown(w.value, u64::from(b - 48)),
        };
    }
    of_kind(4, false)
}

// Whether a word is on its way.
pub fn is_word(w: ProofWord) -> bool
    ensures { result ≡ machine.is_word w }
{
    if w.kind == 0 {
        return false;
    }
    w.kind < 5
}

// One byte more, no blank.
#[tactic(auto, unfolding(lrat::specs::Machine::push))]
fn push(w: ProofWord, b: u8) -> ProofWord
    ensures { result ≡ machine.push w b }
{
    if !is_word(w) {
        return begin(b);
    }
    if w.kind < 3 {
        return digit_or(w, b);
    }
    of_kind(4, false)
}

// ---- the bytes of a part up to a blank

// How far the part is read, and the word there.
#[derive(Clone, Copy)]
pub struct WordTaken {
    pub from: usize,
    pub word: ProofWord,
}

// Byte by byte, whatever they say.
fn take_byte_by_byte(part: &[u8], from: usize, w: ProofWord) -> WordTaken
    requires { from ≤ length part.now }
    ensures { TookWord part.now from w result }
{
    let mut word = w;
    for i in from..part.len() {
        let b = part[i];
        if text::is_blank(b) {
            return WordTaken { from: i, word };
        }
        word = push(word, b);
    }
    WordTaken {
        from: part.len(),
        word,
    }
}

// Takes bytes from `from` on until a blank, or the part's end. Most words are short numbers, which begin and end in the same part: these are read at once.
pub fn take_bytes(part: &[u8], from: usize, w: ProofWord) -> WordTaken
    requires { from ≤ length part.now }
    ensures { TookWord part.now from w result }
{
    if !is_word(w) {
        if 8 <= part.len() - from {
            if let Some(read) = text_next::quick(part, from) {
                return WordTaken {
                    from: read.end,
                    word: ProofWord {
                        kind: 2,
                        minus: read.minus,
                        value: read.value,
                    },
                };
            }
        }
    }
    take_byte_by_byte(part, from, w)
}

// ---- the end of a word

// What the word is, where it ends here. There is no -0.
#[tactic(auto, unfolding(lrat::specs::Machine::said))]
pub fn said(w: ProofWord) -> LineWord
    ensures { result ≡ machine.said w }
{
    if w.kind == 3 {
        return LineWord::Deletion;
    }
    if w.kind != 2 {
        return LineWord::Other;
    }
    if w.minus {
        if w.value == 0 {
            return LineWord::Other;
        }
    }
    LineWord::Number(w.minus, w.value)
}
