// The problem line of a text: p cnf V C.
#![tactic(auto)]

ghost use Rattle.std.specs.Prelude.{◌≡◌, false, [], ◌∷◌, ◌≤◌, length, drop};
ghost use Rattle.text.specs.Words.{words_from};
ghost use Rattle.text.specs.Places.{word_at};
ghost use Rattle.dimacs.specs.Reading.{spells, read_count, read_vars, read_text, body_words};
ghost use Rattle.dimacs_problem.specs.Told.{CountTold, ProblemTold};

use dimacs::TextFault;

// Whether the word at the place is p; at the text's end there is none.
pub fn is_p(text: &[u8], at: usize) -> bool
    requires { at ≤ length text.now }
    ensures { result ≡ spells (112 ∷ []) (word_at at text.now) }
{
    if at < text.len() {
        return (text[at] == 112) & text_numbers::is_behind(text, at + 1);
    }
    false
}

// Whether it is cnf.
fn is_cnf(text: &[u8], at: usize) -> bool
    requires { at ≤ length text.now }
    ensures { result ≡ spells (99 ∷ 110 ∷ 102 ∷ []) (word_at at text.now) }
{
    if text.len() - at < 3 {
        return false;
    }
    (text[at] == 99)
        & ((text[at + 1] == 110) & ((text[at + 2] == 102) & text_numbers::is_behind(text, at + 3)))
}

// A number of the problem line: its value, and where it starts and ends.
#[derive(Clone, Copy)]
struct CountWord {
    value: u64,
    at: usize,
    end: usize,
}

// The next word behind a word of the problem line, as a number of it. Else the word there, or the text's end, is the fault.
fn read_number(text: &[u8], from: usize) -> Result<CountWord, TextFault>
    requires { from ≤ length text.now }
    ensures { CountTold text.now (words_from false from text.now) result }
{
    let w = text::seek(text, from, false);
    let at = w.at;
    if w.first {
        return Err(TextFault::MalformedWord(at));
    }
    match text_numbers::read_numeral(text, at) {
        Some(n) => Ok(CountWord {
            value: n.value,
            at,
            end: n.end,
        }),
        None => Err(TextFault::MalformedWord(at)),
    }
}

// What a problem line declares: V, and the clause count as far as it can be met; and where the fourth word ends.
#[derive(Clone, Copy)]
pub struct Declared {
    pub vars: u32,
    pub clauses: u64,
    pub end: usize,
}

// The clause count, the last word of its line.
fn read_count(text: &[u8], from: usize, vars: u32) -> Result<Declared, TextFault>
    requires { (from ≤ length text.now) × (1 ≤ vars) × (vars ≤ 2048) }
    ensures { ProblemTold text.now (drop 1 (words_from false from text.now))
        (read_count vars (length text.now) (words_from false from text.now)) result }
{
    let n = read_number(text, from)?;
    let w = text::seek(text, n.end, false);
    let next = w.at;
    if next < text.len() {
        if !w.first {
            return Err(TextFault::MalformedWord(next));
        }
    }
    Ok(Declared {
        vars,
        clauses: n.value,
        end: n.end,
    })
}

// V, and what is behind it.
fn read_vars(text: &[u8], from: usize) -> Result<Declared, TextFault>
    requires { from ≤ length text.now }
    ensures { ProblemTold text.now (drop 2 (words_from false from text.now))
        (read_vars (length text.now) (words_from false from text.now)) result }
{
    let n = read_number(text, from)?;
    let vars = n.value;
    if (vars < 1) | (2048 < vars) {
        return Err(TextFault::VarsOutOfRange(n.at));
    }
    read_count(text, n.end, vars as u32)
}

// All four words.
pub fn read_problem(text: &[u8]) -> Result<Declared, TextFault>
    ensures { ProblemTold text.now (body_words text.now) (read_text text.now) result }
{
    let p = text::seek_first(text);
    let at = p.at;
    if !is_p(text, at) {
        return Err(TextFault::NoProblemLine(at));
    }
    let f = text::seek(text, at + 1, false);
    let next = f.at;
    if f.first {
        return Err(TextFault::MalformedWord(next));
    }
    if !is_cnf(text, next) {
        return Err(TextFault::MalformedWord(next));
    }
    read_vars(text, next + 3)
}
