// The clauses of a text, word by word, and the text judged.
#![tactic(auto)]

ghost use Rattle.std.specs.Prelude.{◌≡◌, true, cond, ◌&&◌, [], ◌∷◌, ◌+◌, ◌≤◌, ◌<◌, length};
ghost use Rattle.text.specs.Places.{word_at, Behind};
ghost use Rattle.dimacs.specs.Reading.{spells, read_text, judged_text};
ghost use Rattle.dimacs_judge.specs.Told.{Stamps, StopsTold, ScanAsked, ScanTold, AllTold};
ghost use Rattle.dimacs.specs.declared.TextFault.TheVariants.{SecondProblemLine, MalformedWord};

use dimacs::{TextCounts, TextFault};

// A word that is no number.
fn no_number(text: &[u8], at: usize, first: bool) -> TextFault
    requires { at ≤ length text.now }
    ensures { result ≡ cond (first && spells (112 ∷ []) (word_at at text.now)) (SecondProblemLine at) (MalformedWord at) }
{
    if first {
        if dimacs_problem::is_p(text, at) {
            return TextFault::SecondProblemLine(at);
        }
    }
    TextFault::MalformedWord(at)
}

// How many literals an unclosed clause has behind a number: none where that closed it.
fn longer(n: usize, closing: bool) -> usize
    requires { n ≤ 256 }
    ensures { (result ≡ cond closing 0 (n + 1)) × (result ≤ 257) }
{
    if closing { 0 } else { n + 1 }
}

// Whether the variable has this stamp already, and it has it then. A clause has a stamp of its own, so none need be taken away between clauses.
fn is_again(stamps: &mut [u64], v: usize, stamp: u64) -> bool
    requires { v < length stamps.old }
    ensures { Stamps stamps.old v stamp result stamps.new }
{
    if stamps[v] == stamp {
        return true;
    }
    stamps[v] = stamp;
    false
}

// Whether reading stops at a number: of all clauses where its variable is in the clause already, of one where it closes it.
fn stops(all: bool, stamps: &mut [u64], v: usize, stamp: u64) -> bool
    requires { all ≡ true → v < length stamps.old }
    ensures { StopsTold all stamps.old v stamp result stamps.new }
{
    if all {
        return is_again(stamps, v, stamp);
    }
    v == 0
}

// What reading comes to, without fault: the literals of one clause and where its 0 ends, or how many clauses there are, all of them closed.
#[derive(Clone, Copy)]
pub enum Scanned {
    Closed(usize, usize),
    Ended(usize),
}

// Reads on behind a word that ends at `from`: all clauses, or one, whose literals go into lits. Both are one loop, so that the reading of a word stands
// inside it.
pub fn scan(
    text: &[u8],
    from: usize,
    vars: u32,
    all: bool,
    stamps: &mut [u64],
    lits: &mut [i32],
) -> Result<Scanned, TextFault>
    requires { ScanAsked text.now from vars all stamps.old lits.old }
    ensures { ScanTold all text.now from vars lits.new result }
{
    let mut stamp: u64 = 1;
    let mut n: usize = 0;
    let mut i = from;
    // Stays a `while`: the step is a word, and not one.
    while i < text.len() {
        let w = text_next::next_word(text, i);
        let at = w.at;
        let Some(read) = w.read else {
            if at == text.len() {
                break;
            }
            return Err(no_number(text, at, w.first));
        };
        let value = read.value;
        if u64::from(vars) < value {
            return Err(TextFault::PastDeclared(at));
        }
        if stops(all, stamps, value as usize, stamp) {
            if all {
                return Err(TextFault::VariableTwice(at));
            }
            return Ok(Scanned::Closed(n, read.end));
        }
        let closing = value == 0;
        lits[n] = lit::literal_of(value, read.minus);
        stamp = stamp + u64::from(closing);
        n = longer(n, closing);
        if n == 257 {
            return Err(TextFault::LongClause(at));
        }
        i = read.end;
    }
    if n == 0 {
        return Ok(Scanned::Ended((stamp - 1) as usize));
    }
    Err(TextFault::UnclosedClause(text.len()))
}

// All clauses behind a word that ends at `from`.
fn scan_all(text: &[u8], from: usize, vars: u32) -> Result<Scanned, TextFault>
    requires { (from ≤ length text.now) × Behind text.now from × (vars ≤ 2048) }
    ensures { AllTold text.now from vars result }
{
    let mut stamps = [0u64; 2049];
    let mut lits = [0i32; 257];
    scan(text, from, vars, true, &mut stamps, &mut lits)
}

// A text of any bytes: V and the number of its clauses, or its first fault.
pub fn judge(text: &[u8]) -> Result<TextCounts, TextFault>
    ensures { result ≡ judged_text (read_text text.now) }
{
    let declared = dimacs_problem::read_problem(text)?;
    let vars = declared.vars;
    let scanned = scan_all(text, declared.end, vars)?;
    match scanned {
        Scanned::Closed(clauses, _) => Ok(TextCounts { vars, clauses }),
        Scanned::Ended(clauses) => {
            if clauses as u64 == declared.clauses {
                return Ok(TextCounts { vars, clauses });
            }
            Err(TextFault::WrongClauseCount(text.len()))
        }
    }
}
