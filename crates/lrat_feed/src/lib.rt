// A proof fed to the working table as its bytes come: words taken, lines closed, and its end.
#![tactic(auto)]

ghost use Rattle.std.specs.Prelude.{◌≡◌, cond, List, ℕ, eqb};
ghost use Rattle.table.specs.Spelled.{spelled};
ghost use Rattle.lrat.specs.Checking as paper;
ghost use Rattle.lrat.specs.Machine as machine;
ghost use Rattle.lrat_feed.specs.Feeding.{Feedable, Feeds, session_of, start_reader, worded, refused_at_end};

use lit_sets::LitSet;
use lrat::{LratAnswer, ProofLine, ProofReader, ProofWord};
use table::{Row, Table};

// The numbers beside the tables, and what is read of the proof.
#[derive(Clone, Copy)]
pub struct Fed {
    pub table: Table,
    pub reader: ProofReader,
}

// ---- the start

// No word of a line is read.
fn line_start() -> ProofLine
    ensures { result ≡ machine.line_start }
{
    ProofLine {
        phase: 0,
        noted: 37,
        id: 0,
        count: 0,
        proof: 0,
    }
}

// No byte of a proof is read.
pub fn start() -> ProofReader
    ensures { result ≡ start_reader }
{
    ProofReader {
        word: lrat_words::at_start(),
        line: line_start(),
        lines: 0,
        over: false,
        code: 0,
    }
}

// ---- a word ends

// The same with another word on its way.
fn with_word(r: ProofReader, word: ProofWord) -> ProofReader
    ensures { result ≡ worded word r }
{
    let line = r.line;
    ProofReader {
        word,
        line,
        lines: r.lines,
        over: r.over,
        code: r.code,
    }
}

fn end_word(
    rows: &mut [Row],
    pool: &[i32],
    stack: &[u32],
    t: Table,
    r: ProofReader,
    lits: &mut [i32],
    falses: &mut LitSet,
) -> Fed
    requires { Feedable t rows.old pool.now stack.now r lits.old }
    ensures { Feeds (machine.end_word (session_of r lits.old falses.old.plus falses.old.minus
        (spelled t rows.old pool.now stack.now)))
        result rows.new pool.now stack.now lits.new falses.new.plus falses.new.minus }
{
    let word = r.word;
    if !lrat_words::is_word(word) {
        return Fed {
            table: t,
            reader: with_word(r, lrat_words::between()),
        };
    }
    let before = r.line;
    let said = lrat_words::said(word);
    let taken = lrat_line::take_word(rows, pool, stack, t, before, lits, falses, said);
    let table = taken.table;
    let line = taken.line;
    Fed {
        table,
        reader: ProofReader {
            word: lrat_words::between(),
            line,
            lines: r.lines,
            over: r.over,
            code: r.code,
        },
    }
}

// ---- a line ends

// One line more; a number of 64 bits does not wrap.
fn one_more(n: u64) -> u64
    ensures { result ≡ paper.one_more n }
{
    if n == 18446744073709551615 {
        return n;
    }
    n + 1
}

fn close_line(
    rows: &mut [Row],
    pool: &mut [i32],
    stack: &[u32],
    t: Table,
    r: ProofReader,
    lits: &[i32],
) -> Fed
    requires { Feedable t rows.old pool.old stack.now r lits.now }
    ensures { (plus minus : List ℕ) → Feeds (machine.close_line (session_of r lits.now plus minus
        (spelled t rows.old pool.old stack.now)))
        result rows.new pool.new stack.now lits.now plus minus }
{
    let line = r.line;
    let closed = lrat_close::close_line(rows, pool, stack, t, line, lits);
    let table = closed.table;
    Fed {
        table,
        reader: ProofReader {
            word: lrat_words::at_start(),
            line: line_start(),
            lines: one_more(r.lines),
            over: closed.over,
            code: closed.code,
        },
    }
}

// ---- a part

// Feeds a part of the proof, of any bytes; none of them is read once the answer is known.
pub fn feed(
    part: &[u8],
    rows: &mut [Row],
    pool: &mut [i32],
    stack: &[u32],
    t: Table,
    r: ProofReader,
    lits: &mut [i32],
    falses: &mut LitSet,
) -> Fed
    requires { Feedable t rows.old pool.old stack.now r lits.old }
    ensures { Feeds (machine.run (session_of r lits.old falses.old.plus falses.old.minus
        (spelled t rows.old pool.old stack.now)) part.now)
        result rows.new pool.new stack.now lits.new falses.new.plus falses.new.minus }
{
    let mut i: usize = 0;
    let mut table = t;
    let mut reader = r;
    // Stays a `while`: the step is a word, and not one.
    while i < part.len() {
        if reader.over {
            break;
        }
        let word = reader.word;
        let taken = lrat_words::take_bytes(part, i, word);
        i = taken.from;
        reader = with_word(reader, taken.word);
        if i == part.len() {
            break;
        }
        let b = part[i];
        i += 1;
        let ended = end_word(rows, pool, stack, table, reader, lits, falses);
        table = ended.table;
        reader = ended.reader;
        if b == 10 {
            let closed = close_line(rows, pool, stack, table, reader, lits);
            table = closed.table;
            reader = closed.reader;
        }
    }
    Fed { table, reader }
}

// ---- the end of the proof

// A last line without LF is a line.
fn end_line(
    rows: &mut [Row],
    pool: &mut [i32],
    stack: &[u32],
    t: Table,
    r: ProofReader,
    lits: &mut [i32],
    falses: &mut LitSet,
) -> Fed
    requires { Feedable t rows.old pool.old stack.now r lits.old }
    ensures { Feeds (machine.end_line (session_of r lits.old falses.old.plus falses.old.minus
        (spelled t rows.old pool.old stack.now)))
        result rows.new pool.new stack.now lits.new falses.new.plus falses.new.minus }
{
    let word = r.word;
    if word.kind == 0 {
        return Fed {
            table: t,
            reader: r,
        };
    }
    let ended = end_word(rows, pool, stack, t, r, lits, falses);
    let table = ended.table;
    let reader = ended.reader;
    close_line(rows, pool, stack, table, reader, lits)
}

// The answer is 38.
fn unproved(r: ProofReader) -> ProofReader
    ensures { result ≡ refused_at_end r }
{
    let line = r.line;
    ProofReader {
        word: lrat_words::at_start(),
        line,
        lines: r.lines,
        over: true,
        code: 38,
    }
}

// Ends the proof: without an empty clause it is refused 38.
pub fn finish(
    rows: &mut [Row],
    pool: &mut [i32],
    stack: &[u32],
    t: Table,
    r: ProofReader,
    lits: &mut [i32],
    falses: &mut LitSet,
) -> Fed
    requires { Feedable t rows.old pool.old stack.now r lits.old }
    ensures { Feeds (machine.finish (session_of r lits.old falses.old.plus falses.old.minus
        (spelled t rows.old pool.old stack.now)))
        result rows.new pool.new stack.now lits.new falses.new.plus falses.new.minus }
{
    if r.over {
        return Fed {
            table: t,
            reader: r,
        };
    }
    let ended = end_line(rows, pool, stack, t, r, lits, falses);
    let reader = ended.reader;
    if reader.over {
        return ended;
    }
    let table = ended.table;
    Fed {
        table: lrat_close::emptied(table),
        reader: unproved(reader),
    }
}

// The answer, where it is known: the detail of an acceptance is 0.
pub fn told(r: ProofReader) -> LratAnswer
    ensures { result ≡ paper.answer r.code (cond (eqb r.code 0) 0 r.lines) }
{
    if r.code == 0 {
        return LratAnswer { code: 0, detail: 0 };
    }
    LratAnswer {
        code: r.code,
        detail: r.lines,
    }
}
