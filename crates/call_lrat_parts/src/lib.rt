// A proof checked in parts over lent tables of its own, so that one of any length needs a fixed amount of memory: opened with the rules of a text, given part
// by part, and left empty once its answer is known. Any bits may be handed in.
#![tactic(auto)]

ghost use Rattle.std.specs.Prelude.{◌≡◌, true, length};
ghost use Rattle.rules.specs.Answers.{lent, check_open};
ghost use Rattle.table.specs.Spelled.{Fit, spelled};
ghost use Rattle.lent_open.specs.Opened.{opened_with};
ghost use Rattle.lrat.specs.Checking.{answer};
ghost use Rattle.lrat.specs.Machine.{run};
ghost use Rattle.lrat_feed.specs.Feeding.{Feedable, Feeds, session_of};
ghost use Rattle.call_lrat_parts.specs.Parts.{is_reading, ended, LratOpening, LratGiving};
ghost use Rattle.call_lrat_parts.specs.Running.{proof_left, proof_stored, reader_answer, fresh_reading, ReadOn, RanOn, GiveRun, OpenRun};

use lent::Carried;
use lent_entries::{Entry, Ran};
use lit_sets::LitSet;
use lrat::{LratAnswer, ProofReader};
use lrat_feed::Fed;
use lrat_fill::Unfilled;
use rules::Check;
use table::{Row, Table};

// What is read of a proof: the reader, the literals of the line on its way, and which literals are false under its hints.
#[derive(Clone, Copy)]
pub struct ProofReading {
    pub reader: ProofReader,
    pub lits: [i32; 256],
    pub falses: LitSet,
}

// The answer, what is carried and what is read after a call.
#[derive(Clone, Copy)]
pub struct LratGiven {
    pub answer: LratAnswer,
    pub carried: Carried,
    pub reading: ProofReading,
}

// ---- what is handed back

// Nothing has changed, and no row is put back.
fn left(answer: LratAnswer, c: Carried, r: ProofReading) -> Ran<LratGiven>
    ensures { result ≡ proof_left answer c r }
{
    Ran {
        given: LratGiven {
            answer,
            carried: c,
            reading: r,
        },
        count: 0,
    }
}

// Code 1: what is lent or read is not what it should be.
fn unmet(c: Carried, r: ProofReading) -> Ran<LratGiven>
    ensures { result ≡ proof_left (answer 1 0) c r }
{
    left(LratAnswer { code: 1, detail: 0 }, c, r)
}

// The rows held go back, and what is carried and read is new.
fn stored(answer: LratAnswer, t: Table, stack: [u32; 1024], reading: ProofReading) -> Ran<LratGiven>
    ensures { result ≡ proof_stored answer t stack reading }
{
    Ran {
        given: LratGiven {
            answer,
            carried: lent::carry(t, stack),
            reading,
        },
        count: t.count as usize,
    }
}

// ---- a part

// Whether a proof is being read.
fn is_reading(r: ProofReading) -> bool
    ensures { result ≡ is_reading r }
{
    let reader = r.reader;
    let line = reader.line;
    if 256 < line.count {
        return false;
    }
    let lits = r.lits;
    let Ok(()) = lit_clause::ranged(2048, &lits[..line.count as usize], 0) else {
        return false;
    };
    31 <= line.noted
}

// The bytes of a part, and the end of the proof where it is the last.
fn feed_part(
    part: &[u8],
    last: bool,
    rows: &mut [Row],
    pool: &mut [i32],
    stack: &[u32],
    t: Table,
    r: ProofReader,
    lits: &mut [i32],
    falses: &mut LitSet,
) -> Fed
    requires { Feedable t rows.old pool.old stack.now r lits.old }
    ensures { Feeds (ended last (run (session_of r lits.old falses.old.plus falses.old.minus
        (spelled t rows.old pool.old stack.now)) part.now))
        result rows.new pool.new stack.now lits.new falses.new.plus falses.new.minus }
{
    let fed = lrat_feed::feed(part, rows, pool, stack, t, r, lits, falses);
    if !last {
        return fed;
    }
    let table = fed.table;
    let reader = fed.reader;
    lrat_feed::finish(rows, pool, stack, table, reader, lits, falses)
}

// The answer where it is known; till then the part is accepted.
fn answer_so_far(r: ProofReader) -> LratAnswer
    ensures { result ≡ reader_answer r }
{
    if r.over {
        return lrat_feed::told(r);
    }
    LratAnswer { code: 0, detail: 0 }
}

// A part on the working table, whose answer is not known yet.
fn read_on(
    rows: &mut [Row],
    pool: &mut [i32],
    stack: [u32; 1024],
    t: Table,
    r: ProofReading,
    part: &[u8],
    last: bool,
) -> Ran<LratGiven>
    requires { Fit t rows.old pool.old stack × (is_reading r ≡ true) }
    ensures { ReadOn t.entries (spelled t rows.old pool.old stack) r part.now last result rows.new
        pool.new }
{
    let before = r.reader;
    let mut lits = r.lits;
    let mut falses = r.falses;
    let fed = feed_part(
        part,
        last,
        rows,
        pool,
        &stack,
        t,
        before,
        &mut lits,
        &mut falses,
    );
    let table = fed.table;
    let whole = table_room::squeeze(rows, pool, &stack, table);
    let reader = fed.reader;
    let reading = ProofReading {
        reader,
        lits,
        falses,
    };
    stored(answer_so_far(reader), whole, stack, reading)
}

// A part on the rows taken in, of which the first n are the table's: there are more, so that few removals close a gap.
fn run_part(
    n: usize,
    rows: &mut [Row],
    pool: &mut [i32],
    c: Carried,
    r: ProofReading,
    part: &[u8],
    last: bool,
) -> Ran<LratGiven>
    requires { (length rows.old ≡ 1280) × (lent n (length pool.old) ≡ true) × (is_reading r ≡ true) }
    ensures { RanOn n rows.old pool.old c r part.now last result rows.new pool.new }
{
    let Some(t) = lent_load::load(&mut rows[..n], pool, c) else {
        return unmet(c, r);
    };
    let reader = r.reader;
    if reader.over {
        return left(lrat_feed::told(reader), c, r);
    }
    let stack = c.stack;
    read_on(rows, pool, stack, t, r, part, last)
}

// A part on the rows of a table of n entries. Code 1 where a size is out of range, or no proof is being read.
fn give_lent(
    n: usize,
    rows: &mut [Row],
    pool: &mut [i32],
    c: Carried,
    r: ProofReading,
    part: &[u8],
    last: bool,
) -> Ran<LratGiven>
    requires { length rows.old ≡ 1280 }
    ensures { GiveRun n rows.old pool.old c r part.now last result rows.new pool.new }
{
    if !lent::in_sizes(n, pool.len()) {
        return unmet(c, r);
    }
    if !is_reading(r) {
        return unmet(c, r);
    }
    run_part(n, rows, pool, c, r, part, last)
}

// ---- opening

// Nothing of a proof is read.
fn fresh() -> ProofReading
    ensures { result ≡ fresh_reading }
{
    ProofReading {
        reader: lrat_feed::start(),
        lits: [0i32; 256],
        falses: LitSet::empty(),
    }
}

// The tables opened empty: there is no room for the rules.
fn emptied(code: u32, vars: u32, n: usize, words: usize, r: ProofReading) -> Ran<LratGiven>
    ensures { result ≡ proof_left (answer code 0) (opened_with vars (check_open vars n words)).carried r }
{
    let opened = lent_open::open_sized(vars, n, words);
    let carried = opened.carried;
    left(LratAnswer { code, detail: 0 }, carried, r)
}

// The rules of a text in a table of n entries, on rows whose words are not looked at.
fn open_lent(
    n: usize,
    rows: &mut [Row],
    pool: &mut [i32],
    c: Carried,
    r: ProofReading,
    cnf: &[u8],
) -> Ran<LratGiven>
    requires { length rows.old ≡ 1280 }
    ensures { OpenRun n pool.old c r cnf.now result rows.new pool.new }
{
    if !lent::in_sizes(n, pool.len()) {
        return unmet(c, r);
    }
    let stack = [0u32; 1024];
    match lrat_fill::fill(cnf, rows, pool, &stack, n as u32) {
        Ok(t) => {
            let whole = table_room::squeeze(rows, pool, &stack, t);
            stored(LratAnswer { code: 0, detail: 0 }, whole, stack, fresh())
        }
        Err(why) => match why {
            Unfilled::Faulty(fault) => left(call_lrat::fault_answer(fault), c, r),
            Unfilled::Full(code, vars) => emptied(code, vars, n, pool.len(), r),
        },
    }
}

// ---- the calls

// Opens lent tables for a proof: they hold the rules of a text, of any bytes.
pub fn open(
    entries: &mut [Entry],
    pool: &mut [i32],
    carried: Carried,
    reading: ProofReading,
    cnf: &[u8],
) -> LratGiven
    ensures { LratOpening entries.old pool.old carried reading cnf.now result entries.new pool.new }
{
    let mut rows = lent_entries::take_in(entries, 0);
    let ran = open_lent(entries.len(), &mut rows, pool, carried, reading, cnf);
    lent_entries::put_back(entries, ran.count, rows);
    ran.given
}

// Gives a part of the proof, of any bytes; `last` says that the proof ends with it.
pub fn give(
    entries: &mut [Entry],
    pool: &mut [i32],
    carried: Carried,
    reading: ProofReading,
    part: &[u8],
    last: bool,
) -> LratGiven
    ensures { LratGiving entries.old pool.old carried reading part.now last result entries.new
        pool.new }
{
    let mut rows = lent_entries::take_in(entries, carried.count);
    let ran = give_lent(entries.len(), &mut rows, pool, carried, reading, part, last);
    lent_entries::put_back(entries, ran.count, rows);
    ran.given
}
