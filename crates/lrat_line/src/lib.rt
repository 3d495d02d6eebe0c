// A line of a proof on the working table, word by word: what is kept of it does not grow with it. Literals are kept, hints are read as they come, deleted
// clauses go as their ids come; the least number of refusal that was noted decides at the line's end.
#![tactic(auto)]

ghost use Rattle.std.specs.Prelude.{◌≡◌, ◌≤◌};
ghost use Rattle.rules.specs.Terms.{everything};
ghost use Rattle.rules.specs.Propagation.{among, judge};
ghost use Rattle.lit_sets.specs.Words.{literals};
ghost use Rattle.table.specs.Spelled.{Fit, Located, Readable, Rising, spelled};
ghost use Rattle.judge_propagate.specs.Look.{HintRead};
ghost use Rattle.judge_propagate.specs.Scope.{all_clauses, allowed_of};
ghost use Rattle.lrat.specs.Machine as machine;
ghost use Rattle.lrat.specs.Kept.{Keeps};
ghost use Rattle.lrat_line.specs.Lines.{reading, LiteralTaken, LiteralsEnded, LineRead, literal_or_end};
ghost use Rattle.lrat_line.specs.Lines.{HintTaken, hint_or_end, DeletedTaken, Takes};

use judge_propagate::Looked;
use lit_sets::LitSet;
use lrat::{LineWord, ProofLine};
use table::{Row, Table};

// ---- what is noted

// A number of refusal: the least of a line decides.
pub fn note(l: ProofLine, code: u32) -> ProofLine
    ensures { result ≡ machine.noting code l }
{
    let mut r = l;
    if code < l.noted {
        r.noted = code;
    }
    r
}

fn enter(l: ProofLine, phase: u32) -> ProofLine
    ensures { result ≡ machine.in_phase phase l }
{
    let mut r = l;
    r.phase = phase;
    r
}

// ---- an id

// The number as an id, 0 where it is none.
fn id_said(minus: bool, v: u64) -> u32
    ensures { result ≡ machine.id_said minus v }
{
    if minus {
        return 0;
    }
    if 2147483647 < v {
        return 0;
    }
    v as u32
}

// ---- literals

// A literal goes behind those that are kept, where it is in range and there are fewer than 256.
fn take_literal(vars: u32, l: ProofLine, lits: &mut [i32], minus: bool, v: u64) -> ProofLine
    requires { (vars ≤ 2048) × Keeps l lits.old }
    ensures { LiteralTaken vars minus v l lits.old result lits.new }
{
    let mut r = enter(l, 2);
    if v == 0 || (vars as u64) < v {
        return note(r, 32);
    }
    let n = l.count as usize;
    if n == 256 {
        return note(r, 33);
    }
    lits[n] = lit::literal_of(v, minus);
    r.count = l.count + 1;
    r
}

// All literals are read: they are false.
fn end_literals(l: ProofLine, lits: &[i32], falses: &mut LitSet) -> ProofLine
    requires { Keeps l lits.now }
    ensures { LiteralsEnded l lits.now result falses.new.plus falses.new.minus }
{
    let n = l.count as usize;
    *falses = lit_clause::mark(&lits[..n]);
    enter(l, 3)
}

// A number among the literals: 0 ends them.
fn among_literals(
    vars: u32,
    l: ProofLine,
    lits: &mut [i32],
    falses: &mut LitSet,
    negative: bool,
    v: u64,
) -> ProofLine
    requires { (vars ≤ 2048) × Keeps l lits.old }
    ensures { LineRead (literal_or_end vars negative v (reading l lits.old falses.old.plus falses.old.minus))
        result lits.new falses.new.plus falses.new.minus }
{
    if v == 0 {
        return end_literals(l, lits, falses);
    }
    take_literal(vars, l, lits, negative, v)
}

// ---- hints

// The row of an id. The clauses of the rules have the ids 1, 2, 3 and so on, so the first guess is the row of that number; the row's own id decides.
fn find_row(rows: &[Row], id: u32) -> Option<usize>
    requires { Rising rows.now }
    ensures { Located rows.now id result }
{
    let behind = id as usize;
    if 0 < behind && behind <= rows.len() {
        let k = behind - 1;
        if table::id_at(rows, k) == id {
            return Some(k);
        }
    }
    table::find(rows, id)
}

// One hint, read by the clause that it names among the rows held.
fn read_hint(rows: &[Row], pool: &[i32], id: u32, falses: &mut LitSet) -> Looked
    requires { Readable rows.now pool.now }
    ensures { HintRead (judge (literals falses.old) (allowed_of all_clauses pool.now rows.now id))
        (literals falses.old) result (literals falses.new) }
{
    let Some(k) = find_row(rows, id) else {
        return Looked::Bad;
    };
    if 2 < table::place_at(rows, k) {
        return Looked::Bad;
    }
    judge_propagate::look(table::clause_of(rows, pool, k), falses)
}

// A hint, while the hints go on.
fn take_hint(
    rows: &[Row],
    pool: &[i32],
    stack: &[u32],
    t: Table,
    l: ProofLine,
    v: u64,
    falses: &mut LitSet,
) -> ProofLine
    requires { Fit t rows.now pool.now stack.now }
    ensures { HintTaken (machine.take_hint (among (everything (spelled t rows.now pool.now stack.now))) v)
        l falses.old.plus falses.old.minus result falses.new.plus falses.new.minus }
{
    let mut r = l;
    if l.proof != 0 {
        return r;
    }
    if 2147483647 < v {
        r.proof = 2;
        return r;
    }
    let n = t.count as usize;
    let looked = read_hint(&rows[..n], pool, v as u32, falses);
    match looked {
        Looked::Conflict => r.proof = 1,
        Looked::Forced => (),
        Looked::Bad => r.proof = 2,
    }
    r
}

// A number among the hints: 0 ends them, and none is negative.
fn among_hints(
    rows: &[Row],
    pool: &[i32],
    stack: &[u32],
    t: Table,
    l: ProofLine,
    falses: &mut LitSet,
    negative: bool,
    v: u64,
) -> ProofLine
    requires { Fit t rows.now pool.now stack.now }
    ensures { HintTaken (hint_or_end (spelled t rows.now pool.now stack.now) negative v)
        l falses.old.plus falses.old.minus result falses.new.plus falses.new.minus }
{
    if v == 0 {
        return enter(l, 4);
    }
    if negative {
        return note(l, 36);
    }
    take_hint(rows, pool, stack, t, l, v, falses)
}

// ---- deleted ids

// The numbers beside the tables, and the line.
#[derive(Clone, Copy)]
pub struct Taken {
    pub table: Table,
    pub line: ProofLine,
}

// The clause goes, where it is held.
fn take_deleted(
    rows: &mut [Row],
    pool: &[i32],
    stack: &[u32],
    t: Table,
    l: ProofLine,
    v: u64,
) -> Taken
    requires { Fit t rows.old pool.now stack.now }
    ensures { DeletedTaken (machine.take_deleted (spelled t rows.old pool.now stack.now) v)
        pool.now stack.now l result rows.new }
{
    if 2147483647 < v {
        return Taken {
            table: t,
            line: note(l, 35),
        };
    }
    let id = v as u32;
    if let Some(k) = judge_checks::locate(rows, t, 1, id) {
        return Taken {
            table: table_write::remove(rows, pool, stack, t, k),
            line: l,
        };
    }
    if let Some(k) = judge_checks::locate(rows, t, 0, id) {
        return Taken {
            table: table_write::remove(rows, pool, stack, t, k),
            line: l,
        };
    }
    Taken {
        table: t,
        line: note(l, 35),
    }
}

// A number among the deleted ids: 0 ends them, and none is negative.
fn among_ids(
    rows: &mut [Row],
    pool: &[i32],
    stack: &[u32],
    t: Table,
    l: ProofLine,
    negative: bool,
    v: u64,
) -> Taken
    requires { Fit t rows.old pool.now stack.now }
    ensures { DeletedTaken (machine.among_ids (spelled t rows.old pool.now stack.now) negative v)
        pool.now stack.now l result rows.new }
{
    if v == 0 {
        return Taken {
            table: t,
            line: enter(l, 6),
        };
    }
    if negative {
        return Taken {
            table: t,
            line: note(l, 31),
        };
    }
    take_deleted(rows, pool, stack, t, l, v)
}

// ---- a word

// A number, by the line's phase.
fn take_number(
    rows: &mut [Row],
    pool: &[i32],
    stack: &[u32],
    t: Table,
    l: ProofLine,
    lits: &mut [i32],
    falses: &mut LitSet,
    negative: bool,
    v: u64,
) -> Taken
    requires { Fit t rows.old pool.now stack.now × Keeps l lits.old }
    ensures { Takes (machine.take_number (spelled t rows.old pool.now stack.now) negative v
        (reading l lits.old falses.old.plus falses.old.minus))
        result rows.new pool.now stack.now lits.new falses.new.plus falses.new.minus }
{
    if l.phase == 5 {
        return among_ids(rows, pool, stack, t, l, negative, v);
    }
    let mut line = l;
    if l.phase == 0 {
        line.phase = 1;
        line.id = id_said(negative, v);
    } else if l.phase < 3 {
        line = among_literals(t.vars, l, lits, falses, negative, v);
    } else if l.phase == 3 {
        line = among_hints(rows, pool, stack, t, l, falses, negative, v);
    } else {
        line = note(l, 31);
    }
    Taken { table: t, line }
}

// A word: d stands behind the id alone.
pub fn take_word(
    rows: &mut [Row],
    pool: &[i32],
    stack: &[u32],
    t: Table,
    l: ProofLine,
    lits: &mut [i32],
    falses: &mut LitSet,
    word: LineWord,
) -> Taken
    requires { Fit t rows.old pool.now stack.now × Keeps l lits.old }
    ensures { Takes (machine.take_word (spelled t rows.old pool.now stack.now) word
        (reading l lits.old falses.old.plus falses.old.minus))
        result rows.new pool.now stack.now lits.new falses.new.plus falses.new.minus }
{
    match word {
        LineWord::Number(negative, v) => take_number(
            rows, pool, stack, t, l, lits, falses, negative, v,
        ),
        LineWord::Deletion => {
            if l.phase == 1 {
                return Taken {
                    table: t,
                    line: enter(l, 5),
                };
            }
            Taken {
                table: t,
                line: note(l, 31),
            }
        }
        LineWord::Other => Taken {
            table: t,
            line: note(l, 31),
        },
    }
}
