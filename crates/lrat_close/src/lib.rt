// The end of a proof's line: judged by &, and a clause that passed goes into the table only then. Once the answer is known the table is empty.
#![tactic(auto)]

ghost use Rattle.std.specs.Prelude.{◌≡◌, List, ◌≤◌, ℤ, length, take};
ghost use Rattle.rules.specs.Terms.{Literals, State};
ghost use Rattle.table.specs.Spelled.{Fit, spelled};
ghost use Rattle.lrat.specs.Machine as machine;
ghost use Rattle.lrat.specs.Checking.{ask_room};
ghost use Rattle.lrat.specs.Kept.{Keeps, read_with};
ghost use Rattle.lrat_close.specs.Closes.{empty_table, Closes};

use lrat::ProofLine;
use rules::Check;
use table::{Row, Table};

// ---- the number of refusal, or 0

// 31 to 36, where one of them decides an addition, else 37.
fn addition_fault(t: Table, l: ProofLine, lits: &[i32]) -> u32
    requires { (t.vars ≤ 2048) × Keeps l lits.now }
    ensures { (s : State) (F : Literals) → s.vars ≡ t.vars → s.highest ≡ t.highest
        → result ≡ machine.addition_fault s (read_with l (take l.count lits.now) F) }
{
    if l.id == 0 {
        return l.noted.min(31);
    }
    if 2147483647 < l.id {
        return l.noted.min(31);
    }
    let n = l.count as usize;
    let flaw = lit_clause::flaw(t.vars as usize, &lits[..n], 0);
    if let Err(_) = flaw {
        return l.noted.min(33);
    }
    if l.id <= t.highest {
        return l.noted.min(34);
    }
    l.noted.min(37)
}

// 12, then 13: room for a clause of n literals, by the counts alone.
fn room_code(rows: &[Row], pool: &[i32], stack: &[u32], t: Table, n: usize) -> u32
    requires { Fit t rows.now pool.now stack.now × (n ≤ 256) }
    ensures { (c : List ℤ) → length c ≡ n → result ≡ ask_room (spelled t rows.now pool.now stack.now) c 0 }
{
    let count = t.count as usize;
    let most = t.entries as usize + t.gone as usize;
    let words = t.words as usize + n;
    if most <= count {
        return 12;
    }
    if pool.len() < words {
        return 13;
    }
    0
}

fn addition_code(
    rows: &[Row],
    pool: &[i32],
    stack: &[u32],
    t: Table,
    l: ProofLine,
    lits: &[i32],
) -> u32
    requires { Fit t rows.now pool.now stack.now × Keeps l lits.now }
    ensures { (F : Literals) → result ≡ machine.addition_code (spelled t rows.now pool.now stack.now)
        (read_with l (take l.count lits.now) F) }
{
    let fault = addition_fault(t, l, lits);
    if fault < 37 {
        return fault;
    }
    let spare = room_code(rows, pool, stack, t, l.count as usize);
    if spare != 0 {
        return spare;
    }
    if l.proof != 1 {
        return 37;
    }
    0
}

// The number of refusal of a line that ends here: it is an addition, a deletion, or not closed.
fn line_code(rows: &[Row], pool: &[i32], stack: &[u32], t: Table, l: ProofLine, lits: &[i32]) -> u32
    requires { Fit t rows.now pool.now stack.now × Keeps l lits.now }
    ensures { (F : Literals) → result ≡ machine.line_code (spelled t rows.now pool.now stack.now)
        (read_with l (take l.count lits.now) F) }
{
    if l.phase == 4 {
        return addition_code(rows, pool, stack, t, l, lits);
    }
    if l.phase != 6 {
        return 31;
    }
    if l.noted < 37 {
        return l.noted;
    }
    0
}

// ---- the table behind it

// The table, opened empty.
pub fn emptied(t: Table) -> Table
    ensures { result ≡ empty_table t.vars t.entries }
{
    Table {
        vars: t.vars,
        highest: 0,
        entries: t.entries,
        count: 0,
        gone: 0,
        words: 0,
        depth: 0,
        top: 0,
    }
}

// The numbers beside the tables, the number of refusal, and whether the answer is known: both go into the reader, which a caller in C may hand back.
#[derive(Clone, Copy)]
pub struct LineClosed {
    pub table: Table,
    pub code: u32,
    pub over: bool,
}

// Whether the answer is known behind a line: it is refused, or it is the empty clause.
fn is_last(code: u32, l: ProofLine) -> bool
    ensures { (lits : List ℤ) (F : Literals) → length lits ≡ l.count → result ≡ machine.is_last code (read_with l lits F) }
{
    if code != 0 {
        return true;
    }
    if l.phase != 4 {
        return false;
    }
    l.count == 0
}

// Closes a line.
pub fn close_line(
    rows: &mut [Row],
    pool: &mut [i32],
    stack: &[u32],
    t: Table,
    l: ProofLine,
    lits: &[i32],
) -> LineClosed
    requires { Fit t rows.old pool.old stack.now × Keeps l lits.now × (31 ≤ l.noted) }
    ensures { Closes t rows.old pool.old stack.now l lits.now result rows.new pool.new }
{
    let code = line_code(rows, pool, stack, t, l, lits);
    if is_last(code, l) {
        return LineClosed {
            table: emptied(t),
            code,
            over: true,
        };
    }
    let mut table = t;
    if l.phase == 4 {
        let n = l.count as usize;
        table = table_write::append(rows, pool, stack, t, 1, l.id, &lits[..n]);
    }
    LineClosed {
        table,
        code,
        over: false,
    }
}
