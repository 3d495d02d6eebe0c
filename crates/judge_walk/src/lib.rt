// The loops over what is held: the irredundant clauses under an assignment, and the records from the top of the stack.
#![tactic(auto)]

ghost use Rattle.std.specs.Prelude.{◌≡◌, true, ◌≤◌, ◌<◌, length, get_or};
ghost use Rattle.rules.specs.Lists.{all_pass};
ghost use Rattle.rules.specs.Terms.{in_range};
ghost use Rattle.rules.specs.Frames as frames;
ghost use Rattle.rules.specs.Answers as paper;
ghost use Rattle.lit_sets.specs.Words.{assigned};
ghost use Rattle.table.specs.Spelled.{Readable, Rising, clauses, row_at};
ghost use Rattle.judge_walk.specs.Records.{Record, Stacked, records, falsified, is_stacked};

use rules::{Check, Fault};
use table::Row;

// ---- SAT: the offered assignment

// 11: the first assumption that is not true, where `at` is the index of the first.
pub fn assumed_true(words: &[u64; 32], c: &[i32], at: usize) -> Check
    requires { (at ≤ 4096) × (length c.now ≤ 4096) × (all_pass (in_range 2048) c.now ≡ true) }
    ensures { result ≡ paper.assumed_true (assigned words.now) at c.now }
{
    for (i, &l) in c.iter().enumerate() {
        if !lit_sets::is_true(words, l) {
            return Err(Fault::Assumption(at + i));
        }
    }
    Ok(())
}

// The row is that of an irredundant clause with no true literal.
fn is_falsified(rows: &[Row], pool: &[i32], k: usize, words: &[u64; 32]) -> bool
    requires { Readable rows.now pool.now × (k < length rows.now) }
    ensures { result ≡ falsified (assigned words.now) pool.now (row_at rows.now k) }
{
    if table::place_at(rows, k) == 0 {
        return !lit_clause::satisfied(table::clause_of(rows, pool, k), words);
    }
    false
}

// 10: the irredundant clause of the least id that has no true literal.
pub fn satisfied(rows: &[Row], pool: &[i32], words: &[u64; 32]) -> Check
    requires { Readable rows.now pool.now }
    ensures { result ≡ paper.satisfied (assigned words.now) (clauses 0 pool.now rows.now) }
{
    for k in 0..rows.len() {
        if is_falsified(rows, pool, k, words) {
            return Err(Fault::Falsified(table::id_at(rows, k)));
        }
    }
    Ok(())
}

// ---- the records, of which `stack` has the ids from the bottom

// The row of the record of this id.
fn record_of(rows: &[Row], id: u32) -> usize
    requires { Rising rows.now × (is_stacked rows.now id ≡ true) }
    ensures { Record rows.now id result }
{
    table::find(rows, id).unwrap()
}

// 5: the topmost record against which c is not clean. The clause is marked once, each witness scanned.
pub fn cleanly(rows: &[Row], pool: &[i32], stack: &[u32], c: &[i32]) -> Check
    requires { Readable rows.now pool.now × Stacked pool.now rows.now stack.now × (all_pass (in_range 2048) c.now ≡ true) }
    ensures { result ≡ paper.cleanly c.now (records pool.now rows.now stack.now) }
{
    let set = lit_clause::mark(c);
    for j in (0..stack.len()).rev() {
        let k = record_of(rows, stack[j]);
        if lit_clause::opposed(table::witness_of(rows, pool, k), &set) {
            return Err(Fault::Unclean(table::id_at(rows, k)));
        }
    }
    Ok(())
}

// The walk from top to bottom: where a record's clause has no true literal, its witness literals become true.
pub fn mend(rows: &[Row], pool: &[i32], stack: &[u32], offered: [u64; 32]) -> [u64; 32]
    requires { Readable rows.now pool.now × Stacked pool.now rows.now stack.now }
    ensures { assigned result ≡ frames.mend (assigned offered) (records pool.now rows.now stack.now) }
{
    let mut words = offered;
    for j in (0..stack.len()).rev() {
        let k = record_of(rows, stack[j]);
        if !lit_clause::satisfied(table::clause_of(rows, pool, k), &words) {
            words = lit_sets::make_true(words, table::witness_of(rows, pool, k));
        }
    }
    words
}
