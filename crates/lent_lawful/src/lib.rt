// What is right about the rows lent, how many words they hold and where the last of them ends: they are only read.
#![tactic(auto)]

ghost use Rattle.std.specs.Prelude.{◌≡◌, true, ℕ, ◌+◌, ◌<◌, ◌≤◌, length};
ghost use Rattle.rules.specs.Lists.{all_pass};
ghost use Rattle.rules.specs.Terms.{is_clause, is_witness};
ghost use Rattle.table.specs.Facts.{All, total};
ghost use Rattle.table.specs.Spelled.{Inside, held, place_of, row_at, size, start_of};
ghost use Rattle.lent.specs.State.{lawful};
ghost use Rattle.lent_lawful.specs.Rights.{right};

use table::{LENGTH, Row, START, WITNESS};

// ---- a row

fn is_clause(vars: usize, c: &[i32]) -> bool
    requires { vars ≤ 2048 }
    ensures { result ≡ is_clause vars c.now }
{
    if 256 < c.len() {
        return false;
    }
    lit_clause::flaw(vars, c, 0).is_ok()
}

// A witness of the clause: it shares a literal with it.
fn is_witness(vars: usize, lits: &[i32], witness: &[i32]) -> bool
    requires { (vars ≤ 2048) × (is_clause vars lits.now ≡ true) }
    ensures { result ≡ is_witness vars lits.now witness.now }
{
    if !is_clause(vars, witness) {
        return false;
    }
    let set = lit_clause::mark(witness);
    lit_clause::shares(lits, &set)
}

// The row's clause and witness, as its place asks.
fn is_lawful(rows: &[Row], pool: &[i32], k: usize, vars: usize) -> bool
    requires { (k < length rows.now) × Inside (length pool.now) (row_at rows.now k) × (vars ≤ 2048) }
    ensures { result ≡ lawful vars (place_of (row_at rows.now k)) (held pool.now (row_at rows.now k)) }
{
    let lits = table::clause_of(rows, pool, k);
    if !is_clause(vars, lits) {
        return false;
    }
    let witness = table::witness_of(rows, pool, k);
    let place = table::place_at(rows, k);
    if place < 2 {
        return witness.len() == 0;
    }
    if 2 < place {
        return false;
    }
    is_witness(vars, lits, witness)
}

// Where the row's words end.
fn end_at(rows: &[Row], k: usize) -> usize
    requires { k < length rows.now }
    ensures { result ≡ start_of (row_at rows.now k) + size (row_at rows.now k) }
{
    let row = rows[k];
    table::wide(row[START]) + (table::wide(row[LENGTH]) + table::wide(row[WITNESS]))
}

// The row's id, where its words end, and what they are.
fn is_right(rows: &[Row], pool: &[i32], k: usize, vars: usize, highest: u32) -> bool
    requires { (k < length rows.now) × (vars ≤ 2048) }
    ensures { result ≡ right vars highest pool.now (row_at rows.now k) }
{
    let id = table::id_at(rows, k);
    if id == 0 {
        return false;
    }
    if highest < id {
        return false;
    }
    if pool.len() < end_at(rows, k) {
        return false;
    }
    is_lawful(rows, pool, k, vars)
}

// ---- all rows

pub fn are_right(rows: &[Row], pool: &[i32], vars: usize, highest: u32) -> bool
    requires { vars ≤ 2048 }
    ensures { result ≡ all_pass (right vars highest pool.now) rows.now }
{
    for k in 0..rows.len() {
        if !is_right(rows, pool, k, vars, highest) {
            return false;
        }
    }
    true
}

// How many words they hold.
pub fn words_of(rows: &[Row]) -> usize
    requires { All (Inside 8192) rows.now × (length rows.now ≤ 1024) }
    ensures { result ≡ total size rows.now }
{
    let mut sum = 0;
    for &row in rows {
        sum += table::size_of(row);
    }
    sum
}

// Where the last of them ends: the pool's unused tail starts there.
pub fn end_of(rows: &[Row]) -> usize
    ensures all_before { All (Inside result) rows.now }
    ensures no_later { (top : ℕ) → All (Inside top) rows.now → result ≤ top }
{
    let mut top = 0;
    for k in 0..rows.len() {
        top = top.max(end_at(rows, k));
    }
    top
}
