// What is lent and carried: what is carried on of a working table, that no two parts of the pool overlap, and that the stack lists each stacked clause once.
#![tactic(auto)]

ghost use Rattle.std.specs.Prelude.{◌≡◌, true, ◌&&◌, List, ◌<◌, ◌≤◌, eqb, ℤ, length};
ghost use Rattle.rules.specs.Answers.{lent};
ghost use Rattle.rules.specs.Lists.{all_pass, only};
ghost use Rattle.table.specs.Spelled.{Rising, clauses, stands};
ghost use Rattle.lent.specs.Marks.{Takes};
ghost use Rattle.lent.specs.State.{clear, every_two, inside, lists};
ghost use Rattle.lent.specs.Stored.{carried_of};

use rules::Answer;
use table::{PLACE, Row, START, Table};

// What goes beside the lent tables: V, the highest id accepted, how many entries are held, how many words they hold, how many ids are on the stack,
// and the stack's ids from its bottom.
#[repr(C)]
#[derive(Clone, Copy)]
pub struct Carried {
    pub vars: u32,
    pub highest: u32,
    pub count: u32,
    pub words: u32,
    pub depth: u32,
    pub stack: [u32; 1024],
}

// The answer, and what is carried after it.
#[derive(Clone, Copy)]
pub struct Called {
    pub answer: Answer,
    pub carried: Carried,
}

// What is carried on of a working table.
pub fn carry(t: Table, stack: [u32; 1024]) -> Carried
    ensures { result ≡ carried_of t stack }
{
    Carried {
        vars: t.vars,
        highest: t.highest,
        count: t.count,
        words: t.words,
        depth: t.depth,
        stack,
    }
}

// Lent sizes, of entries and of words, that are in range.
pub fn in_sizes(entries: usize, words: usize) -> bool
    ensures { result ≡ lent entries words }
{
    if entries == 0 {
        return false;
    }
    if 1024 < entries {
        return false;
    }
    if words == 0 {
        return false;
    }
    words <= 8192
}

// The same beside the size of a model buffer.
pub fn in_sizes_with_model(entries: usize, words: usize, buffer: usize) -> bool
    ensures { result ≡ (lent entries words && eqb buffer 32) }
{
    if in_sizes(entries, words) {
        return buffer == 32;
    }
    false
}

// ---- the parts of the pool

// Marks the words of a part, from start to end; or false, where one of them was marked already. An empty part may lie anywhere.
fn mark_part(marks: &mut [bool], start: usize, end: usize) -> bool
    requires { (start ≤ end) × (start < end → end ≤ length marks.old) }
    ensures { Takes marks.old start end result marks.new }
{
    for w in start..end {
        if marks[w] {
            return false;
        }
        marks[w] = true;
    }
    true
}

// Whether no two parts overlap: no part has a word that an earlier part marked.
pub fn are_apart(rows: &[Row], words: usize) -> bool
    requires { (all_pass (inside words) rows.now ≡ true) × (words ≤ 8192) }
    ensures { result ≡ every_two clear rows.now }
{
    let mut marks = [false; 8192];
    for &row in rows {
        let start = table::wide(row[START]);
        let end = start + table::size_of(row);
        if !mark_part(&mut marks, start, end) {
            return false;
        }
    }
    true
}

// ---- the stack

// How many rows are stacked.
fn count_stacked(rows: &[Row]) -> usize
    ensures { result ≡ length (only (stands 2) rows.now) }
{
    let mut n = 0;
    for row in rows {
        if row[PLACE] == 2 {
            n += 1;
        }
    }
    n
}

// Whether the ids list each stacked clause once: as many as there are, and each a stacked clause's whose row is not marked yet.
pub fn lists_each_once(rows: &[Row], ids: &[u32]) -> bool
    requires { Rising rows.now × (length rows.now ≤ 1024) }
    ensures { (pool : List ℤ) → result ≡ lists ids.now (clauses 2 pool rows.now) }
{
    if ids.len() != count_stacked(rows) {
        return false;
    }
    let mut marks = [false; 1024];
    for &id in ids {
        let Some(k) = table::find(rows, id) else {
            return false;
        };
        if table::place_at(rows, k) != 2 {
            return false;
        }
        if marks[k] {
            return false;
        }
        marks[k] = true;
    }
    true
}
