// The lent table of clause entries, and the few functions over it: an entry is taken out and handed to a covered function; the table is
// taken in as the rows that the working table is made of, and put back.
#![tactic(auto)]

ghost use Rattle.std.specs.Prelude.{◌≡◌, map, ◌+◌, ◌≤◌, min, length, take};
ghost use Rattle.table_slices.specs.Writes.{over};
ghost use Rattle.table.specs.Spelled.{part};
ghost use Rattle.lent_entries.specs.Lent.{Spans, clause_at, clause_held, entry_at, entry_of, row_of, taken, vacant_rows, witness_at, witness_held};

use table::{ID, LENGTH, PLACE, Row, START, WITNESS};

// The entry of a clause, as lent: its place and where its literals lie; `witness` counts the witness literals, which follow the clause's own.
#[repr(C)]
#[derive(Clone, Copy)]
pub struct Entry {
    pub id: u32,
    pub place: u32,
    pub start: u32,
    pub length: u32,
    pub witness: u32,
}

const VACANT: Entry = Entry {
    id: 0,
    place: 0,
    start: 0,
    length: 0,
    witness: 0,
};

// ---- the reading of a held clause

// The entry at i; past the table's end an entry that holds nothing.
pub fn entry_at(entries: &[Entry], i: usize) -> Entry
    ensures { result ≡ entry_at entries.now i }
{
    entries.get(i).copied().unwrap_or(VACANT)
}

// Where a part of the pool lies: `length` words from `start` on.
#[derive(Clone, Copy)]
pub struct Span {
    pub start: usize,
    pub length: usize,
}

// The n words from `start` on of a pool of so many words, or those of them that there are.
fn span_of(words: usize, start: usize, n: usize) -> Span
    ensures { Spans words start n result.start result.length }
{
    let from = start.min(words);
    Span {
        start: from,
        length: n.min(words - from),
    }
}

pub fn clause_span(words: usize, e: Entry) -> Span
    ensures { Spans words e.start e.length result.start result.length }
{
    span_of(words, e.start as usize, e.length as usize)
}

pub fn witness_span(words: usize, e: Entry) -> Span
    ensures { Spans words (e.start + e.length) e.witness result.start result.length }
{
    let start = e.start as usize + e.length as usize;
    span_of(words, start, e.witness as usize)
}

fn part_at<'a>(pool: &'a [i32], s: Span) -> &'a [i32]
    requires { s.start + s.length ≤ length pool.now }
    ensures { result.now ≡ part pool.now s.start s.length }
{
    &pool[s.start..s.start + s.length]
}

// The literals of the clause that entry i holds: a part of the pool, with no copy.
pub fn clause_of<'a>(entries: &[Entry], pool: &'a [i32], i: usize) -> &'a [i32]
    ensures { result.now ≡ clause_at entries.now pool.now i }
{
    part_at(pool, clause_span(pool.len(), entry_at(entries, i)))
}

// Those of its witness.
pub fn witness_of<'a>(entries: &[Entry], pool: &'a [i32], i: usize) -> &'a [i32]
    ensures { result.now ≡ witness_at entries.now pool.now i }
{
    part_at(pool, witness_span(pool.len(), entry_at(entries, i)))
}

// ---- the whole table, as rows and back

impl From<Entry> for Row {
    ghost from_gives = { λ e row. row ≡ row_of e };

    fn from(e: Entry) -> Row {
        [e.id, e.place, e.start, e.length, e.witness]
    }
}

impl From<Row> for Entry {
    ghost from_gives = { λ row e. e ≡ entry_of row };

    fn from(row: Row) -> Entry {
        Entry {
            id: row[ID],
            place: row[PLACE],
            start: row[START],
            length: row[LENGTH],
            witness: row[WITNESS],
        }
    }
}

pub fn vacant_rows() -> [Row; 1280]
    ensures { result ≡ vacant_rows }
{
    [[0u32; 5]; 1280]
}

// The first `count` entries as rows, as far as there are entries, and at most 1,024: where few are held, few are copied. The rows behind them hold nothing.
pub fn take_in(entries: &[Entry], count: u32) -> [Row; 1280]
    ensures { result ≡ taken entries.now count }
{
    let n = (count as usize).min(1024).min(entries.len());
    let mut rows = vacant_rows();
    for (i, &entry) in entries[..n].iter().enumerate() {
        rows[i] = Row::from(entry);
    }
    rows
}

// A table of 1,024 entries that hold nothing.
pub fn vacant_entries() -> [Entry; 1024]
    ensures { length result ≡ 1024 }
{
    [VACANT; 1024]
}

// What a call hands back, and how many of the rows taken in are to be put back after it.
#[derive(Clone, Copy)]
pub struct Ran<T> {
    pub given: T,
    pub count: usize,
}

// The first n rows, as entries, over the first n of the table; so the table's rows are then these over those that it had.
pub fn put_back(entries: &mut [Entry], n: usize, rows: [Row; 1280])
    requires { (n ≤ length entries.old) × (n ≤ 1280) }
    ensures { (entries.new ≡ over entries.old (map entry_of (take n rows)))
        × (map row_of entries.new ≡ over (map row_of entries.old) (take n rows)) }
{
    for (k, &row) in rows[..n].iter().enumerate() {
        entries[k] = Entry::from(row);
    }
}
