// WEAKEN's writer: an irredundant clause becomes the topmost record of the stack, with its witness.
#![tactic(auto)]

ghost use Rattle.std.specs.Prelude.{◌≡◌, List, ◌+◌, ◌<◌, ◌≤◌, ℤ, length, set};
ghost use Rattle.rules.specs.Frames.{WEAKEN};
ghost use Rattle.table_slices.specs.Writes.{written};
ghost use Rattle.table.specs.Spelled.{Fit, id_of, moved_row, row_at};
ghost use Rattle.table_write.specs.Moved.{Moved};
ghost use Rattle.weaken_write.specs.Records.{Weakenable, grown};

use table::{ID, Row, Table};

// A record's literals and, behind them, its witness to the tail; its row; its id on the stack.
fn write_record(
    rows: &mut [Row],
    pool: &mut [i32],
    stack: &mut [u32],
    t: Table,
    at: usize,
    lits: &[i32],
    witness: &[i32],
) -> Table
    requires { (at < length rows.old) × (t.top + (length lits.now + length witness.now) ≤ length pool.old)
        × (t.words + (length lits.now + length witness.now) ≤ length pool.old) × (length pool.old ≤ 8192) × (t.depth < length stack.old)
        × (t.depth < 1024) }
    ensures { (rows.new ≡ set rows.old at
        (moved_row (row_at rows.old at) 2 t.top (length lits.now) (length witness.now)))
        × (pool.new ≡ written (written pool.old t.top lits.now) (t.top + length lits.now) witness.now)
        × (stack.new ≡ set stack.old t.depth (id_of (row_at rows.old at)))
        × (result ≡ grown t (length lits.now + length witness.now)) }
{
    let id = rows[at][ID];
    let top = t.top as usize;
    let depth = t.depth as usize;
    table_slices::write_both(pool, top, lits, witness);
    let n = lits.len() as u32;
    let w = witness.len() as u32;
    table::move_row(rows, at, 2, t.top, n, w);
    stack[depth] = id;
    let mut u = t;
    u.words += n + w;
    u.depth += 1;
    u.top += n + w;
    u
}

// WEAKEN: an irredundant clause goes to the top of the stack with its witness. Its own words are free again before room is made,
// so that 13, which counts the witness alone, is enough also where the pool is full.
pub fn weaken(
    rows: &mut [Row],
    pool: &mut [i32],
    stack: &mut [u32],
    t: Table,
    at: usize,
    witness: &[i32],
) -> Table
    requires { Fit t rows.old pool.old stack.old × Weakenable t rows.old pool.old at witness.now }
    ensures { (groups : List ℤ) → Moved t rows.old pool.old stack.old result rows.new pool.new
        stack.new
        (WEAKEN (id_of (row_at rows.old at)) witness.now groups) }
{
    let clause = table::clause_of(rows, pool, at);
    let n = clause.len();
    let mut lits = [0i32; 256];
    table_slices::write_literals(&mut lits, clause);
    let b = table_write::cut_row(rows, t, at, 0, 0);
    let u = table_room::make_room(rows, pool, stack, b, n + witness.len());
    write_record(rows, pool, stack, u, at, &lits[0..n], witness)
}
