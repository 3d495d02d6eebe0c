// What an accepted ADD, LEARN, FORGET, DROP, PROMOTE or RESTORE does to the working table, as the paper says; and how a row gives up words, which
// WEAKEN starts with too (`weaken_write`).
// What fits is the whole table, so all of it is lent, also where a part is not looked at.
#![tactic(auto)]

ghost use Rattle.std.specs.Prelude.{◌≡◌, List, ◌<◌, ◌≤◌, ℤ, length, set};
ghost use Rattle.rules.specs.Frames.{PROMOTE, RESTORE};
ghost use Rattle.table.specs.Spelled.{Fit, id_of, length_of, place_of, row_at, size};
ghost use Rattle.table_write.specs.Moved.{Moved, NewClause, comes_by, cut_row, goes_by, lessened};

use table::{ID, LENGTH, Row, START, Table, WITNESS};

// ADD to place 0, LEARN to place 1: the literals go to the pool's tail, a row behind the last.
pub fn append(
    rows: &mut [Row],
    pool: &mut [i32],
    stack: &[u32],
    t: Table,
    place: u32,
    id: u32,
    lits: &[i32],
) -> Table
    requires { Fit t rows.old pool.old stack.now × NewClause t pool.old id lits.now × (place ≤ 1) }
    ensures { (hints : List ℤ) → Moved t rows.old pool.old stack.now result rows.new pool.new
        stack.now
        (comes_by place id lits.now hints) }
{
    let v = table_room::free_row(rows, pool, stack, t);
    let mut u = table_room::make_room(rows, pool, stack, v, lits.len());
    let count = u.count as usize;
    let top = u.top as usize;
    let n = lits.len() as u32;
    rows[count] = [id, place, u.top, n, 0];
    table_slices::write_literals(&mut pool[top..], lits);
    u.highest = id;
    u.count += 1;
    u.words += n;
    u.top += n;
    u
}

// The row at `at` in another place, with the first n of its literals and no witness: the words that it gives up are nobody's.
pub fn cut_row(rows: &mut [Row], t: Table, at: usize, place: u32, n: u32) -> Table
    requires { (at < length rows.old) × (n ≤ length_of (row_at rows.old at)) × (size (row_at rows.old at) ≤ t.words) }
    ensures { (rows.new ≡ set rows.old at (cut_row (row_at rows.old at) place n))
        × (result ≡ lessened t (row_at rows.old at) n) }
{
    let row = rows[at];
    table::move_row(rows, at, place, row[START], n, 0);
    let mut u = t;
    u.words -= (row[LENGTH] - n) + row[WITNESS];
    u
}

// FORGET, DROP: the clause of the row at `at` goes. Its literals stay where they are, and are nobody's; so does the row, without words, until rows run out.
pub fn remove(rows: &mut [Row], pool: &[i32], stack: &[u32], t: Table, at: usize) -> Table
    requires { Fit t rows.old pool.now stack.now × (at < t.count) × (place_of (row_at rows.old at) ≤ 1) }
    ensures { (hints : List ℤ) → Moved t rows.old pool.now stack.now result rows.new pool.now
        stack.now
        (goes_by (place_of (row_at rows.old at)) (id_of (row_at rows.old at)) hints) }
{
    let mut u = cut_row(rows, t, at, 3, 0);
    u.gone += 1;
    u
}

// PROMOTE: a learned clause becomes irredundant.
pub fn promote(rows: &mut [Row], pool: &[i32], stack: &[u32], t: Table, at: usize) -> Table
    requires { Fit t rows.old pool.now stack.now × (at < t.count) × (place_of (row_at rows.old at) ≡ 1) }
    ensures { Moved t rows.old pool.now stack.now result rows.new pool.now stack.now
        (PROMOTE (id_of (row_at rows.old at))) }
{
    let n = rows[at][LENGTH];
    cut_row(rows, t, at, 0, n)
}

// RESTORE: a stacked clause becomes irredundant. Its witness is forgotten, its id leaves the stack.
pub fn restore(rows: &mut [Row], pool: &[i32], stack: &mut [u32], t: Table, at: usize) -> Table
    requires { Fit t rows.old pool.now stack.old × (at < t.count) × (place_of (row_at rows.old at) ≡ 2) }
    ensures { Moved t rows.old pool.now stack.old result rows.new pool.now stack.new
        (RESTORE (id_of (row_at rows.old at))) }
{
    let row = rows[at];
    let depth = t.depth as usize;
    let from = table_slices::position(stack, depth, row[ID]);
    table_slices::close_stack(stack, depth, from);
    let mut u = cut_row(rows, t, at, 0, row[LENGTH]);
    u.depth -= 1;
    u
}
