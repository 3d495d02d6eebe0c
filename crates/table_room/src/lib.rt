// Room: at the pool's tail, and behind the last row. It is made where there is none, and leaves every clause what it was.
// What fits is the whole table, so all of it is lent, also where a part is not looked at.
#![tactic(auto)]

ghost use Rattle.std.specs.Prelude.{◌≡◌, ◌+◌, ◌-◌, ◌<◌, ◌≤◌, length};
ghost use Rattle.table.specs.Spelled.{Fit};
ghost use Rattle.table_room.specs.Room.{ClosedUp, FreeRow, Gathered, Roomy, Squeezed};

use table::{LENGTH, PLACE, Row, START, Table, WITNESS};

// All parts, one after the other, into the buffer; each row points to its part there. How many words they are.
fn gather(rows: &mut [Row], pool: &[i32], stack: &[u32], t: Table, buffer: &mut [i32]) -> usize
    requires { Fit t rows.old pool.now stack.now × (t.words ≤ length buffer.old) × (length buffer.old ≤ 8192) }
    ensures { Gathered rows.old pool.now t.count result rows.new buffer.new × (result ≡ t.words) }
{
    let mut at: usize = 0;
    for i in 0..t.count as usize {
        let row = rows[i];
        let n = table::size_of(row);
        table_slices::write_literals(
            &mut buffer[at..],
            table::part_of(pool, row[START] as usize, n),
        );
        table::move_row(rows, i, row[PLACE], at as u32, row[LENGTH], row[WITNESS]);
        at += n;
    }
    at
}

// All parts together at the pool's front, through a buffer: all words that are nobody's lie behind top then.
fn compact(rows: &mut [Row], pool: &mut [i32], stack: &[u32], t: Table) -> Table
    requires { Fit t rows.old pool.old stack.now × (t.words ≤ length pool.old) }
    ensures { Roomy t rows.old pool.old stack.now result rows.new pool.new
        (length pool.old - t.words) }
{
    let mut buffer = [0i32; 8192];
    let top = gather(rows, pool, stack, t, &mut buffer);
    table_slices::write_literals(pool, &buffer[0..top]);
    let mut u = t;
    u.top = t.words;
    u
}

// Room for n words behind top, by compaction where the tail is too short. 13 is judged by `words`, and that is enough.
pub fn make_room(rows: &mut [Row], pool: &mut [i32], stack: &[u32], t: Table, n: usize) -> Table
    requires { Fit t rows.old pool.old stack.now × (t.words + n ≤ length pool.old) }
    ensures { Roomy t rows.old pool.old stack.now result rows.new pool.new n }
{
    let top = t.top as usize;
    if pool.len() - top < n {
        return compact(rows, pool, stack, t);
    }
    t
}

// The rows that hold a clause, one after the other at the front. How many they are.
fn close_up(rows: &mut [Row], count: usize) -> usize
    requires { count ≤ length rows.old }
    ensures { ClosedUp rows.old count result rows.new }
{
    let mut k = 0;
    for i in 0..count {
        let row = rows[i];
        if row[PLACE] != 3 {
            rows[k] = row;
            k += 1;
        }
    }
    k
}

// The rows whose clause is gone are taken out: all of them at once, so that each is moved past few times only.
pub fn squeeze(rows: &mut [Row], pool: &[i32], stack: &[u32], t: Table) -> Table
    requires { Fit t rows.old pool.now stack.now }
    ensures { Squeezed t rows.old pool.now stack.now result rows.new }
{
    let k = close_up(rows, t.count as usize);
    let mut u = t;
    u.count = k as u32;
    u.gone = 0;
    u
}

// A row behind the last: where there is none, one is gone.
pub fn free_row(rows: &mut [Row], pool: &[i32], stack: &[u32], t: Table) -> Table
    requires { Fit t rows.old pool.now stack.now × (t.count < t.entries + t.gone) }
    ensures { FreeRow t rows.old pool.now stack.now result rows.new }
{
    let count = t.count as usize;
    if count == rows.len() {
        return squeeze(rows, pool, stack, t);
    }
    t
}
