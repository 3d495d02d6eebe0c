// Whether what is lent and carried is a state, and the working table made of it.
#![tactic(auto)]

ghost use Rattle.std.specs.Prelude.{◌≡◌, true, ◌≤◌, length};
ghost use Rattle.rules.specs.Lists.{all_pass};
ghost use Rattle.table.specs.Spelled.{Rising};
ghost use Rattle.lent_order.specs.Orders.{is_tidy};
ghost use Rattle.lent_load.specs.Loads.{Loads, StackLent};

use lent::Carried;
use table::{Row, Table};

// Rows by rising id against what is carried: a working table, or no state.
fn judge(rows: &[Row], pool: &[i32], c: Carried) -> Option<Table>
    requires { Rising rows.now × (all_pass is_tidy rows.now ≡ true) × StackLent c × (c.count ≡ length rows.now) × (length rows.now ≤ 1024)
        × (length pool.now ≤ 8192) }
    ensures { Loads c rows.now pool.now result rows.now }
{
    let vars = table::wide(c.vars);
    if vars == 0 {
        return None;
    }
    if 2048 < vars {
        return None;
    }
    if 2147483647 < c.highest {
        return None;
    }
    if !lent_lawful::are_right(rows, pool, vars, c.highest) {
        return None;
    }
    if lent_lawful::words_of(rows) != table::wide(c.words) {
        return None;
    }
    if !lent::are_apart(rows, pool.len()) {
        return None;
    }
    let stack = c.stack;
    let depth = table::wide(c.depth);
    if !lent::lists_each_once(rows, &stack[..depth]) {
        return None;
    }
    let top = lent_lawful::end_of(rows) as u32;
    Some(Table {
        vars: c.vars,
        highest: c.highest,
        entries: c.count,
        count: c.count,
        gone: 0,
        words: c.words,
        depth: c.depth,
        top,
    })
}

// The rows, all of them held, brought into rising order and judged.
fn load_held(rows: &mut [Row], pool: &[i32], c: Carried) -> Option<Table>
    requires { StackLent c × (c.count ≡ length rows.old) × (length rows.old ≤ 1024) × (length pool.now ≤ 8192) }
    ensures { Loads c rows.old pool.now result rows.new }
{
    if !lent_order::arrange(rows) {
        return None;
    }
    judge(rows, pool, c)
}

fn count(ids: &[u32]) -> usize
    ensures { result ≡ length ids.now }
{
    ids.len()
}

// How many ids the stack has room for: that an array is as long as its type says is told where it is made a slice.
fn stack_room(stack: &[u32; 1024]) -> usize
    ensures { (result ≡ 1024) × (length stack.now ≡ 1024) }
{
    count(stack)
}

// Brings the rows held into rising order and judges them.
pub fn load(rows: &mut [Row], pool: &[i32], c: Carried) -> Option<Table>
    requires { (length rows.old ≤ 1024) × (length pool.now ≤ 8192) }
    ensures { Loads c rows.old pool.now result rows.new }
{
    let count = table::wide(c.count);
    if rows.len() < count {
        return None;
    }
    let stack = c.stack;
    if stack_room(&stack) < table::wide(c.depth) {
        return None;
    }
    // load_held sees the rows held alone, but as many clauses may be held as there are rows lent.
    let entries = rows.len() as u32;
    let t = load_held(&mut rows[..count], pool, c)?;
    Some(Table { entries, ..t })
}
