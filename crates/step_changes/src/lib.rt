// The operations that write: each judged by &, and applied by &mut only after its acceptance. What each hands back are the numbers beside the tables after it.
#![tactic(auto)]

ghost use Rattle.std.specs.Prelude.{◌+◌, ◌≤◌, length};
ghost use Rattle.rules.specs.Frames.{ADD, LEARN, FORGET, PROMOTE, DROP, WEAKEN, RESTORE};
ghost use Rattle.table.specs.Spelled.{Fit};
ghost use Rattle.step_changes.specs.Applied.{Applied};

use rules::Fault;
use table::{Row, Table};

pub fn add(
    rows: &mut [Row],
    pool: &mut [i32],
    stack: &[u32],
    t: Table,
    id: u32,
    c: &[i32],
) -> Result<Table, Fault>
    requires { Fit t rows.old pool.old stack.now × (length c.now ≤ 256) × (id ≤ 2147483647) }
    ensures { Applied t rows.old pool.old stack.now (ADD id c.now) result rows.new pool.new
        stack.now }
{
    judge_changes::judge_add(rows, pool, stack, t, id, c)?;
    Ok(table_write::append(rows, pool, stack, t, 0, id, c))
}

pub fn learn(
    rows: &mut [Row],
    pool: &mut [i32],
    stack: &[u32],
    t: Table,
    id: u32,
    c: &[i32],
    hints: &[i32],
) -> Result<Table, Fault>
    requires { Fit t rows.old pool.old stack.now × (length c.now ≤ 256) × (length hints.now ≤ 4096) × (id ≤ 2147483647) }
    ensures { Applied t rows.old pool.old stack.now (LEARN id c.now hints.now) result
        rows.new pool.new stack.now }
{
    judge_changes::judge_learn(rows, pool, stack, t, id, c, hints)?;
    Ok(table_write::append(rows, pool, stack, t, 1, id, c))
}

pub fn forget(
    rows: &mut [Row],
    pool: &[i32],
    stack: &[u32],
    t: Table,
    id: u32,
) -> Result<Table, Fault>
    requires { Fit t rows.old pool.now stack.now }
    ensures { Applied t rows.old pool.now stack.now (FORGET id) result rows.new pool.now
        stack.now }
{
    let row = judge_changes::judge_forget_or_promote(rows, pool, stack, t, id)?;
    Ok(table_write::remove(rows, pool, stack, t, row))
}

pub fn promote(
    rows: &mut [Row],
    pool: &[i32],
    stack: &[u32],
    t: Table,
    id: u32,
) -> Result<Table, Fault>
    requires { Fit t rows.old pool.now stack.now }
    ensures { Applied t rows.old pool.now stack.now (PROMOTE id) result rows.new pool.now
        stack.now }
{
    let row = judge_changes::judge_forget_or_promote(rows, pool, stack, t, id)?;
    Ok(table_write::promote(rows, pool, stack, t, row))
}

pub fn drop_clause(
    rows: &mut [Row],
    pool: &[i32],
    stack: &[u32],
    t: Table,
    id: u32,
    hints: &[i32],
) -> Result<Table, Fault>
    requires { Fit t rows.old pool.now stack.now × (length hints.now ≤ 4096) }
    ensures { Applied t rows.old pool.now stack.now (DROP id hints.now) result rows.new
        pool.now stack.now }
{
    let row = judge_changes::judge_drop(rows, pool, stack, t, id, hints)?;
    Ok(table_write::remove(rows, pool, stack, t, row))
}

pub fn weaken(
    rows: &mut [Row],
    pool: &mut [i32],
    stack: &mut [u32],
    t: Table,
    id: u32,
    witness: &[i32],
    groups: &[i32],
) -> Result<Table, Fault>
    requires { Fit t rows.old pool.old stack.old × (length witness.now ≤ 256) × (3 + length witness.now + length groups.now ≤ 4096) }
    ensures { Applied t rows.old pool.old stack.old (WEAKEN id witness.now groups.now) result
        rows.new pool.new stack.new }
{
    let row = weaken_judge::judge_weaken(rows, pool, stack, t, id, witness, groups)?;
    Ok(weaken_write::weaken(rows, pool, stack, t, row, witness))
}

pub fn restore(
    rows: &mut [Row],
    pool: &[i32],
    stack: &mut [u32],
    t: Table,
    id: u32,
) -> Result<Table, Fault>
    requires { Fit t rows.old pool.now stack.old }
    ensures { Applied t rows.old pool.now stack.old (RESTORE id) result rows.new pool.now
        stack.new }
{
    let row = judge_changes::judge_restore(rows, pool, stack, t, id)?;
    Ok(table_write::restore(rows, pool, stack, t, row))
}
