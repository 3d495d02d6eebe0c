// What ADD, LEARN, FORGET, PROMOTE, DROP and RESTORE ask of the working table, in document 01's order: a judgment each. Everything is lent by &, so that a
// refusal cannot write.
#![tactic(auto)]

ghost use Rattle.std.specs.Prelude.{◌≤◌, length};
ghost use Rattle.rules.specs.Frames.{ADD, DROP, FORGET, LEARN, PROMOTE, RESTORE};
ghost use Rattle.table.specs.Spelled.{Fit};
ghost use Rattle.judge_checks.specs.Judged.{Judges};

use judge_checks::Judged;
use table::{Row, Table};

pub fn judge_add(rows: &[Row], pool: &[i32], stack: &[u32], t: Table, id: u32, c: &[i32]) -> Judged
    requires { Fit t rows.now pool.now stack.now × (length c.now ≤ 256) }
    ensures { Judges t rows.now pool.now stack.now (ADD id c.now) result }
{
    judge_checks::new_clause(t, id, c, 2)?;
    let n = t.count as usize;
    let depth = t.depth as usize;
    judge_walk::cleanly(&rows[..n], pool, &stack[..depth], c)?;
    judge_checks::free(rows, pool, stack, t, c.len())?;
    Ok(0)
}

pub fn judge_learn(
    rows: &[Row],
    pool: &[i32],
    stack: &[u32],
    t: Table,
    id: u32,
    c: &[i32],
    hints: &[i32],
) -> Judged
    requires { Fit t rows.now pool.now stack.now × (length c.now ≤ 256) × (length hints.now ≤ 4096) }
    ensures { Judges t rows.now pool.now stack.now (LEARN id c.now hints.now) result }
{
    judge_checks::new_clause(t, id, c, 3)?;
    judge_checks::free(rows, pool, stack, t, c.len())?;
    let n = t.count as usize;
    let scope = judge_propagate::all_clauses();
    let verdict = judge_hints::proves(&rows[..n], pool, scope, c, hints);
    judge_checks::decided(verdict, 3 + c.len(), 0)?;
    Ok(0) // LEARN names no held clause
}

// Both ask for a learned clause.
pub fn judge_forget_or_promote(
    rows: &[Row],
    pool: &[i32],
    stack: &[u32],
    t: Table,
    id: u32,
) -> Judged
    requires { Fit t rows.now pool.now stack.now }
    ensures { Judges t rows.now pool.now stack.now (FORGET id) result
        × Judges t rows.now pool.now stack.now (PROMOTE id) result }
{
    judge_checks::named(rows, t, 1, id)
}

pub fn judge_drop(
    rows: &[Row],
    pool: &[i32],
    stack: &[u32],
    t: Table,
    id: u32,
    hints: &[i32],
) -> Judged
    requires { Fit t rows.now pool.now stack.now × (length hints.now ≤ 4096) }
    ensures { Judges t rows.now pool.now stack.now (DROP id hints.now) result }
{
    let k = judge_checks::named(rows, t, 0, id)?;
    let n = t.count as usize;
    let scope = judge_propagate::irredundant_but(id);
    let c = table::clause_of(rows, pool, k);
    let verdict = judge_hints::proves(&rows[..n], pool, scope, c, hints);
    judge_checks::decided(verdict, 2, 0)?;
    Ok(k)
}

pub fn judge_restore(rows: &[Row], pool: &[i32], stack: &[u32], t: Table, id: u32) -> Judged
    requires { Fit t rows.now pool.now stack.now }
    ensures { Judges t rows.now pool.now stack.now (RESTORE id) result }
{
    let k = judge_checks::named(rows, t, 2, id)?;
    let n = t.count as usize;
    let depth = t.depth as usize;
    let above = table_slices::position(stack, depth, id) + 1;
    let c = table::clause_of(rows, pool, k);
    judge_walk::cleanly(&rows[..n], pool, &stack[above..depth], c)?;
    Ok(k)
}
