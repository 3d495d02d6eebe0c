// What SAT and UNSAT, the frames with assumptions, ask of the working table, in document 01's order: a judgment each. Everything is lent by &.
#![tactic(auto)]

ghost use Rattle.std.specs.Prelude.{◌≡◌, true, ◌≤◌, length};
ghost use Rattle.rules.specs.Lists.{all_pass};
ghost use Rattle.rules.specs.Terms.{in_range};
ghost use Rattle.rules.specs.Frames.{UNSAT};
ghost use Rattle.lit_sets.specs.Words.{assigned};
ghost use Rattle.table.specs.Spelled.{Fit, spelled};
ghost use Rattle.judge_checks.specs.Judged.{Judges};
ghost use Rattle.judge_answers.specs.Offered.{Offers, check_offered};

use judge_checks::Judged;
use rules::{Check, Fault};
use table::{Row, Table};

// 11, 5, 10 of an offered assignment.
fn judge_offered(
    rows: &[Row],
    pool: &[i32],
    stack: &[u32],
    t: Table,
    assumed: &[i32],
    offered: &[u64; 32],
) -> Check
    requires { Fit t rows.now pool.now stack.now × (length assumed.now ≤ 256) × (all_pass (in_range 2048) assumed.now ≡ true) }
    ensures { result ≡ check_offered (spelled t rows.now pool.now stack.now) (assigned offered.now)
        assumed.now }
{
    judge_walk::assumed_true(offered, assumed, 2)?;
    let n = t.count as usize;
    let depth = t.depth as usize;
    judge_walk::cleanly(&rows[..n], pool, &stack[..depth], assumed)?;
    judge_walk::satisfied(&rows[..n], pool, offered)
}

// SAT's judgment: where its checks pass, the words of the offered assignment.
pub fn judge_sat(
    rows: &[Row],
    pool: &[i32],
    stack: &[u32],
    t: Table,
    assumed: &[i32],
    vs: &[i32],
) -> Result<[u64; 32], Fault>
    requires { Fit t rows.now pool.now stack.now × (length assumed.now ≤ 256) × (length vs.now ≤ 4096) }
    ensures { Offers t rows.now pool.now stack.now assumed.now vs.now result }
{
    let vars = t.vars as usize;
    lit_clause::ranged(vars, assumed, 2)?;
    lit_clause::ascending(vars, vs, 2 + assumed.len())?;
    let offered = lit_sets::offer(vs);
    judge_offered(rows, pool, stack, t, assumed, &offered)?;
    Ok(offered)
}

pub fn judge_unsat(
    rows: &[Row],
    pool: &[i32],
    stack: &[u32],
    t: Table,
    assumed: &[i32],
    hints: &[i32],
) -> Judged
    requires { Fit t rows.now pool.now stack.now × (length assumed.now ≤ 256) × (length hints.now ≤ 4096) }
    ensures { Judges t rows.now pool.now stack.now (UNSAT assumed.now hints.now) result }
{
    lit_clause::ranged(t.vars as usize, assumed, 2)?;
    let n = t.count as usize;
    let scope = judge_propagate::all_clauses();
    let verdict = judge_hints::refutes(&rows[..n], pool, scope, assumed, hints);
    judge_checks::decided(verdict, 2 + assumed.len(), 0)?;
    Ok(0)
}
