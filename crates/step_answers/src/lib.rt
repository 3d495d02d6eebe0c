// SAT and UNSAT, judged and answered: an accepted SAT hands out the mended assignment.
#![tactic(auto)]

ghost use Rattle.std.specs.Prelude.{◌≡◌, ◌≤◌, length};
ghost use Rattle.rules.specs.Frames.{SAT, UNSAT};
ghost use Rattle.rules.specs.Answers.{check};
ghost use Rattle.table.specs.Spelled.{Fit, spelled};
ghost use Rattle.step_outcome.specs.Told.{answer_of};
ghost use Rattle.step_answers.specs.Answered.{AnswerOf};

use rules::Answer;
use table::{Row, Table};

// SAT: the offered assignment is mended by the walk down the stack; only an accepted one writes the model.
pub fn sat(
    rows: &[Row],
    pool: &[i32],
    stack: &[u32],
    t: Table,
    assumed: &[i32],
    vs: &[i32],
    model: &mut [u64; 32],
) -> Answer
    requires { Fit t rows.now pool.now stack.now × (length assumed.now ≤ 256) × (length vs.now ≤ 4096) }
    ensures { AnswerOf t rows.now pool.now stack.now (SAT assumed.now vs.now) result
        model.old model.new }
{
    let offered = judge_answers::judge_sat(rows, pool, stack, t, assumed, vs)?;
    let n = t.count as usize;
    let depth = t.depth as usize;
    let mended = judge_walk::mend(&rows[..n], pool, &stack[..depth], offered);
    let changed = lit_sets::changed(&offered, &mended);
    *model = mended;
    Ok(changed)
}

pub fn unsat(
    rows: &[Row],
    pool: &[i32],
    stack: &[u32],
    t: Table,
    assumed: &[i32],
    hints: &[i32],
) -> Answer
    requires { Fit t rows.now pool.now stack.now × (length assumed.now ≤ 256) × (length hints.now ≤ 4096) }
    ensures { result ≡ answer_of (check (spelled t rows.now pool.now stack.now)
        (UNSAT assumed.now hints.now)) }
{
    judge_answers::judge_unsat(rows, pool, stack, t, assumed, hints)?;
    Ok(0)
}
