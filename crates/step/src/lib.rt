// The dispatcher: one frame of any words, by the head that it has.
#![tactic(auto)]

ghost use Rattle.table.specs.Spelled.{Fit};
ghost use Rattle.step.specs.Steps.{Steps};

use rules::Fault;
use step_frame::Head;
use step_outcome::{Stepped, Written};
use table::{Row, Table};

pub fn step(
    rows: &mut [Row],
    pool: &mut [i32],
    stack: &mut [u32],
    t: Table,
    frame: &[i32],
    model: &mut [u64; 32],
) -> Stepped
    requires { Fit t rows.old pool.old stack.old }
    ensures { Steps t rows.old pool.old stack.old frame.now result rows.new pool.new
        stack.new model.old model.new }
{
    let Some(head) = step_frame::parse(frame) else {
        return step_outcome::refused(Fault::Malformed, t);
    };
    match head {
        Head::Add(id) => step_outcome::changed(
            step_changes::add(rows, pool, stack, t, id, &frame[2..]),
            t,
        ),
        Head::Learn(id, n) => {
            let end = 3 + n;
            step_outcome::changed(
                step_changes::learn(rows, pool, stack, t, id, &frame[3..end], &frame[end..]),
                t,
            )
        }
        Head::Forget(id) => {
            step_outcome::changed(step_changes::forget(rows, pool, stack, t, id), t)
        }
        Head::Promote(id) => {
            step_outcome::changed(step_changes::promote(rows, pool, stack, t, id), t)
        }
        Head::Drop(id) => step_outcome::changed(
            step_changes::drop_clause(rows, pool, stack, t, id, &frame[2..]),
            t,
        ),
        Head::Weaken(id, n) => {
            let end = 3 + n;
            step_outcome::changed(
                step_changes::weaken(rows, pool, stack, t, id, &frame[3..end], &frame[end..]),
                t,
            )
        }
        Head::Restore(id) => {
            step_outcome::changed(step_changes::restore(rows, pool, stack, t, id), t)
        }
        Head::Sat(n) => {
            let end = 2 + n;
            let answer = step_answers::sat(
                rows,
                pool,
                stack,
                t,
                &frame[2..end],
                &frame[end..],
                model,
            );
            step_outcome::answered(answer, Written::Model, t)
        }
        Head::Unsat(n) => {
            let end = 2 + n;
            let answer = step_answers::unsat(rows, pool, stack, t, &frame[2..end], &frame[end..]);
            step_outcome::answered(answer, Written::Nothing, t)
        }
    }
}
