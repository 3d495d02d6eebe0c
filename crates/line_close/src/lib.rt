// 0A: a line is closed. It is judged, applied and answered.
#![tactic(auto)]

ghost use Rattle.std.specs.Prelude.{◌+◌, ◌≤◌, length};
ghost use Rattle.line_read.specs.Lines as paper;
ghost use Rattle.line_read.specs.Machine.{line_of};
ghost use Rattle.line_read.specs.Machine.{frame as framed-by};
ghost use Rattle.line_read.specs.Parts.{line_alters};
ghost use Rattle.line_read.specs.Lent as lent;
ghost use Rattle.table.specs.Spelled.{Fit, spelled};
ghost use Rattle.line_close.specs.Replies.{Altering, Feedable, listed};

use line_read::Reader;
use rules::{Answer, Fault};
use step_outcome::Written;
use table::{Row, Table};

// The line of an answer; where the model was written, its true variables follow.
fn put_reply(
    out: &mut [u8],
    at: usize,
    answer: Answer,
    written: Written,
    model: &[u64; 32],
) -> usize
    requires { at + 16401 ≤ length out.old }
    ensures { lent.Wrote out.old at (paper.answer_line answer (listed written model.now)) out.new result }
{
    match written {
        Written::Nothing => line_reply::put_answer(out, at, answer),
        Written::Tables => line_reply::put_answer(out, at, answer),
        Written::Model => line_reply::put_sat(out, at, answer, model),
    }
}

// The place behind the answer, the numbers beside the tables after the line, and whether it was an accepted change.
#[derive(Clone, Copy)]
pub struct Closed {
    pub at: usize,
    pub table: Table,
    pub altered: bool,
}

// 0A: the line is answered.
pub fn close(
    r: Reader,
    frame: &[i32],
    rows: &mut [Row],
    pool: &mut [i32],
    stack: &mut [u32],
    t: Table,
    out: &mut [u8],
    at: usize,
) -> Closed
    requires { Feedable t rows.old pool.old stack.old r frame.now × (at + 16401 ≤ length out.old) }
    ensures fit { Fit result.table rows.new pool.new stack.new }
    ensures closed { lent.LineClosed (spelled t rows.old pool.old stack.old) (line_of r frame.now)
        out.old at
        (spelled result.table rows.new pool.new stack.new) out.new result.at }
    ensures altered { Altering (line_alters (spelled t rows.old pool.old stack.old)
        (framed-by (line_of r frame.now))) result.altered
        t rows.old pool.old stack.old result.table rows.new pool.new stack.new }
{
    if line_read::is_framed(r) {
        let n = r.digits / 8;
        let mut model = [0u64; 32];
        let s = step::step(rows, pool, stack, t, &frame[..n], &mut model);
        let table = s.table;
        let answer = s.answer;
        let written = s.written;
        let a = put_reply(out, at, answer, written, &model);
        return Closed {
            at: a,
            table,
            altered: step_outcome::altered(written),
        };
    }
    let a = line_reply::put_answer(out, at, Err(Fault::Malformed));
    Closed {
        at: a,
        table: t,
        altered: false,
    }
}
