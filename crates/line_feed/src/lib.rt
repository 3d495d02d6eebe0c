// Lines fed to the checker: read, and each one closed, as the bytes come.
#![tactic(auto)]

ghost use Rattle.std.specs.Prelude.{◌≤◌, length};
ghost use Rattle.std.proofs.Math.Seq.{slice};
ghost use Rattle.line_read.specs.Machine.{line_of, session_of};
ghost use Rattle.line_read.specs.Parts.{closes, some_alters};
ghost use Rattle.line_read.specs.Lent as lent;
ghost use Rattle.table.specs.Spelled.{spelled};
ghost use Rattle.line_close.specs.Replies.{Altering, Feedable};

use line_read::Reader;
use table::{Row, Table};

// How far the part is taken, the place behind the answers, reader and numbers after them, and whether a line was an accepted change.
#[derive(Clone, Copy)]
pub struct Fed {
    pub from: usize,
    pub at: usize,
    pub reader: Reader,
    pub table: Table,
    pub altered: bool,
}

// Takes bytes of the part from `from` on until it ends, or until `out` could not hold one more largest answer.
pub fn feed(
    part: &[u8],
    from: usize,
    r: Reader,
    frame: &mut [i32],
    rows: &mut [Row],
    pool: &mut [i32],
    stack: &mut [u32],
    t: Table,
    out: &mut [u8],
    at: usize,
) -> Fed
    requires { Feedable t rows.old pool.old stack.old r frame.old × (from ≤ length part.now) × (at ≤ length out.old) }
    ensures fit { Feedable result.table rows.new pool.new stack.new result.reader frame.new }
    ensures fed { lent.LinesFed part.now from result.from
        (session_of r frame.old (spelled t rows.old pool.old stack.old) out.old at)
        (session_of result.reader frame.new (spelled result.table rows.new pool.new stack.new) out.new result.at)
        out.old out.new result.at }
    ensures altered { Altering (some_alters (spelled t rows.old pool.old stack.old)
        (closes (line_of r frame.old) (slice from result.from part.now))) result.altered
        t rows.old pool.old stack.old result.table rows.new pool.new stack.new }
{
    let values = line_hex::values();
    let mut i = from;
    let mut a = at;
    let mut reader = r;
    let mut table = t;
    let mut altered = false;
    // Stays a `while`: the step is as many words as come next, and not one.
    while i < part.len() {
        if out.len() - a < 16401 {
            break;
        }
        let taken = line_read::take_words(&values, part, i, reader, frame);
        i = taken.from;
        reader = taken.reader;
        if i == part.len() {
            break;
        }
        let b = part[i];
        i += 1;
        if b == 10 {
            let closed = line_close::close(reader, frame, rows, pool, stack, table, out, a);
            a = closed.at;
            table = closed.table;
            altered = step_outcome::either(altered, closed.altered);
            reader = line_read::fresh();
        } else {
            reader = line_read::push_byte(reader, frame, b);
        }
    }
    Fed {
        from: i,
        at: a,
        reader,
        table,
        altered,
    }
}
