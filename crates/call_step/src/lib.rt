// The public calls over the lent tables. Any bits may be handed in.
#![tactic(auto)]

ghost use Rattle.std.specs.Prelude.{◌≡◌, ◌≤◌, length};
ghost use Rattle.call_step.specs.Calls.{Opening, Stepping};
ghost use Rattle.call_step.specs.Running.{StepRun, Running, step_left, step_stored};

use lent::{Called, Carried};
use lent_entries::{Entry, Ran};
use rules::{Answer, Fault};
use step_outcome::Written;
use table::{Row, Table};

// Nothing is put back.
fn left(answer: Answer, c: Carried) -> Ran<Called>
    ensures { result ≡ step_left answer c }
{
    let given = Called { answer, carried: c };
    Ran { given, count: 0 }
}

// The rows held go back, and what is carried is new.
fn stored(answer: Answer, t: Table, stack: [u32; 1024]) -> Ran<Called>
    ensures { result ≡ step_stored answer t stack }
{
    Ran {
        given: Called {
            answer,
            carried: lent::carry(t, stack),
        },
        count: t.count as usize,
    }
}

// A frame on the rows of what is lent.
fn run(
    rows: &mut [Row],
    pool: &mut [i32],
    c: Carried,
    frame: &[i32],
    model: &mut [u64],
) -> Ran<Called>
    requires { (length rows.old ≤ 1024) × (length pool.old ≤ 8192) × (length model.old ≡ 32) }
    ensures { Running (length rows.old) rows.old c pool.old frame.now model.old result
        rows.new pool.new model.new }
{
    let Some(t) = lent_load::load(rows, pool, c) else {
        return left(Err(Fault::NoState), c);
    };
    let mut stack = c.stack;
    let mut words = [0u64; 32];
    let s = step::step(rows, pool, &mut stack, t, frame, &mut words);
    let answer = s.answer;
    let table = s.table;
    let written = s.written;
    match written {
        Written::Nothing => left(answer, c),
        Written::Tables => {
            let whole = table_room::squeeze(rows, pool, &stack, table);
            stored(answer, whole, stack)
        }
        Written::Model => {
            table_slices::write_words(model, words);
            left(answer, c)
        }
    }
}

// A frame on the rows taken in, of which the first n are the table's. Code 1 where the lent sizes or that of the model buffer are out of range.
fn run_lent(
    n: usize,
    rows: &mut [Row],
    pool: &mut [i32],
    c: Carried,
    frame: &[i32],
    model: &mut [u64],
) -> Ran<Called>
    requires { length rows.old ≡ 1280 }
    ensures { StepRun n rows.old pool.old c frame.now model.old result rows.new pool.new
        model.new }
{
    if lent::in_sizes_with_model(n, pool.len(), model.len()) {
        return run(&mut rows[..n], pool, c, frame, model);
    }
    left(Err(Fault::NoState), c)
}

// One frame of any words on lent tables of any bits.
pub fn step(
    entries: &mut [Entry],
    pool: &mut [i32],
    carried: Carried,
    frame: &[i32],
    model: &mut [u64],
) -> Called
    ensures { Stepping entries.old pool.old carried frame.now model.old result entries.new
        pool.new model.new }
{
    let mut rows = lent_entries::take_in(entries, carried.count);
    let r = run_lent(entries.len(), &mut rows, pool, carried, frame, model);
    lent_entries::put_back(entries, r.count, rows);
    r.given
}

// Opens the lent tables: it looks at nothing but their sizes, and writes nothing.
pub fn open(vars: u32, entries: &[Entry], pool: &[i32]) -> Called
    ensures { Opening vars entries.now pool.now result }
{
    lent_open::open_sized(vars, entries.len(), pool.len())
}
