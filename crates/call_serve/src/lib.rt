// Standard input served on the working table: read, fed and answered to its end. The lent table is taken in once, and put back after it.
#![tactic(auto)]

ghost use Rattle.std.specs.Prelude.{◌≡◌, List, ℕ, ◌≤◌, length};
ghost use Rattle.std.proofs.Math.Option.{some};
ghost use Rattle.rules.specs.Answers.{opened};
ghost use Rattle.table.specs.Spelled.{Fit};
ghost use Rattle.lent_entries.specs.Lent.{state_lent};
ghost use Rattle.line_close.specs.Replies.{Feedable};
ghost use Rattle.call_serve.specs.Serving.{Attending, Pumping, ServedRows, Serving};

use lent::Carried;
use lent_entries::{Entry, Ran};
use line_read::Reader;
use std::io;
use std::io::Read;
use table::{Row, Table};

// Writes answers, and whether every one was taken whole. A write that failed is said: without it the answers would be lost in silence.
fn send(rt: &HostRuntime, answers: &[u8]) -> bool {
    let sent = rt.stdout().write_all(answers);
    if let Err(reason) = sent {
        trouble::fail(rt, b"zahrubel: cannot write the answers", reason);
    }
    sent.is_ok()
}

// How far a part was fed, the reader and the numbers beside the tables after it, whether a line was an accepted change, and whether every write was taken
// whole.
#[derive(Clone, Copy)]
struct Pumped {
    pub taken: usize,
    pub reader: Reader,
    pub table: Table,
    pub altered: bool,
    pub sent: bool,
}

// Feeds one part, and writes each time the answers are many: to its end, or as far as writes are taken. A write that fails is said.
fn pump(
    rt: &HostRuntime,
    part: &[u8],
    r: Reader,
    frame: &mut [i32],
    rows: &mut [Row],
    pool: &mut [i32],
    stack: &mut [u32],
    t: Table,
    out: &mut [u8],
) -> Pumped
    requires { Feedable t rows.old pool.old stack.old r frame.old × (16401 ≤ length out.old) × (length part.now ≤ 65536) }
    ensures { Pumping part.now r frame.old t rows.old pool.old stack.old result frame.new
        rows.new pool.new stack.new }
{
    let mut from: usize = 0;
    let mut reader = r;
    let mut table = t;
    let mut altered = false;
    let mut sent = true;
    // Stays a `while`: the step is as long as the lines that a call takes.
    while from < part.len() {
        let fed = line_feed::feed(part, from, reader, frame, rows, pool, stack, table, out, 0);
        from = fed.from;
        reader = fed.reader;
        table = fed.table;
        altered = step_outcome::either(altered, fed.altered);
        let at = fed.at;
        sent = send(rt, &out[..at]);
        if !sent {
            break;
        }
    }
    Pumped {
        taken: from,
        reader,
        table,
        altered,
        sent,
    }
}

// The end of the input, or a read that failed: what the end adds is written, and a failure is said instead, since then no end was met.
fn conclude(rt: &HostRuntime, got: io::Result<usize>, r: Reader, out: &mut [u8])
    requires { 17 ≤ length out.old }
{
    if let Err(reason) = got {
        trouble::fail(rt, b"zahrubel: cannot read the frames", reason);
        return;
    }
    let k = line_reply::finish(r, out, 0);
    send(rt, &out[..k]);
}

// The numbers beside the tables at the end of the input, and whether a line of it was an accepted change.
#[derive(Clone, Copy)]
struct Attended {
    pub table: Table,
    pub altered: bool,
}

// Reads standard input to its end, in parts of 64 KiB, and answers what was read before it reads again. A read or a write that fails is said, and ends it.
fn attend(
    rt: &HostRuntime,
    rows: &mut [Row],
    pool: &mut [i32],
    stack: &mut [u32],
    t: Table,
) -> Attended
    requires { Fit t rows.old pool.old stack.old }
    ensures { (bs : List ℕ) × Attending bs t rows.old pool.old stack.old result rows.new pool.new
        stack.new }
{
    let mut buf = [0u8; 65536];
    let mut out = [0u8; 65536];
    let mut frame = [0i32; 4096];
    let mut reader = line_read::fresh();
    let mut table = t;
    let mut altered = false;
    for _ in 0..u64::MAX {
        let got = rt.stdin().read(&mut buf);
        let n = got.unwrap_or(0);
        if n == 0 {
            conclude(rt, got, reader, &mut out);
            break;
        }
        let q = pump(
            rt,
            &buf[..n],
            reader,
            &mut frame,
            rows,
            pool,
            stack,
            table,
            &mut out,
        );
        reader = q.reader;
        table = q.table;
        altered = step_outcome::either(altered, q.altered);
        if !q.sent {
            break;
        }
    }
    Attended { table, altered }
}

// The input on the rows taken in, of which the first n are the table's.
fn serve_rows(
    rt: &HostRuntime,
    n: usize,
    rows: &mut [Row],
    pool: &mut [i32],
    c: Carried,
) -> Ran<Carried>
    requires { (length rows.old ≡ 1280) × (n ≤ 1024) × (length pool.old ≤ 8192) }
    ensures { ServedRows n rows.old pool.old c result rows.new pool.new }
{
    let Some(t) = lent_load::load(&mut rows[..n], pool, c) else {
        return Ran { given: c, count: 0 };
    };
    let mut stack = c.stack;
    let q = attend(rt, rows, pool, &mut stack, t);
    if q.altered {
        let table = q.table;
        let whole = table_room::squeeze(rows, pool, &stack, table);
        let count = whole.count as usize;
        return Ran {
            given: lent::carry(whole, stack),
            count,
        };
    }
    Ran { given: c, count: 0 }
}

// Serves standard input on lent tables that were just opened; what is carried after it.
pub fn serve(rt: &HostRuntime, entries: &mut [Entry], pool: &mut [i32], carried: Carried) -> Carried
    requires { state_lent entries.old pool.old carried ≡ some (opened 2048 1024 8192) }
    ensures { Serving entries.old pool.old carried result entries.new pool.new }
{
    let mut rows = lent_entries::take_in(entries, carried.count);
    let served = serve_rows(rt, entries.len(), &mut rows, pool, carried);
    lent_entries::put_back(entries, served.count, rows);
    served.given
}
