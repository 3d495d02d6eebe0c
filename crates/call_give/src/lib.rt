// Parts of the input over the lent tables: taken in once a part, fed line by line, and put back where a line was an accepted change; and the end of input. Any
// bits may be handed in.
#![tactic(auto)]

ghost use Rattle.std.specs.Prelude.{◌≡◌, ◌&&◌, leb, length};
ghost use Rattle.rules.specs.Answers.{lent};
ghost use Rattle.line_read.specs.Parts.{largest_reply};
ghost use Rattle.call_give.specs.Giving.{Ending, Giving, is_line};
ghost use Rattle.call_give.specs.Running.{RanOn, GiveRun, Sized, give_answered, give_left, give_stored};

use lent::Carried;
use lent_entries::{Entry, Ran};
use line_feed::Fed;
use line_read::Reader;
use rules::{Answer, Fault};
use table::{Row, Table};

// The answer, what is carried and read after the part, how many of its bytes were taken, and how many are written to the out buffer.
#[derive(Clone, Copy)]
pub struct Given {
    pub answer: Answer,
    pub carried: Carried,
    pub reader: Reader,
    pub taken: usize,
    pub written: usize,
}

// ---- what is handed back

// Code 1: nothing is taken, written or put back.
fn left(c: Carried, r: Reader) -> Ran<Given>
    ensures { result ≡ give_left c r }
{
    Ran {
        given: Given {
            answer: Err(Fault::NoState),
            carried: c,
            reader: r,
            taken: 0,
            written: 0,
        },
        count: 0,
    }
}

// Code 0: what is carried, and how many rows go back.
fn answered(part: Fed, c: Carried, count: usize) -> Ran<Given>
    ensures { result ≡ give_answered part c count }
{
    let reader = part.reader;
    Ran {
        given: Given {
            answer: Ok(0),
            carried: c,
            reader,
            taken: part.from,
            written: part.at,
        },
        count,
    }
}

// The rows held go back, and what is carried is new.
fn stored(part: Fed, t: Table, stack: [u32; 1024]) -> Ran<Given>
    ensures { result ≡ give_stored part t stack }
{
    answered(part, lent::carry(t, stack), t.count as usize)
}

// ---- a part

// A part on the rows taken in, of which the first n are the table's: there are more, so that few removals close a gap.
fn run(
    n: usize,
    rows: &mut [Row],
    pool: &mut [i32],
    c: Carried,
    r: Reader,
    frame: &mut [i32],
    part: &[u8],
    out: &mut [u8],
) -> Ran<Given>
    requires { (length rows.old ≡ 1280) × Sized n pool.old r frame.old }
    ensures { RanOn n rows.old pool.old c r frame.old part.now out.old result rows.new
        pool.new frame.new out.new }
{
    let Some(t) = lent_load::load(&mut rows[..n], pool, c) else {
        return left(c, r);
    };
    let mut stack = c.stack;
    let taken = line_feed::feed(part, 0, r, frame, rows, pool, &mut stack, t, out, 0);
    if taken.altered {
        let table = taken.table;
        let whole = table_room::squeeze(rows, pool, &stack, table);
        return stored(taken, whole, stack);
    }
    answered(taken, c, 0)
}

// A line being read, in a frame buffer of so many words.
fn is_line(r: Reader, buffer: usize) -> bool
    ensures { result ≡ is_line r buffer }
{
    if 32768 < r.digits {
        return false;
    }
    4096 <= buffer
}

// The same, room for one answer, and tables of sizes in range.
fn in_sizes(entries: usize, words: usize, r: Reader, buffer: usize, room: usize) -> bool
    ensures { result ≡ (lent entries words && (is_line r buffer && leb largest_reply room)) }
{
    if !lent::in_sizes(entries, words) {
        return false;
    }
    if !is_line(r, buffer) {
        return false;
    }
    16401 <= room
}

// A part on the rows of a table of n entries. Code 1 where a size is out of range.
fn run_lent(
    n: usize,
    rows: &mut [Row],
    pool: &mut [i32],
    c: Carried,
    r: Reader,
    frame: &mut [i32],
    part: &[u8],
    out: &mut [u8],
) -> Ran<Given>
    requires { length rows.old ≡ 1280 }
    ensures { GiveRun n rows.old pool.old c r frame.old part.now out.old result rows.new
        pool.new frame.new out.new }
{
    if in_sizes(n, pool.len(), r, frame.len(), out.len()) {
        return run(n, rows, pool, c, r, frame, part, out);
    }
    left(c, r)
}

// Feeds a part of the input, of any bytes, to lent tables of any bits: as much of it as the out buffer has room for the answers to.
pub fn give(
    entries: &mut [Entry],
    pool: &mut [i32],
    carried: Carried,
    reader: Reader,
    frame: &mut [i32],
    part: &[u8],
    out: &mut [u8],
) -> Given
    ensures { Giving entries.old pool.old carried reader frame.old part.now out.old result
        entries.new pool.new frame.new out.new }
{
    let mut rows = lent_entries::take_in(entries, carried.count);
    let ran = run_lent(
        entries.len(),
        &mut rows,
        pool,
        carried,
        reader,
        frame,
        part,
        out,
    );
    lent_entries::put_back(entries, ran.count, rows);
    ran.given
}

// ---- the end of input

// The answer, and how many bytes are written to the out buffer.
#[derive(Clone, Copy)]
pub struct Ended {
    pub answer: Answer,
    pub written: usize,
}

// Ends the input: a line that is not closed is refused 2.
pub fn end(reader: Reader, out: &mut [u8]) -> Ended
    ensures { Ending reader out.old result out.new }
{
    if 32768 < reader.digits {
        return Ended {
            answer: Err(Fault::NoState),
            written: 0,
        };
    }
    if out.len() < 17 {
        return Ended {
            answer: Err(Fault::NoState),
            written: 0,
        };
    }
    let written = line_reply::finish(reader, out, 0);
    Ended {
        answer: Ok(0),
        written,
    }
}
