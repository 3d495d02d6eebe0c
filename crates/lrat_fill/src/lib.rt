// The clauses of a text, added one by one to an empty working table.
#![tactic(auto)]

ghost use Rattle.dimacs.specs.Reading.{read_text};
ghost use Rattle.std.specs.Prelude.{◌≡◌};
ghost use Rattle.lrat_fill.specs.declared.Unfilled.TheVariants.{Faulty};
ghost use Rattle.lrat_fill.specs.Filling.{FillAsked, Fills, Lends};

use dimacs::TextFault;
use dimacs_frames::Cursor;
use table::{Row, Table};

// Why the table does not hold the clauses: the text has a fault; or there is no room for them, by 12 or 13, under so many variables.
#[derive(Clone, Copy)]
pub enum Unfilled {
    Faulty(TextFault),
    Full(u32, u32),
}

impl From<TextFault> for Unfilled {
    ghost from_gives = { λ fault e. e ≡ Faulty fault };

    fn from(fault: TextFault) -> Unfilled {
        Unfilled::Faulty(fault)
    }
}

// Adds the clauses of a text without fault to an empty table, as its frames are handed out.
fn add_all(
    text: &[u8],
    rows: &mut [Row],
    pool: &mut [i32],
    stack: &[u32],
    t: Table,
) -> Result<Table, Unfilled>
    requires { FillAsked text.now t rows.old pool.old stack.now }
    ensures { Fills t.entries (read_text text.now) result rows.new pool.old pool.new stack.now }
{
    let mut frame = [0i32; 258];
    let mut cursor = Cursor { at: 0, id: 0 };
    let mut table = t;
    // A `loop` and not a `for`: it ends where the text has no clause left, and no count is known before.
    loop {
        let yielded = match dimacs_frames::next(text, cursor, &mut frame) {
            Ok(Some(yielded)) => yielded,
            Ok(None) => return Ok(table),
            // None of these comes: the text is judged, the buffer is wide enough, and ids are left.
            Err(_) => return Ok(table),
        };
        let id = yielded.behind.id as u32;
        let moved = step_changes::add(rows, pool, stack, table, id, &frame[2..yielded.words]);
        let added = step_outcome::changed(moved, table);
        let answer = added.answer;
        let code = rules_codes::code(answer);
        if code != 0 {
            return Err(Unfilled::Full(code, t.vars));
        }
        table = added.table;
        cursor = yielded.behind;
    }
}

// Fills lent tables with the clauses of a text of any bytes; at most `entries` may be held.
pub fn fill(
    text: &[u8],
    rows: &mut [Row],
    pool: &mut [i32],
    stack: &[u32],
    entries: u32,
) -> Result<Table, Unfilled>
    requires { Lends entries rows.old pool.old stack.now }
    ensures { Fills entries (read_text text.now) result rows.new pool.old pool.new stack.now }
{
    let counts = dimacs_judge::judge(text)?;
    let empty = Table {
        vars: counts.vars,
        highest: 0,
        entries,
        count: 0,
        gone: 0,
        words: 0,
        depth: 0,
        top: 0,
    };
    add_all(text, rows, pool, stack, empty)
}
