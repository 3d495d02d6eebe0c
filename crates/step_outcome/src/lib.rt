// What a frame came to: the answer, the numbers beside the tables, and what was written.
#![tactic(auto)]

ghost use Rattle.std.specs.Prelude.{◌≡◌, ◌||◌};
ghost use Rattle.step_outcome.specs.Told.{accepted_with, answered_with, changed_with, is_tables, refused_with};

use rules::{Answer, Fault};
use table::Table;

// What a frame wrote: an accepted SAT the model buffer, an accepted change the tables, everything else nothing.
#[derive(Clone, Copy)]
pub enum Written {
    Nothing,
    Tables,
    Model,
}

// The answer, the numbers beside the tables after it, and what was written.
#[derive(Clone, Copy)]
pub struct Stepped {
    pub answer: Answer,
    pub table: Table,
    pub written: Written,
}

pub fn refused(fault: Fault, table: Table) -> Stepped
    ensures { result ≡ refused_with fault table }
{
    Stepped {
        answer: Err(fault),
        table,
        written: Written::Nothing,
    }
}

pub fn accepted(table: Table) -> Stepped
    ensures { result ≡ accepted_with table }
{
    Stepped {
        answer: Ok(0),
        table,
        written: Written::Tables,
    }
}

// What an operation that writes came to: the numbers beside the tables after it, or why it is refused.
pub fn changed(moved: Result<Table, Fault>, before: Table) -> Stepped
    ensures { result ≡ changed_with moved before }
{
    match moved {
        Ok(table) => accepted(table),
        Err(fault) => refused(fault, before),
    }
}

// An answer to SAT or UNSAT; `written` is what an accepted one wrote.
pub fn answered(answer: Answer, written: Written, table: Table) -> Stepped
    ensures { result ≡ answered_with answer written table }
{
    match answer {
        Ok(_) => Stepped {
            answer,
            table,
            written,
        },
        Err(_) => Stepped {
            answer,
            table,
            written: Written::Nothing,
        },
    }
}

// Whether the tables were written.
pub fn altered(written: Written) -> bool
    ensures { result ≡ is_tables written }
{
    matches!(written, Written::Tables)
}

// Whether one of two lines, or runs of lines, wrote them.
pub fn either(a: bool, b: bool) -> bool
    ensures { result ≡ (a || b) }
{
    if a {
        return true;
    }
    b
}
