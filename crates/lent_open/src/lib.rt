// Opening, by sizes alone.
#![tactic(auto)]

ghost use Rattle.std.specs.Prelude.{◌≡◌};
ghost use Rattle.rules.specs.Answers.{check_open};
ghost use Rattle.lent_open.specs.Opened.{opened_with, unopened_with};
ghost use Rattle.lent_open.specs.Opened.{empty as empty-carried};

use lent::{Called, Carried};
use rules::{Answer, Fault};

// What is carried of an empty state.
fn empty(vars: u32) -> Carried
    ensures { result ≡ empty-carried vars }
{
    Carried {
        vars,
        highest: 0,
        count: 0,
        words: 0,
        depth: 0,
        stack: [0u32; 1024],
    }
}

fn unopened(fault: Fault) -> Called
    ensures { result ≡ unopened_with fault }
{
    Called {
        answer: Err(fault),
        carried: empty(0),
    }
}

// Opening, by the lent sizes: 1, then 3. It neither reads nor writes the tables, "whatever the tables held".
pub fn open_sized(vars: u32, entries: usize, words: usize) -> Called
    ensures { result ≡ opened_with vars (check_open vars entries words) }
{
    if lent::in_sizes(entries, words) {
        if vars == 0 {
            return unopened(Fault::Literal(0));
        }
        if 2048 < vars {
            return unopened(Fault::Literal(0));
        }
        return Called {
            answer: Ok(0),
            carried: empty(vars),
        };
    }
    unopened(Fault::NoState)
}
