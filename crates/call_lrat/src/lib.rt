// A proof checked whole against the rules of a text, over lent tables of its own: opened empty, and left so whatever the outcome.
#![tactic(auto)]

ghost use Rattle.std.specs.Prelude.{◌≡◌};
ghost use Rattle.table.specs.Spelled.{Fit, spelled};
ghost use Rattle.lrat.specs.Checking as paper;
ghost use Rattle.dimacs.specs.Reading.{fault_numbers};
ghost use Rattle.call_lrat.specs.Checks.{Checks, ChecksLent, called_empty};

use dimacs::TextFault;
use lent::Carried;
use lent_entries::Entry;
use lit_sets::LitSet;
use lrat::LratAnswer;
use lrat_fill::Unfilled;
use table::{Row, Table};

// The answer, and what is carried after it.
#[derive(Clone, Copy)]
pub struct LratCalled {
    pub answer: LratAnswer,
    pub carried: Carried,
}

// The number of a text's fault, and its byte. It is no `From`: neither type is of this crate.
pub fn fault_answer(fault: TextFault) -> LratAnswer
    ensures { result ≡ paper.answer (fault_numbers fault).0 (fault_numbers fault).1 }
{
    LratAnswer {
        code: dimacs_codes::code(fault),
        detail: dimacs_codes::position(fault) as u64,
    }
}

// The proof against the clauses that the tables hold.
fn check_filled(
    proof: &[u8],
    rows: &mut [Row],
    pool: &mut [i32],
    stack: &[u32],
    t: Table,
) -> LratAnswer
    requires { Fit t rows.old pool.old stack.now }
    ensures { result ≡ paper.check_proof (spelled t rows.old pool.old stack.now) proof.now }
{
    let mut lits = [0i32; 256];
    let mut falses = LitSet::empty();
    let start = lrat_feed::start();
    let fed = lrat_feed::feed(proof, rows, pool, stack, t, start, &mut lits, &mut falses);
    let table = fed.table;
    let reader = fed.reader;
    let ended = lrat_feed::finish(rows, pool, stack, table, reader, &mut lits, &mut falses);
    let last = ended.reader;
    lrat_feed::told(last)
}

// The tables opened empty.
fn emptied(answer: LratAnswer, vars: u32, n: usize, words: usize) -> LratCalled
    ensures { result ≡ called_empty answer vars n words }
{
    let opened = lent_open::open_sized(vars, n, words);
    let carried = opened.carried;
    LratCalled { answer, carried }
}

// Over a table of n entries, whose words are not looked at: the clauses are held in rows of the call's own.
fn check_lent(n: usize, pool: &mut [i32], c: Carried, cnf: &[u8], proof: &[u8]) -> LratCalled
    ensures { ChecksLent n pool.old c cnf.now proof.now result pool.new }
{
    if !lent::in_sizes(n, pool.len()) {
        return LratCalled {
            answer: LratAnswer { code: 1, detail: 0 },
            carried: c,
        };
    }
    let mut rows = lent_entries::vacant_rows();
    let stack = [0u32; 1024];
    match lrat_fill::fill(cnf, &mut rows, pool, &stack, n as u32) {
        Ok(t) => {
            let answer = check_filled(proof, &mut rows, pool, &stack, t);
            emptied(answer, t.vars, n, pool.len())
        }
        Err(why) => match why {
            Unfilled::Faulty(fault) => LratCalled {
                answer: fault_answer(fault),
                carried: c,
            },
            Unfilled::Full(code, vars) => {
                emptied(LratAnswer { code, detail: 0 }, vars, n, pool.len())
            }
        },
    }
}

// Checks a proof against the rules of a text, both of any bytes, over lent tables of any bits.
pub fn check(
    entries: &[Entry],
    pool: &mut [i32],
    carried: Carried,
    cnf: &[u8],
    proof: &[u8],
) -> LratCalled
    ensures { Checks entries.now pool.old carried cnf.now proof.now result pool.new }
{
    check_lent(entries.len(), pool, carried, cnf, proof)
}
