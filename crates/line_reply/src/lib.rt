// The line of an answer, as bytes, and what the end of input adds. What is written is defined in `line_read`, its digits in `line_hex`.
#![tactic(auto)]

ghost use Rattle.std.specs.Prelude.{[], ◌+◌, ◌≤◌, length};
ghost use Rattle.rules.specs.Outcomes.{trues};
ghost use Rattle.lit_sets.specs.Words.{assigned};
ghost use Rattle.line_read.specs.Lines.{in_hex, numbered, answer_line};
ghost use Rattle.line_read.specs.Machine.{end_reply};
ghost use Rattle.line_read.specs.Lent.{Wrote};

use line_read::Reader;
use rules::{Answer, Fault};

// The true variables, rising. Where no bit is left of a word the next one follows.
fn put_model(out: &mut [u8], at: usize, model: &[u64; 32]) -> usize
    requires { at + 16384 ≤ length out.old }
    ensures { Wrote out.old at (in_hex (trues (assigned model.now) 2048 [])) out.new result }
{
    let mut a = at;
    for (k, &word) in model.iter().enumerate() {
        for b in 0..64 {
            let w = word >> b;
            if w == 0 {
                break;
            }
            if w % 2 == 1 {
                a = line_put::put_number(out, a, 64 * k + b + 1);
            }
        }
    }
    a
}

fn put_numbers(out: &mut [u8], at: usize, answer: Answer) -> usize
    requires { at + 16 ≤ length out.old }
    ensures { Wrote out.old at (numbered answer) out.new result }
{
    let a = line_put::put_number(out, at, rules_codes::code(answer) as usize);
    line_put::put_number(out, a, rules_codes::detail(answer))
}

// The line of an answer.
pub fn put_answer(out: &mut [u8], at: usize, answer: Answer) -> usize
    requires { at + 17 ≤ length out.old }
    ensures { Wrote out.old at (answer_line answer []) out.new result }
{
    let a = put_numbers(out, at, answer);
    line_put::put(out, a, 10)
}

// The line of an accepted SAT.
pub fn put_sat(out: &mut [u8], at: usize, answer: Answer, model: &[u64; 32]) -> usize
    requires { at + 16401 ≤ length out.old }
    ensures { Wrote out.old at (answer_line answer (trues (assigned model.now) 2048 [])) out.new result }
{
    let a = put_numbers(out, at, answer);
    let b = put_model(out, a, model);
    line_put::put(out, b, 10)
}

// The end of input: a line that is not closed is refused.
pub fn finish(r: Reader, out: &mut [u8], at: usize) -> usize
    requires { at + 17 ≤ length out.old }
    ensures { Wrote out.old at (end_reply r.digits r.spoilt) out.new result }
{
    if r.spoilt || r.digits != 0 {
        return put_answer(out, at, Err(Fault::Malformed));
    }
    at
}
