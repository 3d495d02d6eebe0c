// An answer in document 01's numbers: its code and its detail.
#![tactic(auto)]

ghost use Rattle.std.specs.Prelude.{◌≡◌};
ghost use Rattle.rules.specs.Answers.{numbers};

use rules::{Answer, Fault};

// The number of document 01 for an answer.
pub fn code(answer: Answer) -> u32
    ensures { result ≡ (numbers answer).0 }
{
    match answer {
        Ok(_) => 0,
        Err(fault) => match fault {
            Fault::NoState => 1,
            Fault::Malformed => 2,
            Fault::Literal(_) => 3,
            Fault::Id(_) => 4,
            Fault::Unclean(_) => 5,
            Fault::NoWitness => 6,
            Fault::Hint(_) => 7,
            Fault::Unproved(_) => 8,
            Fault::Group(_) => 9,
            Fault::Falsified(_) => 10,
            Fault::Assumption(_) => 11,
            Fault::NoEntry => 12,
            Fault::NoWords => 13,
        },
    }
}

// The detail of document 01 beside it.
pub fn detail(answer: Answer) -> usize
    ensures { result ≡ (numbers answer).1 }
{
    match answer {
        Ok(changed) => changed,
        Err(fault) => match fault {
            Fault::NoState => 0,
            Fault::Malformed => 0,
            Fault::Literal(index) => index,
            Fault::Id(id) => id as usize,
            Fault::Unclean(id) => id as usize,
            Fault::NoWitness => 0,
            Fault::Hint(index) => index,
            Fault::Unproved(id) => id as usize,
            Fault::Group(index) => index,
            Fault::Falsified(id) => id as usize,
            Fault::Assumption(index) => index,
            Fault::NoEntry => 0,
            Fault::NoWords => 0,
        },
    }
}
