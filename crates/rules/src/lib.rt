// The answers that the paper and the code share: the definitions of specs/ answer with these very types.
#![tactic(auto)]

// How propagation ends: proved after so many hints; the number, from 0, of a bad hint; all hints used up.
#[derive(Clone, Copy)]
pub enum Verdict {
    Proved(usize),
    BadHint(usize),
    UsedUp,
}

// What a refusal says, a case for each code from 1 to 13. A word's index is a usize, an id a u32.
#[derive(Clone, Copy)]
pub enum Fault {
    NoState,
    Malformed,
    Literal(usize),
    Id(u32),
    Unclean(u32),
    NoWitness,
    Hint(usize),
    Unproved(u32),
    Group(usize),
    Falsified(u32),
    Assumption(usize),
    NoEntry,
    NoWords,
}

// What the checks of a step come to: the first fault, or none.
pub type Check = Result<(), Fault>;

// The answer to a step: accepted, with the number of variables that a SAT changed; or refused.
pub type Answer = Result<usize, Fault>;
