// The answers that the definitions of DIMACS text and the code share.
#![tactic(auto)]

// What is wrong with a text, a case for each number from 21 to 29, with the place where the first faulty word starts.
#[derive(Clone, Copy)]
pub enum TextFault {
    NoProblemLine(usize),
    SecondProblemLine(usize),
    MalformedWord(usize),
    PastDeclared(usize),
    VariableTwice(usize),
    LongClause(usize),
    VarsOutOfRange(usize),
    UnclosedClause(usize),
    WrongClauseCount(usize),
}

// What is told of a text without fault: V and the number of its clauses.
#[derive(Clone, Copy)]
pub struct TextCounts {
    pub vars: u32,
    pub clauses: usize,
}
