// What the definitions of proof files and the code share.
#![tactic(auto)]

// A word of a line on its way. Its kind: 0 at the line's start, 1 a minus alone, 2 digits, 3 the letter d alone, 4 anything else, 5 between words. Behind a
// minus or without, the digits say a number; what is above 2,147,483,647 names nothing, so numbers of 2^32 and above are told as that.
// Here and below such a number stays one: a caller in C may hand in any bits between two parts and has them back word for word, which no enum could hold.
#[derive(Clone, Copy)]
pub struct ProofWord {
    pub kind: u32,
    pub minus: bool,
    pub value: u64,
}

// What a word is: a number, with a minus or without, the letter d, or something else.
#[derive(Clone, Copy)]
pub enum LineWord {
    Number(bool, u64),
    Deletion,
    Other,
}

// What is read of a line. Its phase: 0 before its id, 1 behind it, 2 among its literals, 3 among its hints, 4 behind them, 5 among the ids of a deletion, 6
// behind them. The least number of refusal that was noted, 37 where none of 31 to 36 was; its id, 0 where that is none; how many literals are kept; and
// whether the hints go on (0), have proved the clause (1) or failed (2).
#[derive(Clone, Copy)]
pub struct ProofLine {
    pub phase: u32,
    pub noted: u32,
    pub id: u32,
    pub count: u32,
    pub proof: u32,
}

// What is read of a proof: the word and the line on their way, how many lines are closed, and whether the answer is known: then the code is its number, 0 where
// the proof is accepted.
#[derive(Clone, Copy)]
pub struct ProofReader {
    pub word: ProofWord,
    pub line: ProofLine,
    pub lines: u64,
    pub over: bool,
    pub code: u32,
}

// An answer: its number, and its detail. The number is that of document 02, by which the definitions answer: of those noted the least decides.
#[derive(Clone, Copy)]
pub struct LratAnswer {
    pub code: u32,
    pub detail: u64,
}
