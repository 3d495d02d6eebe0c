// What goes in and back over the archive's calls on proofs.
#![tactic(auto)]

ghost use Rattle.std.specs.Prelude.{◌≡◌, not, eqb};
ghost use Rattle.library_proofs.specs.Handed.{handed_part, handed_opening, lrat_numbers, reading_of, state_of};

use call_lrat_parts::ProofReading;
use library_back::Numbers;
use lit_sets::LitSet;
use lrat::{LratAnswer, ProofLine, ProofReader, ProofWord};

// An answer as its two numbers. It is no `From`: neither type is of this crate.
pub fn numbers_of(answer: LratAnswer) -> Numbers
    ensures { result ≡ lrat_numbers answer }
{
    Numbers {
        code: u64::from(answer.code),
        detail: answer.detail,
    }
}

// ---- what is read of a proof, in words of any bits

// The fields of a reading, flat; 0 for no and anything else for yes, where one is asked for.
#[repr(C)]
#[derive(Clone, Copy)]
pub struct ProofState {
    pub lines: u64,
    pub value: u64,
    pub kind: u32,
    pub minus: u32,
    pub phase: u32,
    pub noted: u32,
    pub id: u32,
    pub count: u32,
    pub proof: u32,
    pub over: u32,
    pub code: u32,
    pub spare: u32,
    pub lits: [i32; 256],
    pub plus: [u64; 32],
    pub minuses: [u64; 32],
}

// Not 0.
pub fn is_set(x: u32) -> bool
    ensures { result ≡ not (eqb x 0) }
{
    x != 0
}

impl From<ProofState> for ProofReading {
    ghost from_gives = { λ s r. r ≡ reading_of s };

    fn from(s: ProofState) -> ProofReading {
        let word = ProofWord {
            kind: s.kind,
            minus: is_set(s.minus),
            value: s.value,
        };
        let line = ProofLine {
            phase: s.phase,
            noted: s.noted,
            id: s.id,
            count: s.count,
            proof: s.proof,
        };
        let reader = ProofReader {
            word,
            line,
            lines: s.lines,
            over: is_set(s.over),
            code: s.code,
        };
        let lits = s.lits;
        let plus = s.plus;
        let minus = s.minuses;
        let falses = LitSet { plus, minus };
        ProofReading {
            reader,
            lits,
            falses,
        }
    }
}

impl From<ProofReading> for ProofState {
    ghost from_gives = { λ r s. s ≡ state_of r };

    fn from(r: ProofReading) -> ProofState {
        let reader = r.reader;
        let word = reader.word;
        let line = reader.line;
        let lits = r.lits;
        let falses = r.falses;
        let plus = falses.plus;
        let minuses = falses.minus;
        ProofState {
            lines: reader.lines,
            value: word.value,
            kind: word.kind,
            minus: u32::from(word.minus),
            phase: line.phase,
            noted: line.noted,
            id: line.id,
            count: line.count,
            proof: line.proof,
            over: u32::from(reader.over),
            code: reader.code,
            spare: 0,
            lits,
            plus,
            minuses,
        }
    }
}

// ---- what goes back

#[derive(Clone, Copy)]
pub struct ProofHanded {
    pub numbers: Numbers,
    pub state: ProofState,
}

// After an opening: what is read where it is accepted, else what was there before, word for word.
pub fn opening_back(answer: LratAnswer, reading: ProofReading, before: ProofState) -> ProofHanded
    ensures { result ≡ handed_opening answer reading before }
{
    let numbers = numbers_of(answer);
    if answer.code == 0 {
        return ProofHanded {
            numbers,
            state: ProofState::from(reading),
        };
    }
    ProofHanded {
        numbers,
        state: before,
    }
}

// After a part: what is read; where what was lent is no state, what was there before, word for word.
pub fn part_back(answer: LratAnswer, reading: ProofReading, before: ProofState) -> ProofHanded
    ensures { result ≡ handed_part answer reading before }
{
    let numbers = numbers_of(answer);
    if answer.code == 1 {
        return ProofHanded {
            numbers,
            state: before,
        };
    }
    ProofHanded {
        numbers,
        state: ProofState::from(reading),
    }
}
