// What goes back over the archive's calls: an answer as its two numbers, the parts of the pool, what is read, what a text came to.
#![tactic(auto)]

ghost use Rattle.std.specs.Prelude.{◌≡◌, ◌+◌};
ghost use Rattle.lent_entries.specs.Lent.{Spans};
ghost use Rattle.dimacs.specs.Reading.{fault_numbers};
ghost use Rattle.dimacs_frames.specs.Yields.{yield_numbers, cursor_after};
ghost use Rattle.library_back.specs.Handed.{Numbered, carried_after, reader_of, reading_of, read_after, PartHanding, EndHanding};
ghost use Rattle.library_back.specs.Told.{Told, CnfHanding, NextHanding};

use call_give::Ended;
use dimacs::{TextCounts, TextFault};
use dimacs_frames::{Cursor, Yield, YieldError};
use lent::{Called, Carried};
use lent_entries::{Entry, Span};
use line_read::Reader;
use rules::Answer;

// "Each answer is a code and a detail." Two words of 64 bits go back in registers on every processor.
#[repr(C)]
#[derive(Clone, Copy)]
pub struct Numbers {
    pub code: u64,
    pub detail: u64,
}

impl From<Answer> for Numbers {
    ghost from_gives = { λ answer n. Numbered answer n };

    fn from(answer: Answer) -> Numbers {
        Numbers {
            code: u64::from(rules_codes::code(answer)),
            detail: rules_codes::detail(answer) as u64,
        }
    }
}

// What is carried after an opening: what it hands out; where it is refused, what was there before.
pub fn after_opening(opened: Called, before: Carried) -> Carried
    ensures { result ≡ carried_after opened.answer opened.carried before }
{
    match opened.answer {
        Ok(_) => opened.carried,
        Err(_) => before,
    }
}

// ---- the reading of a held clause

// A part of the pool: `length` words from `start` on.
#[repr(C)]
#[derive(Clone, Copy)]
pub struct Part {
    pub start: u64,
    pub length: u64,
}

impl From<Span> for Part {
    ghost from_gives = { λ s p. (p.start ≡ s.start) × (p.length ≡ s.length) };

    fn from(s: Span) -> Part {
        Part {
            start: s.start as u64,
            length: s.length as u64,
        }
    }
}

pub fn clause_part(words: usize, e: Entry) -> Part
    ensures { Spans words e.start e.length result.start result.length }
{
    Part::from(lent_entries::clause_span(words, e))
}

pub fn witness_part(words: usize, e: Entry) -> Part
    ensures { Spans words (e.start + e.length) e.witness result.start result.length }
{
    Part::from(lent_entries::witness_span(words, e))
}

// ---- parts of the input

// What is read of the line that is not closed yet: spoilt where the last word is not 0.
#[repr(C)]
#[derive(Clone, Copy)]
pub struct Reading {
    pub digits: u64,
    pub word: u64,
    pub spoilt: u64,
}

// How many bytes of the part were taken, and how many were written to the out buffer.
#[repr(C)]
#[derive(Clone, Copy)]
pub struct Counts {
    pub taken: u64,
    pub written: u64,
}

impl From<Reading> for Reader {
    ghost from_gives = { λ x r. r ≡ reader_of x };

    fn from(x: Reading) -> Reader {
        Reader {
            digits: x.digits as usize,
            word: x.word,
            spoilt: x.spoilt != 0,
        }
    }
}

impl From<Reader> for Reading {
    ghost from_gives = { λ r x. x ≡ reading_of r };

    fn from(r: Reader) -> Reading {
        Reading {
            digits: r.digits as u64,
            word: r.word,
            spoilt: u64::from(r.spoilt),
        }
    }
}

// What is read after a part: what the call hands back; where it is refused, what was there before, word for word.
fn reading_after(answer: Answer, reader: Reader, lent: Reading) -> Reading
    ensures { result ≡ read_after answer reader lent }
{
    match answer {
        Ok(_) => Reading::from(reader),
        Err(_) => lent,
    }
}

// What a part came to, as it goes back beside what is carried.
#[derive(Clone, Copy)]
pub struct PartHanded {
    pub numbers: Numbers,
    pub reading: Reading,
    pub counts: Counts,
}

pub fn hand_back(
    answer: Answer,
    reader: Reader,
    taken: usize,
    written: usize,
    before: Reading,
) -> PartHanded
    ensures { PartHanding answer reader taken written before result }
{
    PartHanded {
        numbers: Numbers::from(answer),
        reading: reading_after(answer, reader, before),
        counts: Counts {
            taken: taken as u64,
            written: written as u64,
        },
    }
}

// What the end of input came to, as it goes back.
#[derive(Clone, Copy)]
pub struct EndHanded {
    pub numbers: Numbers,
    pub written: u64,
}

pub fn end_back(ended: Ended) -> EndHanded
    ensures { EndHanding ended result }
{
    EndHanded {
        numbers: Numbers::from(ended.answer),
        written: ended.written as u64,
    }
}

// ---- rules as DIMACS text

// What a text without fault has: V, and so many clauses.
#[repr(C)]
#[derive(Clone, Copy)]
pub struct CnfCounts {
    pub vars: u64,
    pub clauses: u64,
}

impl From<TextFault> for Numbers {
    ghost from_gives = { λ fault n. Told (fault_numbers fault) n };

    fn from(fault: TextFault) -> Numbers {
        Numbers {
            code: u64::from(dimacs_codes::code(fault)),
            detail: dimacs_codes::position(fault) as u64,
        }
    }
}

// What judging a text came to, as it goes back.
#[derive(Clone, Copy)]
pub struct CnfHanded {
    pub numbers: Numbers,
    pub cnf: CnfCounts,
}

// A faulty text leaves what was there before.
pub fn judge_back(answer: Result<TextCounts, TextFault>, before: CnfCounts) -> CnfHanded
    ensures { CnfHanding answer before result }
{
    match answer {
        Ok(counts) => CnfHanded {
            numbers: Numbers { code: 0, detail: 0 },
            cnf: CnfCounts {
                vars: u64::from(counts.vars),
                clauses: counts.clauses as u64,
            },
        },
        Err(fault) => CnfHanded {
            numbers: Numbers::from(fault),
            cnf: before,
        },
    }
}

// What a text yielded, as it goes back.
#[derive(Clone, Copy)]
pub struct NextHanded {
    pub numbers: Numbers,
    pub cursor: Cursor,
}

impl From<Yield> for Numbers {
    ghost from_gives = { λ yielded n. Told (yield_numbers yielded) n };

    fn from(yielded: Yield) -> Numbers {
        match yielded {
            Ok(Some(frame)) => Numbers {
                code: 0,
                detail: frame.words as u64,
            },
            Ok(None) => Numbers { code: 0, detail: 0 },
            Err(YieldError::Faulty(fault)) => Numbers::from(fault),
            Err(YieldError::NoBuffer) => Numbers { code: 1, detail: 0 },
            Err(YieldError::NoId) => Numbers {
                code: 4,
                detail: 2147483648,
            },
        }
    }
}

fn cursor_after(yielded: Yield, before: Cursor) -> Cursor
    ensures { result ≡ cursor_after yielded before }
{
    match yielded {
        Ok(Some(frame)) => frame.behind,
        Ok(None) | Err(_) => before,
    }
}

pub fn next_back(yielded: Yield, before: Cursor) -> NextHanded
    ensures { NextHanding yielded before result }
{
    NextHanded {
        numbers: Numbers::from(yielded),
        cursor: cursor_after(yielded, before),
    }
}
