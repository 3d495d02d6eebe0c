// The archive for C and Rust: the public calls with pointers and lengths, an answer as its two numbers.
#![tactic(auto)]

ghost use Rattle.std.specs.Prelude.{◌+◌};
ghost use Rattle.lent_entries.specs.Lent.{clause_at, entry_at, witness_at};
ghost use Rattle.library.specs.Exported.{OpenExported, StepExported, Names, GiveExported, EndExported};
ghost use Rattle.library.specs.Texts.{JudgeExported, NextExported};
ghost use Rattle.library.specs.Proofs.{CheckExported, LratGiveExported, LratOpenExported};

use call_lrat_parts::ProofReading;
use dimacs_frames::Cursor;
use lent::Carried;
use lent_entries::Entry;
use library_back::{CnfCounts, Counts, Numbers, Part, Reading};
use library_proofs::ProofState;
use line_read::Reader;

// An opening over the lent tables, of which only the sizes matter. What is carried is written when it is accepted.
#[unsafe(no_mangle)]
pub extern "C" fn zahrubel_open(
    vars: u32,
    entries: &[Entry],
    pool: &[i32],
    carried: &mut Carried,
) -> Numbers
    ensures { OpenExported vars entries.now pool.now carried.old result carried.new }
{
    let opened = call_step::open(vars, entries, pool);
    *carried = library_back::after_opening(opened, *carried);
    Numbers::from(opened.answer)
}

// One frame over the lent tables, with what is carried behind a reference: it is read, and written back as the call hands it back.
#[unsafe(no_mangle)]
pub extern "C" fn zahrubel_step(
    entries: &mut [Entry],
    pool: &mut [i32],
    carried: &mut Carried,
    frame: &[i32],
    model: &mut [u64],
) -> Numbers
    ensures { StepExported entries.old pool.old carried.old frame.now model.old result
        entries.new
        pool.new carried.new model.new }
{
    let stepped = call_step::step(entries, pool, *carried, frame, model);
    *carried = stepped.carried;
    Numbers::from(stepped.answer)
}

// ---- the reading of a held clause

// Where in the pool the literals lie of the clause that entry i holds.
#[unsafe(no_mangle)]
pub extern "C" fn zahrubel_clause(entries: &[Entry], pool: &[i32], i: usize) -> Part
    ensures { Names pool.now (entry_at entries.now i).start (entry_at entries.now i).length
        (clause_at entries.now pool.now i) result }
{
    library_back::clause_part(pool.len(), lent_entries::entry_at(entries, i))
}

// Those of its witness.
#[unsafe(no_mangle)]
pub extern "C" fn zahrubel_witness(entries: &[Entry], pool: &[i32], i: usize) -> Part
    ensures { Names pool.now ((entry_at entries.now i).start + (entry_at entries.now i).length)
        (entry_at entries.now i).witness (witness_at entries.now pool.now i) result }
{
    library_back::witness_part(pool.len(), lent_entries::entry_at(entries, i))
}

// ---- parts of the input

// A part of the input over the lent tables, with what is carried and read behind references: both are written back as the call hands them back.
#[unsafe(no_mangle)]
pub extern "C" fn zahrubel_give(
    entries: &mut [Entry],
    pool: &mut [i32],
    carried: &mut Carried,
    reader: &mut Reading,
    frame: &mut [i32],
    part: &[u8],
    out: &mut [u8],
    counts: &mut Counts,
) -> Numbers
    ensures { GiveExported entries.old pool.old carried.old reader.old frame.old
        part.now
        out.old result entries.new pool.new carried.new reader.new frame.new out.new
        counts.new }
{
    let given = call_give::give(
        entries,
        pool,
        *carried,
        Reader::from(*reader),
        frame,
        part,
        out,
    );
    let back = library_back::hand_back(
        given.answer,
        given.reader,
        given.taken,
        given.written,
        *reader,
    );
    *carried = given.carried;
    *reader = back.reading;
    *counts = back.counts;
    back.numbers
}

// The end of input: a line that is not closed is refused 2.
#[unsafe(no_mangle)]
pub extern "C" fn zahrubel_end(reader: &Reading, out: &mut [u8], written: &mut u64) -> Numbers
    ensures { EndExported reader.now out.old result out.new written.new }
{
    let back = library_back::end_back(call_give::end(Reader::from(*reader), out));
    *written = back.written;
    back.numbers
}

// ---- rules as DIMACS text

// Judges a text of any bytes. V and the number of its clauses are written where it has no fault.
#[unsafe(no_mangle)]
pub extern "C" fn zahrubel_dimacs_judge(text: &[u8], cnf: &mut CnfCounts) -> Numbers
    ensures { JudgeExported text.now cnf.old result cnf.new }
{
    let back = library_back::judge_back(dimacs_judge::judge(text), *cnf);
    *cnf = back.cnf;
    back.numbers
}

// The next clause of a text as a frame, with the cursor behind a reference: it is written back as the call hands it back.
#[unsafe(no_mangle)]
pub extern "C" fn zahrubel_dimacs_next(
    text: &[u8],
    cursor: &mut Cursor,
    frame: &mut [i32],
) -> Numbers
    ensures { NextExported text.now cursor.old frame.old result cursor.new frame.new }
{
    let back = library_back::next_back(dimacs_frames::next(text, *cursor, frame), *cursor);
    *cursor = back.cursor;
    back.numbers
}

// ---- a second vendor's proofs

// A proof against the rules of a text, whole, over lent tables of its own. What is carried is written back as the call hands it back.
#[unsafe(no_mangle)]
pub extern "C" fn zahrubel_lrat_check(
    entries: &[Entry],
    pool: &mut [i32],
    carried: &mut Carried,
    cnf: &[u8],
    proof: &[u8],
) -> Numbers
    ensures { CheckExported entries.now pool.old carried.old cnf.now proof.now result
        pool.new carried.new }
{
    let called = call_lrat::check(entries, pool, *carried, cnf, proof);
    *carried = called.carried;
    library_proofs::numbers_of(called.answer)
}

// Opens lent tables for a proof in parts, with what is carried and read behind references: both are written back as the call hands them back.
#[unsafe(no_mangle)]
pub extern "C" fn zahrubel_lrat_open(
    entries: &mut [Entry],
    pool: &mut [i32],
    carried: &mut Carried,
    proof: &mut ProofState,
    cnf: &[u8],
) -> Numbers
    ensures { LratOpenExported entries.old pool.old carried.old proof.old cnf.now result
        entries.new pool.new carried.new proof.new }
{
    let given = call_lrat_parts::open(entries, pool, *carried, ProofReading::from(*proof), cnf);
    let back = library_proofs::opening_back(given.answer, given.reading, *proof);
    *carried = given.carried;
    *proof = back.state;
    back.numbers
}

// A part of the proof, in the same way; `last` is not 0 where the proof ends with it.
#[unsafe(no_mangle)]
pub extern "C" fn zahrubel_lrat_give(
    entries: &mut [Entry],
    pool: &mut [i32],
    carried: &mut Carried,
    proof: &mut ProofState,
    part: &[u8],
    last: u32,
) -> Numbers
    ensures { LratGiveExported entries.old pool.old carried.old proof.old part.now last result
        entries.new pool.new carried.new proof.new }
{
    let given = call_lrat_parts::give(
        entries,
        pool,
        *carried,
        ProofReading::from(*proof),
        part,
        library_proofs::is_set(last),
    );
    let back = library_proofs::part_back(given.answer, given.reading, *proof);
    *carried = given.carried;
    *proof = back.state;
    back.numbers
}
