// The clauses of a text, handed out one by one as ADD frames.
#![tactic(auto)]

ghost use Rattle.std.specs.Prelude.{◌≡◌, false, [], ◌+◌, ◌≤◌, length};
ghost use Rattle.table_slices.specs.Writes.{over};
ghost use Rattle.text.specs.Words.{words_from};
ghost use Rattle.text.specs.Places.{Behind};
ghost use Rattle.dimacs.specs.Reading.{read_text};
ghost use Rattle.dimacs.specs.Frames.{add_frame, next_clause};
ghost use Rattle.dimacs_frames.specs.declared.YieldError.TheVariants.{Faulty};
ghost use Rattle.dimacs_frames.specs.Yields.{yield_clause, yield_first, into, yields_into};

use dimacs::TextFault;
use dimacs_judge::Scanned;

// Behind the clause with this id, which ends at this place. Before the first clause the id is 0, and the place is of no account.
#[repr(C)]
#[derive(Clone, Copy)]
pub struct Cursor {
    pub at: usize,
    pub id: u64,
}

// A frame of so many words, and the cursor behind it.
#[derive(Clone, Copy)]
pub struct Yielded {
    pub words: usize,
    pub behind: Cursor,
}

// Why a frame that may be there is not handed out: the text has a fault; the buffer has fewer than 258 words; or no id is left.
#[derive(Clone, Copy)]
pub enum YieldError {
    Faulty(TextFault),
    NoBuffer,
    NoId,
}

impl From<TextFault> for YieldError {
    ghost from_gives = { λ fault e. e ≡ Faulty fault };

    fn from(fault: TextFault) -> YieldError {
        YieldError::Faulty(fault)
    }
}

// None where no clause is left.
pub type Yield = Result<Option<Yielded>, YieldError>;

// The frame over the first words of the buffer.
fn write_frame(frame: &mut [i32], id: u64, lits: &[i32])
    requires { (2 + length lits.now ≤ length frame.old) × (id ≤ 2147483647) }
    ensures { frame.new ≡ over frame.old (add_frame id lits.now) }
{
    let head = [1, id as i32];
    table_slices::write_both(frame, 0, &head, lits);
}

// The clause from a place behind a word on, under the id behind this one.
fn yield_clause(text: &[u8], at: usize, id: u64, frame: &mut [i32]) -> Yield
    requires { (at ≤ length text.now) × Behind text.now at × (258 ≤ length frame.old) }
    ensures { (result, frame.new) ≡ into frame.old (yield_clause id (next_clause [] (words_from false at text.now))) }
{
    let mut stamps = [0u64; 1];
    let mut lits = [0i32; 257];
    let scanned = dimacs_judge::scan(text, at, 2048, false, &mut stamps, &mut lits);
    match scanned {
        Ok(Scanned::Closed(n, end)) => {
            if 2147483647 <= id {
                return Err(YieldError::NoId);
            }
            write_frame(frame, id + 1, &lits[..n]);
            Ok(Some(Yielded {
                words: 2 + n,
                behind: Cursor {
                    at: end,
                    id: id + 1,
                },
            }))
        }
        Ok(Scanned::Ended(_)) | Err(_) => Ok(None),
    }
}

// The first clause of a text, which is judged before.
fn yield_first(text: &[u8], frame: &mut [i32]) -> Yield
    requires { 258 ≤ length frame.old }
    ensures { (result, frame.new) ≡ into frame.old (yield_first text.now (read_text text.now)) }
{
    dimacs_judge::judge(text)?;
    let declared = dimacs_problem::read_problem(text)?;
    yield_clause(text, declared.end, 0, frame)
}

// What a text yields behind a cursor.
pub fn next(text: &[u8], cursor: Cursor, frame: &mut [i32]) -> Yield
    ensures { (result, frame.new) ≡ yields_into text.now cursor frame.old }
{
    if frame.len() < 258 {
        return Err(YieldError::NoBuffer);
    }
    if cursor.id == 0 {
        return yield_first(text, frame);
    }
    if text.len() < cursor.at || !text_numbers::is_behind(text, cursor.at) {
        return Ok(None);
    }
    yield_clause(text, cursor.at, cursor.id, frame)
}
