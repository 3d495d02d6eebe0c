// The clauses of a text as lines of ADD frames, as many at a time as a lent buffer has room for.
#![tactic(auto)]

ghost use Rattle.std.specs.Prelude.{◌≡◌, ◌≤◌, length};
ghost use Rattle.dimacs_print.specs.Printed.{Filling};

use dimacs_frames::{Cursor, YieldError};

// Where the lines in the buffer end. Either it has no room for one more longest line, and the text goes on behind a cursor; or the last call handed out no
// frame: none is left, or it told why.
#[derive(Clone, Copy)]
pub struct Filled {
    pub at: usize,
    pub onward: Result<Option<Cursor>, YieldError>,
}

// The longest line: 258 words of eight digits, and 0A.
pub fn fill(text: &[u8], cursor: Cursor, frame: &mut [i32], out: &mut [u8]) -> Filled
    requires { (258 ≤ length frame.old) × (2065 ≤ length out.old) }
    ensures { Filling text.now cursor out.old result out.new }
{
    let mut at: usize = 0;
    let mut behind = cursor;
    // Stays a `while`: the step is as long as the line was.
    while 2065 <= out.len() - at {
        match dimacs_frames::next(text, behind, frame) {
            Ok(Some(yielded)) => {
                at = dimacs_lines::put_frame(out, at, &frame[..yielded.words]);
                behind = yielded.behind;
            }
            Ok(None) => {
                return Filled {
                    at,
                    onward: Ok(None),
                };
            }
            Err(why) => {
                return Filled {
                    at,
                    onward: Err(why),
                };
            }
        }
    }
    Filled {
        at,
        onward: Ok(Some(behind)),
    }
}
