// The program behind `zahrubel dimacs`: rules as DIMACS text on standard input, their ADD frames as lines on standard output. Of a text with a fault, and of
// one that could not be read, no line is written.
#![tactic(auto)]

ghost use Rattle.std.specs.Prelude.{◌≡◌, ◌≤◌, length};

use dimacs_frames::{Cursor, YieldError};
use std::io;
use text_input::InputError;
use trouble::say;

// ---- what is said on standard error

// Why there are no lines more, where it is not that none are left. The buffer has enough words.
fn say_why(rt: &HostRuntime, text: &[u8], why: YieldError) {
    match why {
        YieldError::Faulty(fault) => dimacs_say::say_fault(rt, b"zahrubel: line ", text, fault),
        YieldError::NoBuffer => (),
        YieldError::NoId => say(
            rt,
            b"zahrubel: the text has more clauses than there are ids\n",
        ),
    }
}

// ---- the lines

// Room for the longest frame.
fn frame_buffer() -> [i32; 258]
    ensures { 258 ≡ length result }
{
    [0i32; 258]
}

// Prints a text's frames to the last, or says why there are none.
fn print_text(rt: &HostRuntime, text: &[u8]) -> io::Result<()> {
    let mut frame = frame_buffer();
    let mut out = [0u8; 65536];
    let mut cursor = Cursor { at: 0, id: 0 };
    // A `loop` and not a `for`: it ends where the text has no frame left, and no count is known before.
    loop {
        let filled = dimacs_print::fill(text, cursor, &mut frame, &mut out);
        rt.stdout().write_all(&out[..filled.at])?;
        match filled.onward {
            Ok(Some(behind)) => cursor = behind,
            Ok(None) => return Ok(()),
            Err(why) => {
                say_why(rt, text, why);
                return Ok(());
            }
        }
    }
}

// A write that failed is said: without it frames would be lost in silence.
fn print_whole(rt: &HostRuntime, text: &[u8]) {
    if let Err(reason) = print_text(rt, text) {
        trouble::fail(rt, b"zahrubel: cannot write the frames", reason);
    }
}

fn main(rt: HostRuntime) {
    let mut buf = text_input::text_buffer();
    let input = text_input::read_whole(&mut rt.stdin(), &mut buf);
    match input {
        Ok(n) => print_whole(&rt, &buf[..n]),
        Err(InputError::Larger) => say(
            &rt,
            b"zahrubel: the text is larger than 1,048,576 bytes, which is all that this program holds; the library takes any length\n",
        ),
        Err(InputError::Unread(reason)) => trouble::fail(
            &rt,
            b"zahrubel: cannot read the text",
            reason,
        ),
    }
}
