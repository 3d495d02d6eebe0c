// The hexadecimal lines of frames, and of a text's fault. What is written is defined in `specs/Lines`, byte by byte.
#![tactic(auto)]

ghost use Rattle.std.specs.Prelude.{◌+◌, ◌*◌, ◌≤◌, length};
ghost use Rattle.line_read.specs.Lent.{Wrote};
ghost use Rattle.dimacs_lines.specs.Lines.{frame_line, fault_line};

use dimacs::TextFault;

// The line of a frame.
pub fn put_frame(out: &mut [u8], at: usize, frame: &[i32]) -> usize
    requires { at + 8 * length frame.now + 1 ≤ length out.old }
    ensures { Wrote out.old at (frame_line frame.now) out.new result }
{
    let mut a = at;
    for &x in frame {
        a = line_put::put_number(out, a, line_hex::word_of(x));
    }
    line_put::put(out, a, 10)
}

// The line of a fault: its number and its position.
pub fn put_fault(out: &mut [u8], at: usize, fault: TextFault) -> usize
    requires { at + 17 ≤ length out.old }
    ensures { Wrote out.old at (fault_line fault) out.new result }
{
    let code = dimacs_codes::code(fault) as usize;
    let position = dimacs_codes::position(fault);
    let a = line_put::put_number(out, at, code);
    let b = line_put::put_number(out, a, position);
    line_put::put(out, b, 10)
}
