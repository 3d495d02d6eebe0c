// An input as one text, in memory of the program's own.
#![tactic(auto)]

ghost use Rattle.std.specs.Prelude.{◌≡◌, ◌≤◌, length, IfOk};
ghost use Rattle.text_input.specs.Input.{InsideInput, Long};
ghost use Rattle.text_input.specs.declared.InputError.TheVariants.{Unread};

use std::io;
use std::io::Read;

// Room for a text of 1 MiB.
pub fn text_buffer() -> [u8; 1048576]
    ensures { 1048576 ≡ length result }
{
    [0; 1048576]
}

// Why an input is not there: it is larger than the buffer; or a read failed, for this reason.
#[derive(Clone, Copy)]
pub enum InputError {
    Larger,
    Unread(io::Error),
}

impl From<io::Error> for InputError {
    ghost from_gives = { λ reason e. e ≡ Unread reason };

    fn from(reason: io::Error) -> InputError {
        InputError::Unread(reason)
    }
}

// Reads on until no byte comes or the buffer is full: so many bytes came.
fn read_on<R: Read>(input: &mut R, buf: &mut [u8]) -> io::Result<usize>
    ensures { IfOk result (λ n. n ≤ length buf.new) }
{
    let mut done = 0;
    // Stays a `while`: the step is as long as the read was.
    while done < buf.len() {
        let count = input.read(&mut buf[done..])?;
        if count == 0 {
            break;
        }
        done += count;
    }
    Ok(done)
}

// The input ends behind so many bytes, unless they fill the buffer and a byte is left.
fn ended<R: Read>(input: &mut R, full: bool, long: usize) -> Result<usize, InputError>
    ensures { Long long result }
{
    if full && input.read(&mut [0u8; 1])? != 0 {
        return Err(InputError::Larger);
    }
    Ok(long)
}

// Reads an input to its end: how long it is.
pub fn read_whole<R: Read>(input: &mut R, buf: &mut [u8]) -> Result<usize, InputError>
    ensures { InsideInput buf.new result }
{
    let done = read_on(input, buf)?;
    ended(input, done == buf.len(), done)
}
