// The program behind `zahrubel lrat RULES PROOF`: a proof as LRAT text checked against rules as DIMACS text, and the verdict on standard output. Of a proof
// that is refused, and of one that could not be read, no verdict is written.
#![tactic(auto)]

ghost use Rattle.std.specs.Prelude.{[], ◌∷◌, ◌++◌, ◌≤◌, length};
ghost use Rattle.line_hex.specs.Hex.{hex};
ghost use Rattle.line_read.specs.Lent.{Wrote};

use lrat::LratAnswer;
use lrat_serve::Checked;
use std::env::{Env, FillError};
use std::fs::File;
use std::io::IsTerminal;
use std::os::unix::fs::FileTypeExt;
use std::{fs, io};
use text_input::InputError;
use trouble::say;

// Linux's numbers of reasons.
const INVALID_ARGUMENT: i32 = 22;

const NAME_TOO_LONG: i32 = 36;

const ILLEGAL_BYTES: i32 = 84;

// ---- trouble: no digits stand before it

fn say_unopened(rt: &HostRuntime, path: &[u8], reason: io::Error) {
    say(rt, b"zahrubel: cannot open ");
    trouble::fail(rt, path, reason);
}

fn say_unread(rt: &HostRuntime, path: &[u8], reason: io::Error) {
    say(rt, b"zahrubel: cannot read ");
    trouble::fail(rt, path, reason);
}

fn say_larger(rt: &HostRuntime, path: &[u8]) {
    say(rt, b"zahrubel: ");
    say(rt, path);
    say(
        rt,
        b" is larger than 1,048,576 bytes, which is all that this program holds of rules\n",
    );
}

// ---- a refusal

// The first line for programs: code and detail, eight digits each. Of a line's number these are the low 32 bits; in words it is whole.
fn put_answer(out: &mut [u8], answer: LratAnswer) -> usize
    requires { 17 ≤ length out.old }
    ensures { Wrote out.old 0 (hex 8 answer.code ++ (hex 8 answer.detail ++ (10 ∷ []))) out.new result }
{
    let a = line_put::put_number(out, 0, answer.code as usize);
    let b = line_put::put_number(out, a, answer.detail as usize);
    line_put::put(out, b, 10)
}

fn say_numbers(rt: &HostRuntime, answer: LratAnswer) {
    let mut out = [0u8; 17];
    let n = put_answer(&mut out, answer);
    say(rt, &out[..n]);
}

// A line of the proof; 0 stands for the rules, which do not fit.
fn say_line(rt: &HostRuntime, line: u64) {
    if line == 0 {
        say(rt, b"zahrubel: the rules do not fit: ");
        return;
    }
    say(rt, b"zahrubel: line ");
    let _ = rt.stderr().print(line);
    say(rt, b" of the proof: ");
}

// What a person can act on.
fn words(code: u32) -> &'static [u8] {
    match code {
        12 => b"no entry is free; at most 1,024 clauses are held at a time\n",
        13 => b"not enough literal words are free; at most 8,192 literals are held at a time\n",
        31 =>
            b"a malformed line; an addition is \"ID LITERALS 0 HINTS 0\", a deletion \"ID d IDS 0\"\n",
        32 => b"a literal past the variable count that the rules declare\n",
        33 => b"a clause that has a variable twice, or more than 256 literals\n",
        34 => b"an added id that is not above those of the rules and all that were added before\n",
        35 => b"a deleted id that is not held\n",
        36 => b"a negative hint\n",
        37 =>
            b"a failed proof; a hint is not held, has a true literal or two open ones, or the hints are used up\n",
        _ => b"refused\n",
    }
}

fn say_end(rt: &HostRuntime, lines: u64) {
    say(
        rt,
        b"zahrubel: the proof ends without an empty clause; its number of lines is ",
    );
    let _ = rt.stderr().print(lines);
    say(rt, b"\n");
}

// The second line for people.
fn say_refusal(rt: &HostRuntime, answer: LratAnswer) {
    say_numbers(rt, answer);
    if answer.code == 38 {
        say_end(rt, answer.detail);
        return;
    }
    say_line(rt, answer.detail);
    say(rt, words(answer.code));
}

// ---- the verdict

fn tell(rt: &HostRuntime, answer: LratAnswer) {
    if answer.code != 0 {
        say_refusal(rt, answer);
        return;
    }
    if let Err(reason) = rt.stdout().write_all(b"s VERIFIED\n") {
        trouble::fail(rt, b"zahrubel: cannot write the verdict", reason);
    }
}

// A name is text here: one that is not names no file that this program can open.
fn open(rt: &HostRuntime, path: &[u8]) -> io::Result<File> {
    match str::from_utf8(path) {
        Ok(name) => File::open(rt, name),
        Err(_) => Err(io::Error::from_raw_os_error(ILLEGAL_BYTES)),
    }
}

fn check_proof(rt: &HostRuntime, terminal: &mut Option<File>, rules: &[u8], path: &[u8]) {
    let mut proof = match open(rt, path) {
        Ok(file) => file,
        Err(reason) => {
            say_unopened(rt, path, reason);
            return;
        }
    };
    match lrat_serve::serve(rules, &mut proof, terminal) {
        Checked::Faulty(fault) => dimacs_say::say_fault(
            rt,
            b"zahrubel: the rules, line ",
            rules,
            fault,
        ),
        Checked::Known(answer) => tell(rt, answer),
        Checked::Ended(answer) => tell(rt, answer),
        Checked::Unread(reason) => say_unread(rt, path, reason),
    }
}

// Why an argument is not there, as the system has it.
fn missing(why: FillError) -> io::Error {
    match why {
        FillError::NotPresent => io::Error::from_raw_os_error(INVALID_ARGUMENT),
        FillError::TooLong => io::Error::from_raw_os_error(NAME_TOO_LONG),
    }
}

fn name_proof(rt: &HostRuntime, terminal: &mut Option<File>, rules: &[u8]) {
    let mut path = [0u8; 4096];
    match rt.arg(2, &mut path) {
        Ok(n) => check_proof(rt, terminal, rules, &path[..n]),
        Err(why) => trouble::fail(
            rt,
            b"zahrubel: a proof is to be named behind the rules",
            missing(why),
        ),
    }
}

fn read_rules(rt: &HostRuntime, terminal: &mut Option<File>, path: &[u8]) {
    let mut file = match open(rt, path) {
        Ok(file) => file,
        Err(reason) => {
            say_unopened(rt, path, reason);
            return;
        }
    };
    let mut buf = text_input::text_buffer();
    let input = text_input::read_whole(&mut file, &mut buf);
    match input {
        Ok(n) => name_proof(rt, terminal, &buf[..n]),
        Err(InputError::Larger) => say_larger(rt, path),
        Err(InputError::Unread(reason)) => say_unread(rt, path, reason),
    }
}

// The terminal that is this program's descriptor 3, if it is one. It is asked for before a file is opened: without a terminal descriptor 3 is closed, and
// then the next file gets that number.
fn find_terminal(rt: &HostRuntime) -> Option<File> {
    let found = fs::metadata(rt, "/proc/self/fd/3").ok()?;
    // another sort of file is not opened: that of a pipe would wait for its reader
    if !found.file_type().is_char_device() {
        return None;
    }
    let file = File::options()
        .write(true)
        .open(rt, "/proc/self/fd/3")
        .ok()?;
    if file.is_terminal() { Some(file) } else { None }
}

fn main(rt: HostRuntime) {
    let mut terminal = find_terminal(&rt);
    let mut path = [0u8; 4096];
    match rt.arg(1, &mut path) {
        Ok(n) => read_rules(&rt, &mut terminal, &path[..n]),
        Err(why) => trouble::fail(
            &rt,
            b"zahrubel: the rules and a proof are to be named",
            missing(why),
        ),
    }
}
