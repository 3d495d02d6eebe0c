// What a program could not do, on standard error: its words, a colon and the system's reason.
#![tactic(auto)]

ghost use Rattle.std.specs.Prelude.{◌≤◌, length};

use std::io;
use std::io::{Cursor, Write};

// The reason as text at the start of the buffer; it may be cut short.
fn put_reason(reason: io::Error, text: &mut [u8]) -> usize
    ensures { result ≤ length text.new }
{
    let mut cursor = Cursor::new(&mut text[..]);
    let _ = write!(cursor, "{reason}");
    let put = cursor.position() as usize;
    put.min(text.len())
}

// Where " (os error NUMBER)" begins, which std puts behind the system's words.
fn words_end(text: &[u8]) -> usize
    ensures { result ≤ length text.now }
{
    match text.iter().rposition(|b| *b == b'(') {
        Some(at) => at.saturating_sub(1),
        None => text.len(),
    }
}

// Words on standard error. One write that failed keeps none of those behind it from being tried.
pub fn say(rt: &HostRuntime, words: &[u8]) {
    let _ = rt.stderr().write_all(words);
}

// A line: what failed, a colon and the reason, in the system's words where it is the system's.
pub fn fail(rt: &HostRuntime, what: &[u8], reason: io::Error) {
    let mut text = [0u8; 256];
    let put = put_reason(reason, &mut text);
    let end = if reason.raw_os_error().is_some() {
        words_end(&text[..put])
    } else {
        put
    };
    say(rt, what);
    say(rt, b": ");
    say(rt, &text[..end]);
    say(rt, b"\n");
}
