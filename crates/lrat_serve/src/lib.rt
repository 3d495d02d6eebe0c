// A proof read in parts and fed as it comes, against rules that fill tables of this call's own: of a proof of any length only a part is in memory.
#![tactic(auto)]

ghost use Rattle.std.specs.Prelude.{◌≡◌, ◌≤◌, List, ℕ, length};
ghost use Rattle.table.specs.Spelled.{Fit, spelled};
ghost use Rattle.lrat_feed.specs.Feeding.{Feedable, Feeds, session_of};
ghost use Rattle.lrat_serve.specs.Serving.{Tells, Serves, onward, concluded};

use dimacs::TextFault;
use lit_sets::LitSet;
use lrat::{LratAnswer, ProofReader};
use lrat_feed::Fed;
use lrat_fill::Unfilled;
use std::fs::File;
use std::io;
use std::io::{Read, Write};
use table::{Row, Table};

// Stays an enum of its own: two of the four are no errors, and each has its own promise.
// What checking came to: the rules have a fault; the answer is known, whatever stands behind what was read of the proof; it is that of a proof read to its
// end; or a read failed, for this reason, and there is none.
#[derive(Clone, Copy)]
pub enum Checked {
    Faulty(TextFault),
    Known(LratAnswer),
    Ended(LratAnswer),
    Unread(io::Error),
}

// ---- progress, on a terminal where there is one

// Shows how far the proof is read each time that its bytes come past a multiple of 4 MiB, over what was shown before.
fn show(terminal: &mut Option<File>, before: u64, read: u64, lines: u64) {
    if before / 4194304 < read / 4194304 {
        if let Some(shown) = terminal {
            let _ = write!(shown, "\r{read} bytes, {lines} lines");
        }
    }
}

// What was shown goes, so that the verdict stands alone.
fn clear(terminal: &mut Option<File>, read: u64) {
    if 4194304 <= read {
        if let Some(shown) = terminal {
            let _ = shown.write_all(
                b"\r                                                            \r",
            );
        }
    }
}

// ---- the proof

// One part more, or the end of the proof where it has no byte.
fn feed_on(
    part: &[u8],
    rows: &mut [Row],
    pool: &mut [i32],
    stack: &[u32],
    t: Table,
    r: ProofReader,
    lits: &mut [i32],
    falses: &mut LitSet,
) -> Fed
    requires { Feedable t rows.old pool.old stack.now r lits.old }
    ensures { Feeds (onward (session_of r lits.old falses.old.plus falses.old.minus
        (spelled t rows.old pool.old stack.now)) part.now)
        result rows.new pool.new stack.now lits.new falses.new.plus falses.new.minus }
{
    if part.len() == 0 {
        return lrat_feed::finish(rows, pool, stack, t, r, lits, falses);
    }
    lrat_feed::feed(part, rows, pool, stack, t, r, lits, falses)
}

// The answer where there is one: it was known before the end, or at it.
fn conclude(ended: bool, r: ProofReader, failure: io::Error) -> Checked
    ensures { result ≡ concluded ended r failure }
{
    if !r.over {
        return Checked::Unread(failure);
    }
    let answer = lrat_feed::told(r);
    if ended {
        return Checked::Ended(answer);
    }
    Checked::Known(answer)
}

// Reads a proof in parts of 64 KiB, to its end or until its answer is known. No file has 2^63 bytes.
fn check<R: Read>(
    proof: &mut R,
    terminal: &mut Option<File>,
    rows: &mut [Row],
    pool: &mut [i32],
    stack: &[u32],
    t: Table,
) -> Checked
    requires { Fit t rows.old pool.old stack.now }
    ensures { (bs : List ℕ) × Tells (spelled t rows.old pool.old stack.now) bs result }
{
    let mut buf = [0u8; 65536];
    let mut lits = [0i32; 256];
    let mut falses = LitSet::empty();
    let mut table = t;
    let mut reader = lrat_feed::start();
    let mut ended = false;
    let mut failure = io::Error::from(io::ErrorKind::FileTooLarge);
    let mut read: u64 = 0;
    // Stays a `while`: the step is as long as the read was.
    while read < 9223372036854775808 {
        let n = match proof.read(&mut buf) {
            Ok(n) => n,
            Err(reason) => {
                failure = reason;
                break;
            }
        };
        let fed = feed_on(
            &buf[..n],
            rows,
            pool,
            stack,
            table,
            reader,
            &mut lits,
            &mut falses,
        );
        table = fed.table;
        reader = fed.reader;
        if reader.over {
            ended = n == 0;
            break;
        }
        let before = read;
        read += n as u64;
        show(terminal, before, read, reader.lines);
    }
    clear(terminal, read);
    conclude(ended, reader, failure)
}

// ---- the rules and the proof

// Checks a proof that is read against rules as a text of any bytes, in tables of 1,024 entries and 8,192 words.
pub fn serve<R: Read>(rules: &[u8], proof: &mut R, terminal: &mut Option<File>) -> Checked
    ensures { (bs : List ℕ) × Serves rules.now bs result }
{
    // more rows than entries, so that those of deleted clauses need not be closed up at once
    let mut rows = [[0u32; 5]; 1280];
    let mut pool = [0i32; 8192];
    let stack = [0u32; 1024];
    match lrat_fill::fill(rules, &mut rows, &mut pool, &stack, 1024) {
        Ok(t) => check(proof, terminal, &mut rows, &mut pool, &stack, t),
        Err(Unfilled::Faulty(f)) => Checked::Faulty(f),
        Err(Unfilled::Full(code, _)) => Checked::Known(LratAnswer { code, detail: 0 }),
    }
}
