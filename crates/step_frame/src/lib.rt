// From the words of a frame to what its first words say: refusal 2.
#![tactic(auto)]

ghost use Rattle.std.specs.Prelude.{◌≡◌, ◌-◌, ◌≤◌, ◌<◌, length, get_or};
ghost use Rattle.rules.specs.Frames.{word, number, least_words};
ghost use Rattle.rules.specs.Frames as paper;
ghost use Rattle.step_frame.specs.Head.{CountsWords, Reads, row, pair};

// The operation, its id, and the length of its list.
#[derive(Clone, Copy)]
pub enum Head {
    Add(u32),
    Learn(u32, usize),
    Forget(u32),
    Promote(u32),
    Drop(u32),
    Weaken(u32, usize),
    Restore(u32),
    Sat(usize),
    Unsat(usize),
}

// The least word counts of the operations 1 to 9. An operation is a number till its head is read, which is an enum.
const LEAST_WORDS: [usize; 9] = [2, 3, 2, 2, 2, 3, 2, 2, 2];

fn least_words(op: usize) -> usize
    requires { (1 ≤ op) × (op ≤ 9) }
    ensures { result ≡ get_or least_words (op - 1) 0 }
{
    LEAST_WORDS[op - 1]
}

fn number_at(frame: &[i32], at: usize) -> usize
    requires { at < length frame.now }
    ensures { (result ≡ number (word frame.now at)) × (result ≤ 2147483647) }
{
    lit::number(frame[at])
}

// The word at `at` as a count, from `least` to 256, of the words behind it.
fn count_at(frame: &[i32], at: usize, least: usize) -> Option<usize>
    requires { at < length frame.now }
    ensures { CountsWords least frame.now at result }
{
    if !lit::is_not_negative(frame[at]) {
        return None;
    }
    let n = number_at(frame, at);
    if n < least {
        return None;
    }
    if 256 < n {
        return None;
    }
    if frame.len() - (at + 1) < n {
        return None;
    }
    Some(n)
}

// FORGET, PROMOTE and RESTORE have exactly 2 words.
fn pair_head(n: usize, head: Head) -> Option<Head>
    ensures { result ≡ pair n head }
{
    if n == 2 { Some(head) } else { None }
}

// Operations 1 to 7: word 1 is an id.
fn named_head(frame: &[i32], op: usize, id: u32) -> Option<Head>
    requires { (1 ≤ op) × (op ≤ 7) × (get_or least_words (op - 1) 0 ≤ length frame.now) × (length frame.now ≤ 4096) × (0 < id)
        × (id ≡ number (word frame.now 1)) × (id ≤ 2147483647) }
    ensures { Reads (row op frame.now) frame.now result }
{
    let n = frame.len();
    match op {
        1 => if n <= 258 { Some(Head::Add(id)) } else { None },
        2 => Some(Head::Learn(id, count_at(frame, 2, 0)?)),
        3 => pair_head(n, Head::Forget(id)),
        4 => pair_head(n, Head::Promote(id)),
        5 => Some(Head::Drop(id)),
        6 => Some(Head::Weaken(id, count_at(frame, 2, 1)?)),
        _ => pair_head(n, Head::Restore(id)),
    }
}

// Operations 8 and 9: word 1 counts the assumptions.
fn assuming_head(frame: &[i32], op: usize) -> Option<Head>
    requires { (8 ≤ op) × (op ≤ 9) × (2 ≤ length frame.now) × (length frame.now ≤ 4096) }
    ensures { Reads (row op frame.now) frame.now result }
{
    let k = count_at(frame, 1, 0)?;
    if op == 8 {
        Some(Head::Sat(k))
    } else {
        Some(Head::Unsat(k))
    }
}

// What the words' head says; None where they are malformed.
pub fn parse(frame: &[i32]) -> Option<Head>
    ensures { Reads (paper.parse frame.now) frame.now result }
{
    let n = frame.len();
    if n == 0 {
        return None;
    }
    if 4096 < n {
        return None;
    }
    let op = number_at(frame, 0);
    if op == 0 {
        return None;
    }
    if 9 < op {
        return None;
    }
    if n < least_words(op) {
        return None;
    }
    if 7 < op {
        return assuming_head(frame, op);
    }
    let id = number_at(frame, 1);
    if id == 0 {
        return None;
    }
    named_head(frame, op, id as u32)
}
