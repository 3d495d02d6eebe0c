// Small writers, and one search, over lent slices. Nothing here knows of clauses or tables.
#![tactic(auto)]

ghost use Rattle.std.specs.Prelude.{◌≡◌, ◌+◌, ◌-◌, ◌<◌, ◌≤◌, length, get_or};
ghost use Rattle.table_slices.specs.Writes.{Among, Unmet, closed, over, written};

// The literals over the first words of the tail.
pub fn write_literals(tail: &mut [i32], lits: &[i32])
    requires { length lits.now ≤ length tail.old }
    ensures { tail.new ≡ over tail.old lits.now }
{
    // A loop: the library's `copy_from_slice` calls `memmove`, which an archive for C would then need from outside.
    for (i, &l) in lits.iter().enumerate() {
        tail[i] = l;
    }
}

// The literals, and the witness behind them, over the words of the pool from `at` on.
pub fn write_both(pool: &mut [i32], at: usize, lits: &[i32], witness: &[i32])
    requires { at + (length lits.now + length witness.now) ≤ length pool.old }
    ensures { pool.new ≡ written (written pool.old at lits.now) (at + length lits.now)
        witness.now }
{
    let end = at + lits.len();
    write_literals(&mut pool[at..], lits);
    write_literals(&mut pool[end..], witness);
}

// Of the first n ids of the stack, those behind `at` move one place down.
pub fn close_stack(stack: &mut [u32], n: usize, at: usize)
    requires { (n ≤ length stack.old) × (at < n) }
    ensures { stack.new ≡ closed stack.old at (n - 1) }
{
    stack.copy_within(at + 1..n, at);
}

// Where the id stands among the first n of the stack, the last such place: it does stand there, so the search from the top ends at it.
pub fn position(stack: &[u32], n: usize, id: u32) -> usize
    requires { (n ≤ length stack.now) × Among stack.now n id }
    ensures { (result < n) × (get_or stack.now result 0 ≡ id) × Unmet stack.now id result n }
{
    stack[..n].iter().rposition(|x| *x == id).unwrap()
}

// The words, over all of a buffer of 32.
pub fn write_words(buffer: &mut [u64], words: [u64; 32])
    requires { length buffer.old ≡ 32 }
    ensures { buffer.new ≡ words }
{
    buffer.copy_from_slice(&words);
}
