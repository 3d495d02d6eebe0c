// What a judgment is, and the single checks that the judgments are made of, each with what the paper says of it. Everything is lent by &.
#![tactic(auto)]

ghost use Rattle.std.specs.Prelude.{◌≡◌, ◌≤◌, ltb, length};
ghost use Rattle.rules.specs.Answers.{◌then◌, need, unseen, free_entry, free_words};
ghost use Rattle.rules.specs.Answers as paper;
ghost use Rattle.rules.specs.declared.Fault.TheVariants.{Id};
ghost use Rattle.rules.proofs.Propagation.{Stopped};
ghost use Rattle.table.specs.Spelled.{Fit, Rising, held_rows, spelled};
ghost use Rattle.judge_checks.specs.Located.{LocatedIn, NamedIn};

use rules::{Check, Fault, Verdict};
use table::{Row, Table};

// What a frame's checks come to: the row of the held clause that it names, 0 where it names none; or the fault.
pub type Judged = Result<usize, Fault>;

// 4: the row of the clause of this id in this place.
pub fn locate(rows: &[Row], t: Table, place: u32, id: u32) -> Option<usize>
    requires { (t.count ≤ length rows.now) × Rising (held_rows t rows.now) }
    ensures { LocatedIn t rows.now place id result }
{
    let n = t.count as usize;
    let k = table::find(&rows[..n], id)?;
    if table::place_at(rows, k) == place {
        return Some(k);
    }
    None
}

// The same, as a frame asks for it that names the clause: 4 where it is not there.
pub fn named(rows: &[Row], t: Table, place: u32, id: u32) -> Judged
    requires { (t.count ≤ length rows.now) × Rising (held_rows t rows.now) }
    ensures { NamedIn t rows.now place id result }
{
    locate(rows, t, place, id).ok_or(Fault::Id(id))
}

// 3, then 4: a clause under a new id, where `at` is the index of its first literal.
pub fn new_clause(t: Table, id: u32, c: &[i32], at: usize) -> Check
    requires { (t.vars ≤ 2048) × (at ≤ 4096) × (length c.now ≤ 4096) }
    ensures { result ≡ (paper.flaw t.vars unseen at c.now then need (ltb t.highest id) (Id id)) }
{
    lit_clause::flaw(t.vars as usize, c, at)?;
    if id <= t.highest {
        return Err(Fault::Id(id));
    }
    Ok(())
}

// 7 and 8: `at` is the index of the first hint, `d` the detail of 8.
pub fn decided(verdict: Verdict, at: usize, d: u32) -> Check
    requires { (at ≤ 4096) × Stopped 4096 verdict }
    ensures { result ≡ paper.decided at d verdict }
{
    match verdict {
        Verdict::Proved(_) => Ok(()),
        Verdict::BadHint(n) => Err(Fault::Hint(at + n)),
        Verdict::UsedUp => Err(Fault::Unproved(d)),
    }
}

// 12, then 13: room for a clause of n literals, by the counts alone.
pub fn free(rows: &[Row], pool: &[i32], stack: &[u32], t: Table, n: usize) -> Check
    requires { Fit t rows.now pool.now stack.now × (n ≤ 256) }
    ensures { result ≡ (free_entry (spelled t rows.now pool.now stack.now)
        then free_words (spelled t rows.now pool.now stack.now) n) }
{
    let count = t.count as usize;
    let most = t.entries as usize + t.gone as usize;
    let words = t.words as usize + n;
    if most <= count {
        return Err(Fault::NoEntry);
    }
    if pool.len() < words {
        return Err(Fault::NoWords);
    }
    Ok(())
}
