// Clauses and witnesses as lists of words: the checks that ask for no table, and what a clause is under a set of literals.
#![tactic(auto)]

ghost use Rattle.std.specs.Prelude.{◌≡◌, true, ◌≤◌, length};
ghost use Rattle.rules.specs.Lists.{any_passes, all_pass};
ghost use Rattle.rules.specs.Terms.{in_range, holds, opposes, sat};
ghost use Rattle.rules.specs.Answers.{unseen};
ghost use Rattle.rules.specs.Answers as paper;
ghost use Rattle.lit_sets.specs.Words.{assigned, literals};

use lit_sets::LitSet;
use rules::{Check, Fault};

// ---- refusal 3: the index of the first faulty word, where `at` is the index of the first

// A clause or a witness: every word a literal, no variable twice.
pub fn flaw(vars: usize, c: &[i32], at: usize) -> Check
    requires { (vars ≤ 2048) × (at ≤ 4096) × (length c.now ≤ 4096) }
    ensures { result ≡ paper.flaw vars unseen at c.now }
{
    let mut seen = [0u64; 32];
    for (i, &l) in c.iter().enumerate() {
        let index = at + i;
        if !lit::in_range(vars, l) {
            return Err(Fault::Literal(index));
        }
        let v = lit::variable(l);
        if lit_sets::value(&seen, v) {
            return Err(Fault::Literal(index));
        }
        lit_sets::set_to(&mut seen, v, true);
    }
    Ok(())
}

// Assumptions: every word a literal.
pub fn ranged(vars: usize, c: &[i32], at: usize) -> Check
    requires { (vars ≤ 2048) × (at ≤ 4096) × (length c.now ≤ 4096) }
    ensures { result ≡ paper.ranged vars at c.now }
{
    for (i, &l) in c.iter().enumerate() {
        if !lit::in_range(vars, l) {
            return Err(Fault::Literal(at + i));
        }
    }
    Ok(())
}

// True variables, rising. A negative word counts as 0, which is above nothing.
pub fn ascending(vars: usize, vs: &[i32], at: usize) -> Check
    requires { (vars ≤ 2048) × (at ≤ 4096) × (length vs.now ≤ 4096) }
    ensures { result ≡ paper.ascending vars 0 at vs.now }
{
    let mut last: usize = 0;
    for (i, &x) in vs.iter().enumerate() {
        let index = at + i;
        if !lit::in_range(vars, x) {
            return Err(Fault::Literal(index));
        }
        let v = lit::number(x);
        if v <= last {
            return Err(Fault::Literal(index));
        }
        last = v;
    }
    Ok(())
}

// ---- a clause against a set of literals, and under an assignment

// The set of the literals of a list.
pub fn mark(c: &[i32]) -> LitSet
    requires { all_pass (in_range 2048) c.now ≡ true }
    ensures { literals result ≡ holds c.now }
{
    let mut set = LitSet::empty();
    for &l in c {
        set.insert(l);
    }
    set
}

// A literal of the list is in the set.
pub fn shares(c: &[i32], set: &LitSet) -> bool
    requires { all_pass (in_range 2048) c.now ≡ true }
    ensures { result ≡ any_passes (literals set.now) c.now }
{
    for &l in c {
        if set.has(l) {
            return true;
        }
    }
    false
}

// The opposite of a literal of the list is in the set.
pub fn opposed(c: &[i32], set: &LitSet) -> bool
    requires { all_pass (in_range 2048) c.now ≡ true }
    ensures { result ≡ any_passes (opposes (literals set.now)) c.now }
{
    for &l in c {
        if set.has_opposite(l) {
            return true;
        }
    }
    false
}

// The clause holds a true literal.
pub fn satisfied(c: &[i32], words: &[u64; 32]) -> bool
    requires { all_pass (in_range 2048) c.now ≡ true }
    ensures { result ≡ sat (assigned words.now) c.now }
{
    for &l in c {
        if lit_sets::is_true(words, l) {
            return true;
        }
    }
    false
}
