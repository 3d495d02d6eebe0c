// WEAKEN's groups of hints: each other irredundant clause that the witness may break needs one. Everything is lent by &, so that a refusal cannot write.
#![tactic(auto)]

ghost use Rattle.std.specs.Prelude.{◌≡◌, true, ◌+◌, ◌≤◌, ◌<◌, length};
ghost use Rattle.rules.specs.Lists.{all_pass, only};
ghost use Rattle.rules.specs.Terms.{in_range};
ghost use Rattle.rules.specs.Propagation.{among};
ghost use Rattle.rules.specs.Frames.{needs_group};
ghost use Rattle.rules.specs.Answers as paper;
ghost use Rattle.lit_sets.specs.Words.{literals};
ghost use Rattle.table.specs.Spelled.{Readable, held, row_at};
ghost use Rattle.weaken_groups.specs.Groups.{Grouped, Headed, is_due, others};

use lit_sets::LitSet;
use rules::{Check, Fault};
use table::Row;

// The row is that of another irredundant clause than that of the id, and it holds the opposite of a literal of the witness and no literal of it.
fn needs_group(rows: &[Row], pool: &[i32], id: u32, d: usize, witness: &LitSet) -> bool
    requires { Readable rows.now pool.now × (d < length rows.now) }
    ensures { result ≡ is_due id pool.now (literals witness.now) (row_at rows.now d) }
{
    if table::place_at(rows, d) != 0 {
        return false;
    }
    if table::id_at(rows, d) == id {
        return false;
    }
    let lits = table::clause_of(rows, pool, d);
    if !lit_clause::opposed(lits, witness) {
        return false;
    }
    !lit_clause::shares(lits, witness)
}

// 9: the header, at word `at` of the groups, of the group of the clause whose id is due: its id, k, and room for k hints. The word at which these end.
fn header(groups: &[i32], at: usize, from: usize, due: u32) -> Result<usize, Fault>
    requires { (at ≤ length groups.now) × (from + length groups.now ≤ 4096) }
    ensures { Headed from groups.now at due result }
{
    let n = groups.len();
    if at == n {
        return Err(Fault::Group(from + at));
    }
    if !lit::names(groups[at], due) {
        return Err(Fault::Group(from + at));
    }
    let next = at + 1;
    if next == n {
        return Err(Fault::Group(from + next));
    }
    let k = groups[next];
    if !lit::is_not_negative(k) {
        return Err(Fault::Group(from + next));
    }
    let hints = at + 2;
    let count = lit::number(k);
    if n - hints < count {
        return Err(Fault::Group(from + next));
    }
    Ok(hints + count)
}

// 9, 7 and 8: the group of row d at word `at` of the groups, which start at word `from` of the frame. The allowed set is the irredundant clauses other
// than c, which has the id.
fn group(
    rows: &[Row],
    pool: &[i32],
    id: u32,
    c: &[i32],
    d: usize,
    witness: &LitSet,
    groups: &[i32],
    at: usize,
    from: usize,
) -> Result<usize, Fault>
    requires { Readable rows.now pool.now × (all_pass (in_range 2048) c.now ≡ true) × (d < length rows.now) × (at ≤ length groups.now)
        × (from + length groups.now ≤ 4096) }
    ensures { Grouped (among (others id pool.now rows.now)) c.now
        (literals witness.now) from groups.now
        (held pool.now (row_at rows.now d)) at result }
{
    let due = table::id_at(rows, d);
    let end = header(groups, at, from, due)?;
    let scope = judge_propagate::irredundant_but(id);
    let start = at + 2;
    let lits = table::clause_of(rows, pool, d);
    let verdict = judge_hints::proves_with(
        rows,
        pool,
        scope,
        c,
        lits,
        witness,
        &groups[start..end],
    );
    judge_checks::decided(verdict, from + start, due)?;
    Ok(end)
}

// The groups, by rising id, then 9 for words left over.
pub fn all_groups(
    rows: &[Row],
    pool: &[i32],
    id: u32,
    c: &[i32],
    witness: &LitSet,
    groups: &[i32],
    from: usize,
) -> Check
    requires { Readable rows.now pool.now × (all_pass (in_range 2048) c.now ≡ true) × (from + length groups.now ≤ 4096) }
    ensures { result ≡ paper.groups (among (others id pool.now rows.now)) c.now
        (literals witness.now)
        (only (needs_group (literals witness.now)) (others id pool.now rows.now))
        from groups.now }
{
    let mut at: usize = 0;
    for d in 0..rows.len() {
        if needs_group(rows, pool, id, d, witness) {
            at = group(rows, pool, id, c, d, witness, groups, at, from)?;
        }
    }
    if at < groups.len() {
        return Err(Fault::Group(from + at));
    }
    Ok(())
}
