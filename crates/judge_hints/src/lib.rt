// What hints prove of a target: its literals are made false, and propagation does the rest.
#![tactic(auto)]

ghost use Rattle.std.specs.Prelude.{◌≡◌, true, not, map, neg_ℤ};
ghost use Rattle.rules.specs.Lists.{all_pass, only};
ghost use Rattle.rules.specs.Terms.{in_range, opposes};
ghost use Rattle.rules.specs.Frames.{target};
ghost use Rattle.rules.specs.Propagation as paper;
ghost use Rattle.lit_sets.specs.Words.{literals};
ghost use Rattle.table.specs.Spelled.{Readable};
ghost use Rattle.judge_propagate.specs.Scope.{allowed_of};
ghost use Rattle.judge_hints.specs.Target.{verdict_on, made_of, make_false, none_false};

use judge_propagate::Scope;
use lit_sets::LitSet;
use rules::Verdict;
use table::Row;

// The literals of c become false too, less the opposites of those of the witness: None where a literal and its opposite would be.
fn make_false(mut falses: LitSet, c: &[i32], witness: &LitSet) -> Option<LitSet>
    requires { all_pass (in_range 2048) c.now ≡ true }
    ensures { made_of result ≡ make_false (made_of (Some falses)) (only (λ l. not (opposes (literals witness.now) l)) c.now) }
{
    for &l in c {
        if witness.has_opposite(l) {
            continue;
        }
        if falses.has_opposite(l) {
            return None;
        }
        falses.insert(l);
    }
    Some(falses)
}

// The whole of c.
fn falses_of(c: &[i32]) -> Option<LitSet>
    requires { all_pass (in_range 2048) c.now ≡ true }
    ensures { made_of result ≡ make_false none_false c.now }
{
    let nothing = LitSet::empty();
    make_false(nothing, c, &nothing)
}

// What the hints prove of a target made false.
fn judge(rows: &[Row], pool: &[i32], scope: Scope, made: Option<LitSet>, hints: &[i32]) -> Verdict
    requires { Readable rows.now pool.now }
    ensures { result ≡ verdict_on (allowed_of scope pool.now rows.now) (made_of made) hints.now }
{
    let Some(falses) = made else {
        return Verdict::Proved(0);
    };
    judge_propagate::propagate(rows, pool, scope, hints, falses).verdict
}

pub fn proves(rows: &[Row], pool: &[i32], scope: Scope, target: &[i32], hints: &[i32]) -> Verdict
    requires { Readable rows.now pool.now × (all_pass (in_range 2048) target.now ≡ true) }
    ensures { result ≡ paper.proves (allowed_of scope pool.now rows.now) target.now hints.now }
{
    judge(rows, pool, scope, falses_of(target), hints)
}

// The target of a group: c together with d less the opposites of the witness. It is not built in memory.
pub fn proves_with(
    rows: &[Row],
    pool: &[i32],
    scope: Scope,
    c: &[i32],
    d: &[i32],
    witness: &LitSet,
    hints: &[i32],
) -> Verdict
    requires { Readable rows.now pool.now × (all_pass (in_range 2048) c.now ≡ true) × (all_pass (in_range 2048) d.now ≡ true) }
    ensures { result ≡ paper.proves (allowed_of scope pool.now rows.now)
        (target c.now (literals witness.now) d.now) hints.now }
{
    let Some(of_c) = falses_of(c) else {
        return Verdict::Proved(0);
    };
    judge(rows, pool, scope, make_false(of_c, d, witness), hints)
}

// The target of UNSAT: the opposites of the assumptions.
pub fn refutes(rows: &[Row], pool: &[i32], scope: Scope, assumed: &[i32], hints: &[i32]) -> Verdict
    requires { Readable rows.now pool.now × (all_pass (in_range 2048) assumed.now ≡ true) }
    ensures { result ≡ paper.proves (allowed_of scope pool.now rows.now) (map neg_ℤ assumed.now) hints.now }
{
    let Some(same) = falses_of(assumed) else {
        return Verdict::Proved(0);
    };
    judge(rows, pool, scope, Some(same.opposites()), hints)
}
