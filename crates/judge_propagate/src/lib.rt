// Propagation by hints. The false literals are a set: the literals whose opposites are true.
#![tactic(auto)]

ghost use Rattle.std.specs.Prelude.{◌≡◌, true};
ghost use Rattle.rules.specs.Lists.{all_pass};
ghost use Rattle.rules.specs.Terms.{in_range};
ghost use Rattle.rules.specs.Propagation.{read, run};
ghost use Rattle.lit_sets.specs.Words.{literals};
ghost use Rattle.table.specs.Spelled.{Readable, Rising};
ghost use Rattle.judge_propagate.specs.Look.{HintRead};
ghost use Rattle.judge_propagate.specs.Scope.{Picked, Positive, all_clauses, allowed_of, irredundant_but, run_of};

use lit_sets::LitSet;
use rules::Verdict;
use table::Row;

// The allowed set: the clauses whose place is below `places`, but for one id.
#[derive(Clone, Copy)]
pub struct Scope {
    pub places: u32,
    pub except: u32,
}

// LEARN's and UNSAT's: the clauses of all three places. No clause has the id 0.
pub fn all_clauses() -> Scope
    ensures { result ≡ all_clauses }
{
    Scope {
        places: 3,
        except: 0,
    }
}

// DROP's, and that of WEAKEN's groups: the irredundant clauses other than that of the id.
pub fn irredundant_but(id: u32) -> Scope
    ensures { result ≡ irredundant_but id }
{
    Scope {
        places: 1,
        except: id,
    }
}

// The row of the allowed clause that a hint names. A negative word is 0 as a number, and no row has the id 0.
fn pick(rows: &[Row], scope: Scope, hint: i32) -> Option<usize>
    requires { Rising rows.now × Positive rows.now }
    ensures { Picked rows.now scope hint result }
{
    let k = table::find(rows, lit::number(hint) as u32)?;
    if table::place_at(rows, k) < scope.places && table::id_at(rows, k) != scope.except {
        return Some(k);
    }
    None
}

// What the clause of a hint does under the false literals: it is false; or it forces its one open literal, whose opposite is false then; or it is a bad hint.
#[derive(Clone, Copy)]
pub enum Looked {
    Conflict,
    Forced,
    Bad,
}

// One hint, read by its clause, for the checker of proofs, whose hints come one by one. It is not `propagate`'s: document 01 names the form of that scan.
pub fn look(clause: &[i32], falses: &mut LitSet) -> Looked
    requires { all_pass (in_range 2048) clause.now ≡ true }
    ensures { HintRead (read (literals falses.old) clause.now) (literals falses.old) result (literals falses.new) }
{
    let mut open: Option<i32> = None;
    for &literal in clause {
        if falses.has(literal) {
            continue;
        }
        if open.is_some() || falses.has_opposite(literal) {
            return Looked::Bad;
        }
        open = Some(literal);
    }
    let Some(unit) = open else {
        return Looked::Conflict;
    };
    falses.insert(lit::opposite(unit));
    Looked::Forced
}

// How propagation ended, and which literals were false then.
#[derive(Clone, Copy)]
pub struct Propagated {
    pub verdict: Verdict,
    pub falses: LitSet,
}

// Read the hints in order, until one of them decides.
pub fn propagate(
    rows: &[Row],
    pool: &[i32],
    scope: Scope,
    hints: &[i32],
    mut falses: LitSet,
) -> Propagated
    requires { Readable rows.now pool.now }
    ensures { run_of result ≡ run (allowed_of scope pool.now rows.now) (literals falses) 0 hints.now }
{
    let mut verdict = Verdict::UsedUp;
    'hints: for (h, &hint) in hints.iter().enumerate() {
        let Some(k) = pick(rows, scope, hint) else {
            verdict = Verdict::BadHint(h);
            break 'hints;
        };
        let clause = table::clause_of(rows, pool, k);
        let mut open: Option<i32> = None;
        for &l in clause {
            if falses.has(l) {
                continue;
            }
            if open.is_some() || falses.has_opposite(l) {
                verdict = Verdict::BadHint(h);
                break 'hints;
            }
            open = Some(l);
        }
        let Some(forced) = open else {
            verdict = Verdict::Proved(h + 1);
            break 'hints;
        };
        falses.insert(lit::opposite(forced));
    }
    Propagated { verdict, falses }
}
