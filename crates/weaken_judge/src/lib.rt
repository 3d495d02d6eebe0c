// WEAKEN's judgment: the witness, the clause, the room, then the groups. Everything is lent by &, so that a refusal cannot write.
#![tactic(auto)]

ghost use Rattle.std.specs.Prelude.{◌+◌, ◌≤◌, length};
ghost use Rattle.rules.specs.Frames.{WEAKEN};
ghost use Rattle.table.specs.Spelled.{Fit};
ghost use Rattle.judge_checks.specs.Judged.{Judges};

use judge_checks::Judged;
use rules::Fault;
use table::{Row, Table};

pub fn judge_weaken(
    rows: &[Row],
    pool: &[i32],
    stack: &[u32],
    t: Table,
    id: u32,
    witness: &[i32],
    groups: &[i32],
) -> Judged
    requires { Fit t rows.now pool.now stack.now × (length witness.now ≤ 256) × (3 + length witness.now + length groups.now ≤ 4096) }
    ensures { Judges t rows.now pool.now stack.now (WEAKEN id witness.now groups.now) result }
{
    lit_clause::flaw(t.vars as usize, witness, 3)?;
    let k = judge_checks::named(rows, t, 0, id)?;
    let c = table::clause_of(rows, pool, k);
    let set = lit_clause::mark(witness);
    let shared = lit_clause::shares(c, &set);
    let words = t.words as usize + witness.len();
    if !shared {
        return Err(Fault::NoWitness);
    }
    if pool.len() < words {
        return Err(Fault::NoWords);
    }
    let n = t.count as usize;
    let from = 3 + witness.len();
    weaken_groups::all_groups(&rows[..n], pool, id, c, &set, groups, from)?;
    Ok(k)
}
