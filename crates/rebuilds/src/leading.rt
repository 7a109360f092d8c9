// The clauses up to the first that changes. They differ from each other, and the target has no others, so each is added as it stands,
// without a stamp. In most steps these are most clauses.
ghost use Rattle.std.specs.Prelude.{◌≡◌, ℕ, true, List, Some, take};
ghost use Rattle.meaning.specs.Formula.{Formula};
ghost use Rattle.table.specs.Table.{decode, Holds, Held};
ghost use Rattle.filter.specs.Filter.{Covers, CoversBut};
ghost use Rattle.recipes.specs.Recipe.{Ready};
ghost use Rattle.recipes.specs.Left.{about, Shrunk};
ghost use Rattle.rebuilds.specs.Lead.{Led};

use recipes::{Turn, Which, is_left, is_taken};
use table::{Counts, Ranks, clause_at, push_clause};

// The clauses up to the first that changes: which one that is, and the record of the target then. None is copied where the target has
// clauses already. No answer: the target is full.
pub fn copy_lead(
    source: &[u16],
    c: Counts,
    target: &mut [u16],
    d: Counts,
    v: u16,
    which: Which,
    turn: Turn,
    ranks: &Ranks,
) -> Option<(usize, Counts)>
    requires held { Held source.now c }
    requires held_target { Held target.old d }
    requires ready { Ready (take d.variables target.old) ranks.now }
    requires shrunk { Shrunk v (take d.variables target.old) (decode source.now c) × (about turn v ≡ true) }
    ensures led { (φ ψ : Formula) → Holds φ source.now c → Holds ψ target.old d → Led which turn φ.clauses ψ d.second result target.new }
    ensures covers_after { (i : ℕ) (e : Counts) (f : List ℕ) → result ≡ Some (i, e) → Covers target.old d f → CoversBut (take i (decode source.now c).clauses) target.new e f }
{
    if 0 < d.clauses {
        return Some((0, d));
    }
    let mut e = d;
    for i in 0..c.clauses {
        let clause = clause_at(source, c, i);
        if !is_taken(which, ranks, i, clause) {
            continue;
        }
        if !is_left(turn, v, i, clause) {
            return Some((i, e));
        }
        let next = push_clause(target, e, clause)?;
        // Kept: field by field. Taken over whole, the record is read before all of it is written, and the loop waits.
        e = Counts {
            variables: next.variables,
            clauses: next.clauses,
            literals: next.literals,
            second: next.second,
        };
    }
    Some((c.clauses, e))
}
