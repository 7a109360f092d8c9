// What is too far right for an existential to be resolved: the lowest clause with it that has such a variable, and the leftmost of those.
ghost use Rattle.std.specs.Prelude.{◌≡◌, ℕ, true, List, drop};
ghost use Rattle.meaning.specs.Formula.{Formula, mentions};
ghost use Rattle.meaning.specs.WellFormed.{bound, well_formed};
ghost use Rattle.rules.specs.Eliminate.{from_universal};
ghost use Rattle.rules.specs.Simplify.{clause_at};
ghost use Rattle.table.specs.Table.{Holds, Held};
ghost use Rattle.table.specs.Ranks.{ranks_of, good_entries};
ghost use Rattle.reasons.specs.Reason.{far_part, reaches_far, far_clause, leftmost_in, far_variable, universal_after};
ghost use Rattle.reasoning.specs.declared.Why.{Why};
ghost use Rattle.reasoning.specs.declared.Why.TheVariants as why;

use crate::Why;
use crate::behind::universal_after;
use permits::{first_universal, has_variable, is_within, place_of};
use table::{Counts, Ranks, clause_at};

// Whether the clause has x, and a variable behind place n.
fn reaches_far(clause: &[u16], ranks: &Ranks, x: usize, n: usize) -> bool
    ensures { (p : List ℕ) → ranks.now ≡ ranks_of p → good_entries p ≡ true → bound p clause.now ≡ true → result ≡ reaches_far (drop n p) x clause.now }
{
    has_variable(clause, x) && !is_within(clause, ranks, n)
}

// The lowest clause that does; how many there are, if none does.
// Kept: a number and no Option, since the definition names that number.
fn far_clause(t: &[u16], c: Counts, ranks: &Ranks, x: usize, n: usize) -> usize
    requires held { Held t.now c }
    ensures { (φ : Formula) → Holds φ t.now c → well_formed φ ≡ true → ranks.now ≡ ranks_of φ.prefix → far_part φ x ≡ drop n φ.prefix → result ≡ far_clause φ x }
{
    for i in 0..c.clauses {
        if reaches_far(clause_at(t, c, i), ranks, x, n) {
            return i;
        }
    }
    c.clauses
}

// The leftmost variable of the clause behind n entries; 0 where there is none.
// Kept: a number and no Option, since the definition gives 0.
fn leftmost_behind(prefix: &[u16], n: usize, clause: &[u16]) -> usize
    ensures { result ≡ leftmost_in (drop n prefix.now) clause.now }
{
    let first = prefix
        .iter()
        .skip(n)
        .find(|q| has_variable(clause, (**q / 2) as usize));
    (first.copied().unwrap_or(0) / 2) as usize
}

// The leftmost variable of clause i behind n entries; 0 where there is none. Kept: the same.
fn far_variable(t: &[u16], c: Counts, n: usize, i: usize) -> usize
    requires { Held t.now c }
    ensures { (φ : Formula) → Holds φ t.now c → result ≡ leftmost_in (drop n φ.prefix) (clause_at φ.clauses i) }
{
    if c.clauses <= i {
        return 0;
    }
    leftmost_behind(&t[..c.variables], n, clause_at(t, c, i))
}

// What keeps x from being resolved.
pub fn why_far(t: &[u16], c: Counts, ranks: &Ranks, x: usize) -> Why
    requires held { Held t.now c }
    ensures { (φ : Formula) → Holds φ t.now c → well_formed φ ≡ true → ranks.now ≡ ranks_of φ.prefix → mentions φ.prefix x ≡ true → result ≡ why.TooFarRight (far_clause φ x) (far_variable φ x) (universal_after φ x) }
{
    let n = first_universal(&t[..c.variables], place_of(ranks, x));
    let i = far_clause(t, c, ranks, x, n);
    let y = far_variable(t, c, n, i);
    Why::TooFarRight(i, y, universal_after(t, c, ranks, x))
}
