// Step 4, strengthen: the literal of clause a whose opposite leaves clause b.
ghost use Rattle.std.specs.Prelude.{◌≡◌, ℕ, true, List};
ghost use Rattle.meaning.specs.Lists.{part_of, without};
ghost use Rattle.meaning.specs.Formula.{Formula};
ghost use Rattle.meaning.specs.WellFormed.{well_formed};
ghost use Rattle.rules.specs.Simplify as rules;
ghost use Rattle.table.specs.Table.{Holds, Held};
ghost use Rattle.table.specs.Ranks.{ranks_of, good_entries};
ghost use Rattle.permits.specs.Choices.{is_or_in, first_by, strengthening_of};

use crate::ranks::is_existential;
use table::{Counts, Ranks, clause_at, contains, flip};

// Whether k is l, or in y.
fn is_or_in(y: &[u16], l: u16, k: u16) -> bool
    ensures { result ≡ is_or_in l y.now k }
{
    l == k || contains(y, k)
}

// Whether all literals of x but l are in y.
fn others_in(x: &[u16], y: &[u16], l: u16) -> bool
    ensures { result ≡ part_of (without l x.now) y.now }
{
    x.iter().all(|k| is_or_in(y, l, *k))
}

// Whether the literal l of x strengthens y.
fn strengthens_by(x: &[u16], y: &[u16], ranks: &Ranks, l: u16) -> bool
    ensures { (p : List ℕ) → ranks.now ≡ ranks_of p → good_entries p ≡ true → result ≡ rules.strengthens p x.now y.now l }
{
    is_existential(ranks, (l / 2) as usize) && contains(y, flip(l)) && others_in(x, y, l)
}

// The first literal of x that strengthens y.
fn first_strengthening(x: &[u16], y: &[u16], ranks: &Ranks) -> Option<u16>
    ensures { (p : List ℕ) → ranks.now ≡ ranks_of p → good_entries p ≡ true → result ≡ first_by (rules.strengthens p x.now y.now) x.now }
{
    x.iter().find(|l| strengthens_by(x, y, ranks, **l)).copied()
}

// The literal of clause a by which clause b is strengthened, where that is permitted.
pub fn strengthening_of(t: &[u16], c: Counts, ranks: &Ranks, a: usize, b: usize) -> Option<u16>
    requires held { Held t.now c }
    ensures { (φ : Formula) → Holds φ t.now c → well_formed φ ≡ true → ranks.now ≡ ranks_of φ.prefix → result ≡ strengthening_of φ a b }
{
    if c.clauses <= a || c.clauses <= b {
        return None;
    }
    first_strengthening(clause_at(t, c, a), clause_at(t, c, b), ranks)
}
