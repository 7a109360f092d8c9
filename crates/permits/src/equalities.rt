// Step 5, equality: a pair of clauses that says that two literals are equal.
ghost use Rattle.std.specs.Prelude.{◌≡◌, ℕ, true};
ghost use Rattle.meaning.specs.Formula.{Formula};
ghost use Rattle.meaning.specs.WellFormed.{well_formed};
ghost use Rattle.rules.specs.Simplify.{opposite_pair, equality_permitted};
ghost use Rattle.table.specs.Table.{Holds, Held};
ghost use Rattle.table.specs.Ranks.{ranks_of};
ghost use Rattle.permits.specs.Choices.{replacement_of};

use crate::Replacement;
use crate::ranks::place_of;
use crate::units::literal_at;
use table::{Counts, Ranks, clause_at, flip};

// Whether both have two literals, each the other's negated.
fn opposite_pair(x: &[u16], y: &[u16]) -> bool
    ensures { result ≡ opposite_pair x.now y.now }
{
    if x.len() != 2 || y.len() != 2 {
        return false;
    }
    y[0] == flip(x[0]) && y[1] == flip(x[1])
}

// Whether a comes before b, and they are such a pair.
pub fn equality_permitted(t: &[u16], c: Counts, a: usize, b: usize) -> bool
    requires { Held t.now c }
    ensures { (φ : Formula) → Holds φ t.now c → result ≡ equality_permitted φ a b }
{
    if b <= a || c.clauses <= b {
        return false;
    }
    opposite_pair(clause_at(t, c, a), clause_at(t, c, b))
}

// Which literal of clause a is replaced, and by what: that of the variable further right, by the other's opposite.
pub fn replacement_of(t: &[u16], c: Counts, ranks: &Ranks, a: usize) -> Replacement
    requires held { Held t.now c }
    ensures { (φ : Formula) → Holds φ t.now c → well_formed φ ≡ true → ranks.now ≡ ranks_of φ.prefix → (b : ℕ) → equality_permitted φ a b ≡ true → result ≡ replacement_of φ a }
{
    let k = literal_at(t, c, a, 0);
    let l = literal_at(t, c, a, 1);
    if place_of(ranks, (k / 2) as usize) < place_of(ranks, (l / 2) as usize) {
        return Replacement {
            old: l,
            new: flip(k),
        };
    }
    Replacement {
        old: k,
        new: flip(l),
    }
}
