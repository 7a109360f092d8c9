// The first universal and the first existential right of a variable; 0 where there is none.
// Kept: a number and no Option, since the definitions give 0; and two functions, since the definitions are two.
ghost use Rattle.std.specs.Prelude.{◌≡◌, true};
ghost use Rattle.meaning.specs.Formula.{Formula, mentions};
ghost use Rattle.meaning.specs.WellFormed.{well_formed};
ghost use Rattle.table.specs.Table.{Holds, Held};
ghost use Rattle.table.specs.Ranks.{ranks_of};
ghost use Rattle.reasons.specs.Reason.{universal_after, existential_after};

use permits::place_of;
use table::{Counts, Ranks};

// The first universal right of x.
pub fn universal_after(t: &[u16], c: Counts, ranks: &Ranks, x: usize) -> usize
    requires held { Held t.now c }
    ensures { (φ : Formula) → Holds φ t.now c → well_formed φ ≡ true → ranks.now ≡ ranks_of φ.prefix → mentions φ.prefix x ≡ true → result ≡ universal_after φ x }
{
    let first = t[..c.variables]
        .iter()
        .skip(place_of(ranks, x))
        .find(|q| **q % 2 == 1);
    (first.copied().unwrap_or(0) / 2) as usize
}

// The leftmost existential right of u.
pub fn existential_after(t: &[u16], c: Counts, ranks: &Ranks, u: usize) -> usize
    requires held { Held t.now c }
    ensures { (φ : Formula) → Holds φ t.now c → well_formed φ ≡ true → ranks.now ≡ ranks_of φ.prefix → mentions φ.prefix u ≡ true → result ≡ existential_after φ u }
{
    let first = t[..c.variables]
        .iter()
        .skip(place_of(ranks, u))
        .find(|q| **q % 2 == 0);
    (first.copied().unwrap_or(0) / 2) as usize
}
