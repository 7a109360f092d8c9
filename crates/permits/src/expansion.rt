// Step 7, expand.
ghost use Rattle.std.specs.Prelude.{◌≡◌, true, drop};
ghost use Rattle.meaning.specs.Formula.{Formula};
ghost use Rattle.meaning.specs.WellFormed.{well_formed};
ghost use Rattle.rules.specs.Eliminate.{all_exist, universals_first, expand_permitted};
ghost use Rattle.table.specs.Table.{Holds, Held};
ghost use Rattle.table.specs.Ranks.{ranks_of};

use crate::ranks::{is_universal, place_of};
use table::{Counts, Ranks};

// Whether all entries from an index on are existential.
fn all_exist(prefix: &[u16], from: usize) -> bool
    ensures { result ≡ all_exist (drop from prefix.now) }
{
    prefix.iter().skip(from).all(|q| *q % 2 == 0)
}

// Whether, from an index on, no existential is followed by a universal.
fn universals_first(prefix: &[u16], from: usize) -> bool
    ensures { result ≡ universals_first (drop from prefix.now) }
{
    // Kept: at the first existential the test becomes another one, of all that is left.
    for i in from..prefix.len() {
        if prefix[i] % 2 == 0 {
            return all_exist(prefix, i + 1);
        }
    }
    true
}

// Whether a is a universal, with no existential followed by a universal to its right.
pub fn expand_permitted(t: &[u16], c: Counts, ranks: &Ranks, a: usize) -> bool
    requires held { Held t.now c }
    ensures { (φ : Formula) → Holds φ t.now c → well_formed φ ≡ true → ranks.now ≡ ranks_of φ.prefix → result ≡ expand_permitted φ a }
{
    is_universal(ranks, a) && universals_first(&t[..c.variables], place_of(ranks, a))
}
