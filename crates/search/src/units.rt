// Kind 1, unit: the lowest clause of one literal.
ghost use Rattle.std.specs.Prelude.{◌≡◌, ℕ};
ghost use Rattle.meaning.specs.Formula.{Formula};
ghost use Rattle.rules.specs.Entry as rules;
ghost use Rattle.rules.specs.Choice.{candidate};
ghost use Rattle.table.specs.Table.{Holds, Held};
ghost use Rattle.search.specs.Candidates.{found_as};

use permits::unit_permitted;
use table::Counts;

pub fn find_unit(t: &[u16], c: Counts) -> Option<(usize, usize)>
    requires { Held t.now c }
    ensures { (φ : Formula) (E : ℕ) → Holds φ t.now c → result ≡ found_as (candidate E φ rules.unit) }
{
    for a in 0..c.clauses {
        if unit_permitted(t, c, a) {
            return Some((a, 0));
        }
    }
    None
}
