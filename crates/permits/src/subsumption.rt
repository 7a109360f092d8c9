// Step 3, subsume.
ghost use Rattle.std.specs.Prelude.{◌≡◌};
ghost use Rattle.meaning.specs.Formula.{Formula};
ghost use Rattle.rules.specs.Simplify.{subsume_permitted};
ghost use Rattle.table.specs.Table.{Holds, Held};

use table::{Counts, clause_at, part_of};

// Whether clause a is a part of another clause b.
pub fn subsume_permitted(t: &[u16], c: Counts, a: usize, b: usize) -> bool
    requires { Held t.now c }
    ensures { (φ : Formula) → Holds φ t.now c → result ≡ subsume_permitted φ a b }
{
    if c.clauses <= a || c.clauses <= b || a == b {
        return false;
    }
    part_of(clause_at(t, c, a), clause_at(t, c, b))
}
