// Where literals occur in a table.
ghost use Rattle.std.specs.Prelude.{◌≡◌};
ghost use Rattle.meaning.specs.Formula.{Formula};
ghost use Rattle.rules.specs.Simplify as rules;
ghost use Rattle.table.specs.Table.{Holds, Held};

use table::{Counts, clause_at, contains};

// Whether the literal is in some clause.
pub fn occurs(t: &[u16], c: Counts, literal: u16) -> bool
    requires { Held t.now c }
    ensures { (φ : Formula) → Holds φ t.now c → result ≡ rules.occurs literal φ.clauses }
{
    for i in 0..c.clauses {
        if contains(clause_at(t, c, i), literal) {
            return true;
        }
    }
    false
}
