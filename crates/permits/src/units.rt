// Step 1, unit: which clauses have one literal, and which it is.
ghost use Rattle.std.specs.Prelude.{◌≡◌, get_or};
ghost use Rattle.meaning.specs.Formula.{Formula};
ghost use Rattle.rules.specs.Simplify.{clause_at, unit_permitted};
ghost use Rattle.table.specs.Table.{Holds, Held};

use table::{Counts, clause_at};

// Whether there is a clause a, and it has one literal.
pub fn unit_permitted(t: &[u16], c: Counts, a: usize) -> bool
    requires { Held t.now c }
    ensures { (φ : Formula) → Holds φ t.now c → result ≡ unit_permitted φ a }
{
    a < c.clauses && clause_at(t, c, a).len() == 1
}

// Literal k of clause a; 0 where there is none.
// Kept: a number and no Option, since the definitions take a literal with get_or, 0 where there is none.
pub fn literal_at(t: &[u16], c: Counts, a: usize, k: usize) -> u16
    requires { Held t.now c }
    ensures { (φ : Formula) → Holds φ t.now c → result ≡ get_or (clause_at φ.clauses a) k 0 }
{
    if c.clauses <= a {
        return 0;
    }
    clause_at(t, c, a).get(k).copied().unwrap_or(0)
}

// The one literal of clause a, where the step is permitted.
pub fn unit_literal(t: &[u16], c: Counts, a: usize) -> u16
    requires { Held t.now c }
    ensures { (φ : Formula) → Holds φ t.now c → result ≡ get_or (clause_at φ.clauses a) 0 0 }
{
    literal_at(t, c, a, 0)
}
