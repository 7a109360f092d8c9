// The sizes of two clauses, and what else tells at little cost that the one neither subsumes nor strengthens the other.
ghost use Rattle.std.specs.Prelude.{◌≡◌, ℕ, ◌<◌, ◌≢◌, true, false, [], get_or, IfSome, IfNone};
ghost use Rattle.meaning.specs.Formula.{Formula};
ghost use Rattle.meaning.specs.WellFormed.{well_formed};
ghost use Rattle.rules.specs.Simplify.{subsume_permitted, strengthen_permitted};
ghost use Rattle.table.specs.Table.{Holds, Held};
ghost use Rattle.search.specs.Candidates.{Signed};

use index::may_be_part;
use table::{Counts, clause_at};

// Clause b, where it is another one than a, no shorter than x, which is clause a, and may have all its variables by the signatures.
// Else clause a neither subsumes nor strengthens it.
pub fn wider<'a>(
    t: &'a [u16],
    c: Counts,
    signs: &[u16],
    sign: u16,
    x: &[u16],
    a: usize,
    b: usize,
) -> Option<&'a [u16]>
    requires held { Held t.now c }
    requires a_lt_clauses { a < c.clauses }
    ensures there { IfSome result (λ y. (b < c.clauses) × (a ≢ b) × ((φ : Formula) → Holds φ t.now c → y.now ≡ get_or φ.clauses b [])) }
    ensures none { IfNone result ((φ : Formula) → Holds φ t.now c → well_formed φ ≡ true → Signed φ signs.now sign x.now a → (subsume_permitted φ a b ≡ false) × (strengthen_permitted φ a b ≡ false)) }
{
    if !may_be_part(signs, sign, b) {
        return None;
    }
    if c.clauses <= b {
        return None;
    }
    if a == b {
        return None;
    }
    let y = clause_at(t, c, b);
    if y.len() < x.len() {
        return None;
    }
    Some(y)
}

// Clause a, where it is another one than b, and no longer than y, which is clause b. Else it neither subsumes nor strengthens clause b.
pub fn narrower<'a>(t: &'a [u16], c: Counts, y: &[u16], a: usize, b: usize) -> Option<&'a [u16]>
    requires held { Held t.now c }
    requires b_lt_clauses { b < c.clauses }
    ensures there { IfSome result (λ x. (a < c.clauses) × (a ≢ b) × ((φ : Formula) → Holds φ t.now c → x.now ≡ get_or φ.clauses a [])) }
    ensures none { IfNone result ((φ : Formula) → Holds φ t.now c → well_formed φ ≡ true → y.now ≡ get_or φ.clauses b [] → (subsume_permitted φ a b ≡ false) × (strengthen_permitted φ a b ≡ false)) }
{
    if c.clauses <= a {
        return None;
    }
    if a == b {
        return None;
    }
    let x = clause_at(t, c, a);
    if y.len() < x.len() {
        return None;
    }
    Some(x)
}
