// Kind 5, equality: the lowest clause of two literals whose opposites are a later clause.
ghost use Rattle.std.specs.Prelude.{◌≡◌, ℕ, ◌<◌};
ghost use Rattle.meaning.specs.Formula.{Formula};
ghost use Rattle.rules.specs.Entry as rules;
ghost use Rattle.rules.specs.Simplify.{equality_permitted};
ghost use Rattle.rules.specs.Choice.{first_b, candidate};
ghost use Rattle.table.specs.Table.{Holds, Held};
ghost use Rattle.index.specs.Index.{Indexes, Indexed};
ghost use Rattle.search.specs.Candidates.{found_as, first_for};

use index::clauses_with;
use permits::equality_permitted;
use table::{Counts, clause_at, flip};

// The first of these clauses that is such a pair with clause a.
fn first_equal(t: &[u16], c: Counts, a: usize, among: &[u16]) -> Option<(usize, usize)>
    requires { Held t.now c }
    ensures { (φ : Formula) → Holds φ t.now c → result ≡ found_as (first_b (equality_permitted φ a) a among.now) }
{
    for b in among {
        let b = *b as usize;
        if equality_permitted(t, c, a, b) {
            return Some((a, b));
        }
    }
    None
}

// The first clause that is such a pair with clause a: it has the opposite of a's first literal.
fn equal_to(t: &[u16], c: Counts, index: &[u16], a: usize) -> Option<(usize, usize)>
    requires held { Held t.now c }
    requires indexed { Indexed index.now }
    requires a_lt_clauses { a < c.clauses }
    ensures { (φ : Formula) → Holds φ t.now c → Indexes φ index.now → result ≡ found_as (first_for φ rules.equality a) }
{
    let clause = clause_at(t, c, a);
    if clause.len() != 2 {
        return None;
    }
    let l = flip(clause[0]);
    first_equal(t, c, a, clauses_with(index, l))
}

pub fn find_equality(t: &[u16], c: Counts, index: &[u16]) -> Option<(usize, usize)>
    requires held { Held t.now c }
    requires indexed { Indexed index.now }
    ensures { (φ : Formula) (E : ℕ) → Holds φ t.now c → Indexes φ index.now → result ≡ found_as (candidate E φ rules.equality) }
{
    for a in 0..c.clauses {
        let first = equal_to(t, c, index, a);
        if first.is_some() {
            return first;
        }
    }
    None
}
