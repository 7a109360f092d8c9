// Step 6, resolve: the clauses of an existential have no variable at or behind the first universal to its right.
ghost use Rattle.std.specs.Prelude.{◌≡◌, ℕ, ◌<◌, true, ◌&&◌, List, drop};
ghost use Rattle.meaning.specs.Formula.{Formula, plain, negated};
ghost use Rattle.meaning.specs.WellFormed.{well_formed};
ghost use Rattle.rules.specs.Eliminate.{from_universal, resolve_permitted};
ghost use Rattle.table.specs.Table.{Holds, Held};
ghost use Rattle.table.specs.Ranks.{ranks_of, good_entries};
ghost use Rattle.permits.specs.Places.{within, near, side_within};

use crate::ranks::{is_existential, place_of};
use table::{Counts, Ranks, clause_at, contains};

// How many entries stand left of the first universal from an index on; where there is none, all.
// Kept: a number and no Option, since resolve looks for what stands behind that number; a loop, since its index is what it answers.
pub fn first_universal(prefix: &[u16], from: usize) -> usize
    ensures { from_universal (drop from prefix.now) ≡ drop result prefix.now }
{
    for i in from..prefix.len() {
        if prefix[i] % 2 == 1 {
            return i;
        }
    }
    prefix.len()
}

// Whether no variable of the clause stands behind place n.
pub fn is_within(clause: &[u16], ranks: &Ranks, n: usize) -> bool
    ensures { (p : List ℕ) → ranks.now ≡ ranks_of p → good_entries p ≡ true → result ≡ within p n clause.now }
{
    clause
        .iter()
        .all(|l| place_of(ranks, (*l / 2) as usize) <= n)
}

// The same, of a clause that has the literal.
fn is_near(clause: &[u16], ranks: &Ranks, literal: u16, n: usize) -> bool
    ensures { (p : List ℕ) → ranks.now ≡ ranks_of p → good_entries p ≡ true → result ≡ near p literal n clause.now }
{
    !contains(clause, literal) || is_within(clause, ranks, n)
}

// The same, of all clauses that have the literal.
fn side_within(t: &[u16], c: Counts, ranks: &Ranks, literal: u16, n: usize) -> bool
    requires held { Held t.now c }
    ensures { (φ : Formula) → Holds φ t.now c → well_formed φ ≡ true → ranks.now ≡ ranks_of φ.prefix → result ≡ side_within φ literal n }
{
    for i in 0..c.clauses {
        if !is_near(clause_at(t, c, i), ranks, literal, n) {
            return false;
        }
    }
    true
}

// The same, of all clauses that have one of the two literals of a.
fn sides_within(t: &[u16], c: Counts, ranks: &Ranks, a: usize, n: usize) -> bool
    requires held { Held t.now c }
    requires a_bound { a < 1024 }
    ensures { (φ : Formula) → Holds φ t.now c → well_formed φ ≡ true → ranks.now ≡ ranks_of φ.prefix → result ≡ (side_within φ (plain a) n && side_within φ (negated a) n) }
{
    let literal = 2 * a as u16;
    side_within(t, c, ranks, literal, n) && side_within(t, c, ranks, literal + 1, n)
}

// Whether a is an existential that may be resolved.
pub fn resolve_permitted(t: &[u16], c: Counts, ranks: &Ranks, a: usize) -> bool
    requires held { Held t.now c }
    ensures { (φ : Formula) → Holds φ t.now c → well_formed φ ≡ true → ranks.now ≡ ranks_of φ.prefix → result ≡ resolve_permitted φ a }
{
    a <= Counts::VARIABLES
        && is_existential(ranks, a)
        && sides_within(
            t,
            c,
            ranks,
            a,
            first_universal(&t[..c.variables], place_of(ranks, a)),
        )
}
