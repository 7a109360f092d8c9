// Which pairs of clauses step 6 has to look at. Most pairs have no resolvent: the second clause lacks the negative literal, or both phases
// of another variable come together. Such pairs are passed over before anything is written.
ghost use Rattle.std.specs.Prelude.{◌≡◌, ℕ, ◌≤◌, ◌<◌, true, false, List, [], get_or, drop};
ghost use Rattle.meaning.specs.Lists.{has};
ghost use Rattle.meaning.specs.Formula.{Formula, opposite};
ghost use Rattle.table.specs.Table.{Holds, Held};
ghost use Rattle.resolving.specs.Pairs.{each_of, of_pair, Silent, Idle, Alike, opposite_bits};

use table::{Counts, clause_at, contains, flip};

// The first clause that has the literal; the number of clauses where none has it.
// Kept: a number and no Option, since it bounds a range of clauses, as end_with and next_pair do: an empty one where there is none.
pub fn first_with(source: &[u16], c: Counts, literal: u16) -> usize
    requires { Held source.now c }
    ensures upper_bound { result ≤ c.clauses }
    ensures f_value { (φ : Formula) (f : List ℕ → List (List ℕ)) → Holds φ source.now c → Silent literal f → each_of f φ.clauses ≡ each_of f (drop result φ.clauses) }
{
    for i in 0..c.clauses {
        if contains(clause_at(source, c, i), literal) {
            return i;
        }
    }
    c.clauses
}

// One behind the last clause, from this one on, that has the literal.
pub fn end_with(source: &[u16], c: Counts, literal: u16, from: usize) -> usize
    requires held { Held source.now c }
    requires from_le_clauses { from ≤ c.clauses }
    ensures lower_bound { (from ≤ result) × (result ≤ c.clauses) }
    ensures result_value { (φ : Formula) (f : List ℕ → List (List ℕ)) → Holds φ source.now c → Silent literal f → each_of f (drop result φ.clauses) ≡ [] }
{
    for i in (from..c.clauses).rev() {
        if contains(clause_at(source, c, i), literal) {
            return i + 1;
        }
    }
    from
}

// The opposites of a clause's literals, as bits: each by its last six bits. What is found by them is looked up in the clause, so they only
// save walks.
pub fn opposite_bits(clause: &[u16]) -> u64
    ensures { result ≡ opposite_bits clause.now }
{
    let mut bits: u64 = 0;
    for literal in clause {
        bits |= 1 << (flip(*literal) % 64);
    }
    bits
}

// Whether a literal's opposite is in the clause x, of which these are the bits; not asked of the negative literal.
fn meets(x: &[u16], bits: u64, negative: u16, literal: u16) -> bool
    ensures { result ≡ true → (literal ≡ negative → ⊥) × (has (opposite literal) x.now ≡ true) }
{
    literal != negative && (bits >> (literal % 64)) % 2 == 1 && contains(x, flip(literal))
}

// Whether x and y may have a resolvent: y has the negative literal, and of no other literal of y the opposite is in x.
fn resolves(x: &[u16], bits: u64, negative: u16, y: &[u16]) -> bool
    ensures y_value { result ≡ true → has negative y.now ≡ true }
    ensures idle { result ≡ false → Idle (of_pair (opposite negative) negative x.now y.now) }
{
    let mut found = false;
    for literal in y {
        if meets(x, bits, negative, *literal) {
            return false;
        }
        found |= *literal == negative;
    }
    found
}

// The next clause, from this one on and before another, that may have a resolvent with x; the other where none has.
pub fn next_pair(
    source: &[u16],
    c: Counts,
    x: &[u16],
    bits: u64,
    negative: u16,
    from: usize,
    to: usize,
) -> usize
    requires held { Held source.now c }
    requires from_le_to { (from ≤ to) × (to ≤ c.clauses) }
    ensures lower_bound { (from ≤ result) × (result ≤ to) }
    ensures result_value { (φ : Formula) → Holds φ source.now c → result < to → has negative (get_or φ.clauses result []) ≡ true }
    ensures alike { (φ : Formula) → Holds φ source.now c → Alike (each_of (of_pair (opposite negative) negative x.now) (drop from φ.clauses)) (each_of (of_pair (opposite negative) negative x.now) (drop result φ.clauses)) }
{
    for i in from..to {
        if resolves(x, bits, negative, clause_at(source, c, i)) {
            return i;
        }
    }
    to
}
