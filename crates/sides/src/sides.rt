// The clauses with a literal, by the index.
ghost use Rattle.std.specs.Prelude.{◌≡◌, ◌<◌, [], length, get_or, drop};
ghost use Rattle.meaning.specs.Lists.{any_of, same};
ghost use Rattle.meaning.specs.Formula.{Formula};
ghost use Rattle.meaning.specs.WellFormed.{literals};
ghost use Rattle.rules.specs.Eliminate.{with_lit};
ghost use Rattle.permits.specs.Places.{side_within};
ghost use Rattle.index.specs.Index.{clauses_with, Indexes, Indexed};
ghost use Rattle.index.specs.AtHand.{InHand};
ghost use Rattle.sides.specs.Sides as sides;
ghost use Rattle.sides.specs.Sides.{rarest_of, FiledIn};

use index::{AtHand, clauses_with};
use permits::is_within;
use table::{clause_at, equal, is_present};

// How many clauses have the literal.
pub fn count_with(index: &[u16], literal: u16) -> usize
    requires { Indexed index.now }
    ensures { (φ : Formula) → Indexes φ index.now → result ≡ length (with_lit literal φ.clauses) }
{
    clauses_with(index, literal).len()
}

// The number of the i-th clause that has the literal.
pub fn number_with(index: &[u16], literal: u16, i: usize) -> usize
    requires indexed { Indexed index.now }
    requires i_in_bounds { (φ : Formula) → Indexes φ index.now → i < length (with_lit literal φ.clauses) }
    ensures { (φ : Formula) → Indexes φ index.now → result ≡ get_or (clauses_with φ.clauses literal) i 0 }
{
    let list = clauses_with(index, literal);
    list[i] as usize
}

// The i-th clause that has the literal.
pub fn clause_with<'a>(at: &AtHand<'a>, literal: u16, i: usize) -> &'a [u16]
    requires { (φ : Formula) → Indexes φ at.now.index.now → i < length (with_lit literal φ.clauses) }
    ensures { (φ : Formula) → FiledIn φ at.now → result.now ≡ get_or (with_lit literal φ.clauses) i [] }
{
    clause_at(at.table, at.counts, number_with(at.index, literal, i))
}

// How many literals they have.
// Kept: by number here and in the next two, since the statement of clause_with is about the i-th clause.
pub fn side_size(at: &AtHand, literal: u16) -> usize
    ensures { (φ : Formula) → FiledIn φ at.now → result ≡ literals (with_lit literal φ.clauses) }
{
    let n = count_with(at.index, literal);
    let mut sum = 0;
    for i in 0..n {
        let clause = clause_with(at, literal, i);
        sum += clause.len();
    }
    sum
}

// Whether none of their variables stands behind place n.
pub fn side_near(at: &AtHand, literal: u16, n: usize) -> bool
    ensures { (φ : Formula) → InHand φ at.now → result ≡ side_within φ literal n }
{
    let m = count_with(at.index, literal);
    for i in 0..m {
        if !is_within(clause_with(at, literal, i), at.ranks, n) {
            return false;
        }
    }
    true
}

// Whether one of them equals the clause.
fn is_among(at: &AtHand, literal: u16, clause: &[u16]) -> bool
    ensures { (φ : Formula) → FiledIn φ at.now → result ≡ any_of (same clause.now) (with_lit literal φ.clauses) }
{
    let n = count_with(at.index, literal);
    for i in 0..n {
        if equal(clause, clause_with(at, literal, i)) {
            return true;
        }
    }
    false
}

// Of two literals the one in fewer clauses.
fn rarer(index: &[u16], l: u16, k: u16) -> u16
    requires { Indexed index.now }
    ensures { (φ : Formula) → Indexes φ index.now → result ≡ sides.rarer φ.clauses l k }
{
    if count_with(index, k) < count_with(index, l) {
        return k;
    }
    l
}

// A literal of the clause that is in fewest clauses.
// Kept: a fold, since the definition says which one of several it is.
pub fn rarest(index: &[u16], clause: &[u16]) -> u16
    requires indexed { Indexed index.now }
    requires clause_nonzero { 0 < length clause.now }
    ensures { (φ : Formula) → Indexes φ index.now → result ≡ rarest_of φ.clauses (get_or clause.now 0 0) (drop 1 clause.now) }
{
    let others = clause[1..].iter();
    others.fold(clause[0], |best, literal| rarer(index, best, *literal))
}

// Whether the clause is one of the formula: only those with its rarest literal are looked at.
pub fn is_clause(at: &AtHand, clause: &[u16]) -> bool
    ensures { (φ : Formula) → FiledIn φ at.now → result ≡ any_of (same clause.now) φ.clauses }
{
    if clause.is_empty() {
        return is_present(at.table, at.counts, clause);
    }
    let literal = rarest(at.index, clause);
    is_among(at, literal, clause)
}
