// Kind 3, subsume: the lowest clause a that is a part of another, and the lowest of those.
// Kept: apart from kind 4 (strengthening.rt says why).
ghost use Rattle.std.specs.Prelude.{◌≡◌, ℕ, ◌<◌, true, false, [], get_or};
ghost use Rattle.meaning.specs.Lists.{any_of};
ghost use Rattle.meaning.specs.Formula.{Formula};
ghost use Rattle.meaning.specs.Game.{empty_clause};
ghost use Rattle.meaning.specs.WellFormed.{well_formed};
ghost use Rattle.rules.specs.Entry as rules;
ghost use Rattle.rules.specs.Simplify.{subsume_permitted};
ghost use Rattle.rules.specs.Choice.{none, first_b, candidate};
ghost use Rattle.table.specs.Table.{Holds, Held};
ghost use Rattle.index.specs.Index.{clauses_with, Indexes, Indexed};
ghost use Rattle.search.specs.Candidates.{found_as, first_for, Signed};
ghost use Rattle.search.specs.Searched.{SearchedTo, Alone};

use crate::rarity::rarest;
use crate::sizes::{narrower, wider};
use index::{clauses_with, signature, signatures};
use table::{Counts, clause_at};
use walks::is_part;

// Whether clause b is another one than a, and has all literals of x, which is clause a.
fn is_subsumed(
    t: &[u16],
    c: Counts,
    signs: &[u16],
    sign: u16,
    x: &[u16],
    a: usize,
    b: usize,
) -> bool
    requires held { Held t.now c }
    requires a_lt_clauses { a < c.clauses }
    ensures { (φ : Formula) → Holds φ t.now c → well_formed φ ≡ true → Signed φ signs.now sign x.now a → result ≡ subsume_permitted φ a b }
{
    match wider(t, c, signs, sign, x, a, b) {
        Some(y) => is_part(x, y),
        None => false,
    }
}

// The first of these clauses of which x, which is clause a, is a part.
fn first_subsumed(
    t: &[u16],
    c: Counts,
    signs: &[u16],
    sign: u16,
    x: &[u16],
    a: usize,
    among: &[u16],
) -> Option<(usize, usize)>
    requires held { Held t.now c }
    requires a_lt_clauses { a < c.clauses }
    ensures { (φ : Formula) → Holds φ t.now c → well_formed φ ≡ true → Signed φ signs.now sign x.now a → result ≡ found_as (first_b (subsume_permitted φ a) a among.now) }
{
    for b in among {
        let b = *b as usize;
        if is_subsumed(t, c, signs, sign, x, a, b) {
            return Some((a, b));
        }
    }
    None
}

// The first clause of which clause a is a part: all that are have each literal of a, so those with one of them are looked at.
fn subsumed_by(t: &[u16], c: Counts, index: &[u16], a: usize) -> Option<(usize, usize)>
    requires held { Held t.now c }
    requires indexed { Indexed index.now }
    requires a_lt_clauses { a < c.clauses }
    ensures { (φ : Formula) → Holds φ t.now c → Indexes φ index.now → empty_clause φ.clauses ≡ false → result ≡ found_as (first_for φ rules.subsume a) }
{
    let x = clause_at(t, c, a);
    let l = rarest(index, x)?;
    let signs = signatures(index);
    let sign = signature(x);
    first_subsumed(t, c, signs, sign, x, a, clauses_with(index, l))
}

// All clauses are looked at.
fn search_all(t: &[u16], c: Counts, index: &[u16]) -> Option<(usize, usize)>
    requires held { Held t.now c }
    requires indexed { Indexed index.now }
    ensures { (φ : Formula) (E : ℕ) → Holds φ t.now c → Indexes φ index.now → empty_clause φ.clauses ≡ false → result ≡ found_as (candidate E φ rules.subsume) }
{
    for a in 0..c.clauses {
        let first = subsumed_by(t, c, index, a);
        if first.is_some() {
            return first;
        }
    }
    None
}

// Whether clause a is another one than b, and a part of y, which is clause b.
fn subsumes(t: &[u16], c: Counts, y: &[u16], a: usize, b: usize) -> bool
    requires held { Held t.now c }
    requires b_lt_clauses { b < c.clauses }
    ensures { (φ : Formula) → Holds φ t.now c → well_formed φ ≡ true → y.now ≡ get_or φ.clauses b [] → result ≡ subsume_permitted φ a b }
{
    match narrower(t, c, y, a, b) {
        Some(x) => is_part(x, y),
        None => false,
    }
}

// Whether one of the clauses with the literal l, another one than b, is a part of y, which is clause b.
fn any_part(t: &[u16], c: Counts, index: &[u16], l: u16, y: &[u16], b: usize) -> bool
    requires held { Held t.now c }
    requires indexed { Indexed index.now }
    requires b_lt_clauses { b < c.clauses }
    ensures { (φ : Formula) → Holds φ t.now c → Indexes φ index.now → y.now ≡ get_or φ.clauses b [] → result ≡ any_of (λ a. subsume_permitted φ a b) (clauses_with φ.clauses l) }
{
    clauses_with(index, l)
        .iter()
        .any(|a| subsumes(t, c, y, *a as usize, b))
}

// Whether another clause is a part of y, which is clause b. A part of y has one of its literals, as no clause is empty; so the clauses
// with one of them are looked at.
fn has_part(t: &[u16], c: Counts, index: &[u16], y: &[u16], b: usize) -> bool
    requires held { Held t.now c }
    requires indexed { Indexed index.now }
    requires b_lt_clauses { b < c.clauses }
    ensures { (φ : Formula) → Holds φ t.now c → Indexes φ index.now → empty_clause φ.clauses ≡ false → y.now ≡ get_or φ.clauses b [] → result ≡ false → (a : ℕ) → subsume_permitted φ a b ≡ false }
{
    y.iter().any(|l| any_part(t, c, index, *l, y, b))
}

// Whether clause b is a part of no other, and no other is a part of it.
fn is_apart(t: &[u16], c: Counts, index: &[u16], b: usize) -> bool
    requires held { Held t.now c }
    requires indexed { Indexed index.now }
    requires b_lt_clauses { b < c.clauses }
    ensures { (φ : Formula) → Holds φ t.now c → Indexes φ index.now → empty_clause φ.clauses ≡ false → result ≡ true → Alone (subsume_permitted φ) b }
{
    if subsumed_by(t, c, index, b).is_some() {
        return false;
    }
    !has_part(t, c, index, clause_at(t, c, b), b)
}

// Whether the clauses from number `searched` on are all apart. Then there is no candidate, if there is none among those before.
fn none_new(t: &[u16], c: Counts, index: &[u16], searched: usize) -> bool
    requires held { Held t.now c }
    requires indexed { Indexed index.now }
    ensures { (φ : Formula) (E : ℕ) → Holds φ t.now c → Indexes φ index.now → empty_clause φ.clauses ≡ false → SearchedTo φ searched → result ≡ true → candidate E φ rules.subsume ≡ none }
{
    for b in searched..c.clauses {
        if !is_apart(t, c, index, b) {
            return false;
        }
    }
    true
}

// Among the first `searched` clauses there is no candidate, as the caller knows (0: nothing is known). Then the others are looked at first:
// mostly these show that there is none at all. No clause may be empty: then the formula is false, and no step is looked for.
pub fn find_subsume(t: &[u16], c: Counts, index: &[u16], searched: usize) -> Option<(usize, usize)>
    requires held { Held t.now c }
    requires indexed { Indexed index.now }
    ensures { (φ : Formula) (E : ℕ) → Holds φ t.now c → Indexes φ index.now → empty_clause φ.clauses ≡ false → SearchedTo φ searched → result ≡ found_as (candidate E φ rules.subsume) }
{
    if searched != 0 && none_new(t, c, index, searched) {
        return None;
    }
    search_all(t, c, index)
}
