// Kind 4, strengthen: the lowest clause a that strengthens a clause, and the lowest of those.
// Kept: apart from kind 3, whose functions have the same shape. Each is one call of a library method or one `for` over another test, with
// other facts at hand, so a function of both over a closure would be no shorter.
ghost use Rattle.std.specs.Prelude.{◌≡◌, ℕ, ◌<◌, ◌+◌, ◌*◌, ◌++◌, true, false, [], get_or};
ghost use Rattle.meaning.specs.Lists.{any_of};
ghost use Rattle.meaning.specs.Formula.{Formula};
ghost use Rattle.rules.specs.Entry as rules;
ghost use Rattle.rules.specs.Choice.{none, candidate};
ghost use Rattle.rules.specs.Simplify.{strengthen_permitted};
ghost use Rattle.index.specs.Index.{clauses_with};
ghost use Rattle.index.specs.AtHand.{InHand};
ghost use Rattle.search.specs.Candidates.{found_as, first_for, Signed, lowest_of};
ghost use Rattle.search.specs.Searched.{SearchedTo, Alone};

use crate::rarity::rarest_by_variable;
use crate::sizes::{narrower, wider};
use index::{AtHand, clauses_of, signature, signatures};
use table::clause_at;
use walks::strengthens_part;

// Whether there is a clause b, and some literal of x, which is clause a, strengthens it.
fn is_strengthened(at: &AtHand, signs: &[u16], sign: u16, x: &[u16], a: usize, b: usize) -> bool
    requires a_lt_clauses { a < at.now.counts.clauses }
    ensures { (φ : Formula) → InHand φ at.now → Signed φ signs.now sign x.now a → result ≡ strengthen_permitted φ a b }
{
    match wider(at.table, at.counts, signs, sign, x, a, b) {
        Some(y) => strengthens_part(at.ranks, x, y),
        None => false,
    }
}

// The lowest of those of these clauses that clause a strengthens.
fn lowest_among(
    at: &AtHand,
    signs: &[u16],
    sign: u16,
    x: &[u16],
    a: usize,
    among: &[u16],
) -> Option<u16>
    requires a_lt_clauses { a < at.now.counts.clauses }
    ensures { (φ : Formula) → InHand φ at.now → Signed φ signs.now sign x.now a → result ≡ lowest_of (strengthen_permitted φ a) among.now }
{
    among
        .iter()
        .filter(|b| is_strengthened(at, signs, sign, x, a, **b as usize))
        .min()
        .copied()
}

// The lowest clause that clause a strengthens. What a strengthens has each variable of a, so those with one of
// them are looked at.
fn strengthened_by(at: &AtHand, a: usize) -> Option<(usize, usize)>
    requires a_lt_clauses { a < at.now.counts.clauses }
    ensures { (φ : Formula) → InHand φ at.now → result ≡ found_as (first_for φ rules.strengthen a) }
{
    let x = clause_at(at.table, at.counts, a);
    let v = rarest_by_variable(at.index, x)? / 2;
    let signs = signatures(at.index);
    let sign = signature(x);
    let b = lowest_among(at, signs, sign, x, a, clauses_of(at.index, v))?;
    Some((a, b as usize))
}

// All clauses are looked at.
fn search_all(at: &AtHand) -> Option<(usize, usize)>
    ensures { (φ : Formula) (E : ℕ) → InHand φ at.now → result ≡ found_as (candidate E φ rules.strengthen) }
{
    for a in 0..at.counts.clauses {
        let first = strengthened_by(at, a);
        if first.is_some() {
            return first;
        }
    }
    None
}

// Whether there is a clause a, and some literal of it strengthens y, which is clause b.
fn strengthens(at: &AtHand, y: &[u16], a: usize, b: usize) -> bool
    requires b_lt_clauses { b < at.now.counts.clauses }
    ensures { (φ : Formula) → InHand φ at.now → y.now ≡ get_or φ.clauses b [] → result ≡ strengthen_permitted φ a b }
{
    match narrower(at.table, at.counts, y, a, b) {
        Some(x) => strengthens_part(at.ranks, x, y),
        None => false,
    }
}

// Whether one of the clauses with the variable v strengthens y, which is clause b.
fn any_stronger(at: &AtHand, v: u16, y: &[u16], b: usize) -> bool
    requires b_lt_clauses { b < at.now.counts.clauses }
    ensures { (φ : Formula) → InHand φ at.now → y.now ≡ get_or φ.clauses b [] → result ≡ any_of (λ a. strengthen_permitted φ a b) (clauses_with φ.clauses (2 * v) ++ clauses_with φ.clauses (2 * v + 1)) }
{
    clauses_of(at.index, v)
        .iter()
        .any(|a| strengthens(at, y, *a as usize, b))
}

// Whether some clause strengthens y, which is clause b. Such a clause has a variable of y, so the clauses with one of them are looked at.
fn has_stronger(at: &AtHand, y: &[u16], b: usize) -> bool
    requires b_lt_clauses { b < at.now.counts.clauses }
    ensures { (φ : Formula) → InHand φ at.now → y.now ≡ get_or φ.clauses b [] → result ≡ false → (a : ℕ) → strengthen_permitted φ a b ≡ false }
{
    y.iter().any(|l| any_stronger(at, *l / 2, y, b))
}

// Whether clause b strengthens none, and none strengthens it.
fn is_apart(at: &AtHand, b: usize) -> bool
    requires b_lt_clauses { b < at.now.counts.clauses }
    ensures { (φ : Formula) → InHand φ at.now → result ≡ true → Alone (strengthen_permitted φ) b }
{
    if strengthened_by(at, b).is_some() {
        return false;
    }
    !has_stronger(at, clause_at(at.table, at.counts, b), b)
}

// Whether the clauses from number `searched` on are all apart. Then there is no candidate, if there is none among those before.
fn none_new(at: &AtHand, searched: usize) -> bool
    ensures { (φ : Formula) (E : ℕ) → InHand φ at.now → SearchedTo φ searched → result ≡ true → candidate E φ rules.strengthen ≡ none }
{
    for b in searched..at.counts.clauses {
        if !is_apart(at, b) {
            return false;
        }
    }
    true
}

// Among the first `searched` clauses there is no candidate, as the caller knows (0: nothing is known). Then the others are looked at first:
// mostly these show that there is none at all.
pub fn find_strengthen(at: &AtHand, searched: usize) -> Option<(usize, usize)>
    ensures { (φ : Formula) (E : ℕ) → InHand φ at.now → SearchedTo φ searched → result ≡ found_as (candidate E φ rules.strengthen) }
{
    if searched != 0 && none_new(at, searched) {
        return None;
    }
    search_all(at)
}
