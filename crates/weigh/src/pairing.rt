// The pairs of a positive and a negative clause of step 6, by their numbers: what each adds to the result.
ghost use Rattle.std.specs.Prelude.{◌≡◌, ℕ, ◌+◌, ◌≤◌, ◌<◌, false, length, IfSome};
ghost use Rattle.meaning.specs.Lists.{any_of, same};
ghost use Rattle.meaning.specs.Formula.{Formula, mentions, plain, negated};
ghost use Rattle.rules.specs.Eliminate.{with_lit};
ghost use Rattle.table.specs.Table.{counts_of, clause_more};
ghost use Rattle.table.specs.Pending.{tidied_in};
ghost use Rattle.index.specs.Index.{Indexes, Indexed};
ghost use Rattle.index.specs.AtHand.{InHand};
ghost use Rattle.merging.specs.Merging.{Ordered};
ghost use Rattle.weigh.specs.Resolving.{pairs, Placed, PairOf, resolvent_at, resolved_to, any_gives, row_gives, came_before, Bounded};

use earlier::is_made_earlier;
use index::AtHand;
use resolvents::{fits_in, gives, resolve_pair};
use sides::{clause_with, count_with, is_clause, number_with};
use table::{Counts, Ranks, Scratch};

// So many positive clauses are tried one by one.
const FEW: usize = 8;

// A pair by its number, and by the numbers of its clauses among the positive and among the negative ones.
#[derive(Clone, Copy)]
pub struct Pair {
    pub number: usize,
    pub row: usize,
    pub column: usize,
}

// The first pair.
pub fn first_pair() -> Pair
    ensures { (result.number ≡ 0) × ((n : ℕ) → Placed n result) }
{
    Pair {
        number: 0,
        row: 0,
        column: 0,
    }
}

// The next one, where so many clauses are negative.
pub fn next_pair(p: Pair, width: usize) -> Pair
    requires placed { Placed width p × (0 < width) }
    requires number_bound { (p.number < 5000000) × (p.row < 5000000) }
    ensures { (result.number ≡ p.number + 1) × Placed width result }
{
    if p.column + 1 < width {
        return Pair {
            number: p.number + 1,
            column: p.column + 1,
            ..p
        };
    }
    Pair {
        number: p.number + 1,
        row: p.row + 1,
        column: 0,
    }
}

// How many pairs there are.
pub fn pair_count(index: &[u16], a: usize) -> usize
    requires indexed { Indexed index.now }
    requires a_bound { a < 1024 }
    ensures { (φ : Formula) → Indexes φ index.now → result ≡ pairs φ a }
{
    let literal = 2 * a as u16;
    count_with(index, literal) * count_with(index, literal + 1)
}

// The resolvent of a pair, tidied, in the scratch: how many literals it has; None where it is dropped.
fn resolvent_at(at: &AtHand, scratch: &mut Scratch, a: usize, p: Pair) -> Option<usize>
    requires a_bound { a < 1024 }
    requires pair { (φ : Formula) → Indexes φ at.now.index.now → PairOf φ a p }
    ensures within { IfSome result (λ m. m ≤ 1023) }
    ensures tidied { (φ : Formula) → InHand φ at.now → tidied_in scratch.new result ≡ resolvent_at φ a p.number }
{
    let literal = 2 * a as u16;
    let x = clause_with(at, literal, p.row);
    let y = clause_with(at, literal + 1, p.column);
    resolve_pair(scratch, x, y, a, at.ranks)
}

// Whether the resolvent of x with one of the first m negative clauses is the clause: each is made again.
fn any_gives(
    at: &AtHand,
    again: &mut Scratch,
    a: usize,
    x: &[u16],
    m: usize,
    clause: &[u16],
) -> bool
    requires a_bound { a < 1024 }
    requires ordered { Ordered x.now }
    requires m_in_bounds { (φ : Formula) → Indexes φ at.now.index.now → m ≤ length (with_lit (negated a) φ.clauses) }
    ensures { (φ : Formula) → InHand φ at.now → result ≡ any_gives φ a x.now m clause.now }
{
    let literal = 2 * a as u16 + 1;
    for j in 0..m {
        let y = clause_with(at, literal, j);
        if gives(again, x, y, a, at.ranks, clause) {
            return true;
        }
    }
    false
}

// The same of the positive clause i, which mostly has a literal that the clause lacks.
fn row_gives(at: &AtHand, again: &mut Scratch, a: usize, i: usize, m: usize, clause: &[u16]) -> bool
    requires a_bound { a < 1024 }
    requires i_in_bounds { (φ : Formula) → Indexes φ at.now.index.now → (i < length (with_lit (plain a) φ.clauses)) × (m ≤ length (with_lit (negated a) φ.clauses)) }
    ensures { (φ : Formula) → InHand φ at.now → result ≡ row_gives φ a i m clause.now }
{
    let literal = 2 * a as u16;
    let x = clause_with(at, literal, i);
    fits_in(x, literal, at.ranks, clause) && any_gives(at, again, a, x, m, clause)
}

// Whether one of the resolvents before the pair's is the clause: those of each positive clause before, then those of the pair's own, as far as
// these came.
fn came_before(at: &AtHand, again: &mut Scratch, a: usize, p: Pair, clause: &[u16]) -> bool
    requires a_bound { a < 1024 }
    requires pair { (φ : Formula) → Indexes φ at.now.index.now → PairOf φ a p }
    ensures { (φ : Formula) → InHand φ at.now → result ≡ came_before φ a p.number clause.now }
{
    let n = count_with(at.index, 2 * a as u16 + 1);
    let last = p.row;
    for i in 0..last {
        if row_gives(at, again, a, i, n, clause) {
            return true;
        }
    }
    let x = clause_with(at, 2 * a as u16, last);
    any_gives(at, again, a, x, p.column, clause)
}

// Whether all positive clauses before this one are tried: where they are few, or the clause has no literal to look for.
fn tries_each(row: usize, clause: &[u16]) -> bool
    ensures { result ≡ false → 0 < length clause.now }
{
    row < FEW || clause.is_empty()
}

// The same. After many positive clauses the index tells where to look.
fn is_earlier(at: &AtHand, again: &mut Scratch, a: usize, p: Pair, clause: &[u16]) -> bool
    requires a_bound { a < 1024 }
    requires pair { (φ : Formula) → Indexes φ at.now.index.now → PairOf φ a p }
    ensures { (φ : Formula) → InHand φ at.now → result ≡ came_before φ a p.number clause.now }
{
    if tries_each(p.row, clause) {
        return came_before(at, again, a, p, clause);
    }
    let literal = 2 * a as u16;
    let m = number_with(at.index, literal, p.row);
    let n = number_with(at.index, literal + 1, p.column);
    is_made_earlier(at, again, a, m, n, clause)
}

// Whether the clause, which does not have the variable, is there after the pairs before this one.
fn is_there(at: &AtHand, again: &mut Scratch, a: usize, p: Pair, clause: &[u16]) -> bool
    requires a_bound { a < 1024 }
    requires pair { (φ : Formula) → Indexes φ at.now.index.now → PairOf φ a p }
    ensures { (φ : Formula) → InHand φ at.now → mentions clause.now a ≡ false → result ≡ any_of (same clause.now) (resolved_to φ a p.number).clauses }
{
    is_clause(at, clause) || is_earlier(at, again, a, p, clause)
}

// The counts with a clause of so many literals more, whether it fits or not.
// Kept: Counts::with_clause asks that the clause fits.
fn with_more(d: Counts, size: usize) -> Counts
    requires bounded { Bounded 5000000 d }
    requires size_bound { size ≤ 1023 }
    ensures { result ≡ clause_more d size }
{
    Counts {
        clauses: d.clauses + 1,
        literals: d.literals + size,
        ..d
    }
}

// The counts after the pair, from those before it.
pub fn add_pair(
    at: &AtHand,
    scratch: &mut Scratch,
    again: &mut Scratch,
    a: usize,
    p: Pair,
    d: Counts,
) -> Counts
    requires a_bound { a < 1024 }
    requires pair { (φ : Formula) → Indexes φ at.now.index.now → PairOf φ a p }
    requires bounded { Bounded p.number d }
    ensures more { Bounded (p.number + 1) result }
    ensures value { (φ : Formula) → InHand φ at.now → d ≡ counts_of (resolved_to φ a p.number) d.second → result ≡ counts_of (resolved_to φ a (p.number + 1)) result.second }
{
    match resolvent_at(at, scratch, a, p) {
        Some(m) => {
            if is_there(at, again, a, p, &scratch[..m]) {
                return d;
            }
            with_more(d, m)
        }
        None => d,
    }
}
