// Whether a clause is the resolvent of an earlier pair, where there are many: the pairs are found by the index. A literal of the clause is in
// one of the two clauses of the pair, and the literals that this one lacks are in the other.
ghost use Rattle.std.specs.Prelude.{◌≡◌, ◌<◌, true, ◌&&◌, [], ltb, length, get_or, take};
ghost use Rattle.meaning.specs.Lists.{any_of};
ghost use Rattle.meaning.specs.Formula.{Formula};
ghost use Rattle.rules.specs.Eliminate.{with_lit};
ghost use Rattle.index.specs.AtHand.{InHand};
ghost use Rattle.merging.specs.Merging.{Ordered};
ghost use Rattle.earlier.specs.Earlier.{makes, makes_with, own_of, partnered, lacking_of, made_earlier};

use index::{AtHand, clauses_with};
use resolvents::{fits_in, gives};
use sides::rarest;
use table::{Counts, Ranks, Scratch, clause_at, contains};

// The literal of the variable that the positive clause has; turned, the negative one. The other clause has that of the other turn.
fn own_literal(a: usize, turned: bool) -> u16
    requires { a < 1024 }
    ensures { result ≡ own_of a turned }
{
    2 * a as u16 + u16::from(turned)
}

// Whether the clause is the resolvent of x, if that has the variable, and of y, if that has its opposite.
fn is_made(at: &AtHand, again: &mut Scratch, a: usize, x: &[u16], y: &[u16], clause: &[u16]) -> bool
    requires a_bound { a < 1024 }
    requires ordered { Ordered x.now × Ordered y.now }
    ensures { (φ : Formula) → InHand φ at.now → result ≡ makes φ a clause.now x.now y.now }
{
    let literal = 2 * a as u16;
    contains(x, literal) && contains(y, literal + 1) && gives(again, x, y, a, at.ranks, clause)
}

// The same of z and clause j, if that is one of the first b. Turned, z is the negative one. Mostly clause j has a literal that the clause lacks.
fn is_made_with(
    at: &AtHand,
    again: &mut Scratch,
    a: usize,
    turned: bool,
    z: &[u16],
    b: usize,
    j: usize,
    clause: &[u16],
) -> bool
    requires a_bound { a < 1024 }
    requires ordered { Ordered z.now }
    requires j_bound { j < at.now.counts.clauses }
    ensures { (φ : Formula) → InHand φ at.now → result ≡ (ltb j b && makes_with φ a clause.now turned z.now (get_or φ.clauses j [])) }
{
    if b <= j {
        return false;
    }
    let y = clause_at(at.table, at.counts, j);
    if fits_in(y, own_literal(a, !turned), at.ranks, clause) {
        if turned {
            return is_made(at, again, a, y, z, clause);
        }
        return is_made(at, again, a, z, y, clause);
    }
    false
}

// So of z and one of the first b clauses, of which only those with the literal are looked at.
fn any_made_with(
    at: &AtHand,
    again: &mut Scratch,
    a: usize,
    turned: bool,
    z: &[u16],
    literal: u16,
    b: usize,
    clause: &[u16],
) -> bool
    requires a_bound { a < 1024 }
    requires ordered { Ordered z.now }
    ensures { (φ : Formula) → InHand φ at.now → result ≡ any_of (makes_with φ a clause.now turned z.now) (with_lit literal (take b φ.clauses)) }
{
    let list = clauses_with(at.index, literal);
    for number in list {
        let j = *number as usize;
        if is_made_with(at, again, a, turned, z, b, j, clause) {
            return true;
        }
    }
    false
}

// The first literal of the clause that z lacks; `other`, if there is none.
fn lacking(clause: &[u16], z: &[u16], other: u16) -> u16
    ensures { result ≡ lacking_of z.now other clause.now }
{
    for literal in clause {
        if !contains(z, *literal) {
            return *literal;
        }
    }
    other
}

// Whether one of the first b clauses makes the clause with z.
fn has_partner(
    at: &AtHand,
    again: &mut Scratch,
    a: usize,
    turned: bool,
    z: &[u16],
    b: usize,
    clause: &[u16],
) -> bool
    requires a_bound { a < 1024 }
    requires ordered { Ordered z.now }
    ensures { (φ : Formula) → InHand φ at.now → result ≡ partnered φ a clause.now turned b z.now }
{
    let literal = lacking(clause, z, own_literal(a, !turned));
    any_made_with(at, again, a, turned, z, literal, b, clause)
}

// The same of clause j, if that is one of the first d. Mostly it has a literal that the clause lacks.
fn is_partnered(
    at: &AtHand,
    again: &mut Scratch,
    a: usize,
    turned: bool,
    d: usize,
    j: usize,
    b: usize,
    clause: &[u16],
) -> bool
    requires a_bound { a < 1024 }
    requires j_bound { j < at.now.counts.clauses }
    ensures { (φ : Formula) → InHand φ at.now → result ≡ (ltb j d && partnered φ a clause.now turned b (get_or φ.clauses j [])) }
{
    if d <= j {
        return false;
    }
    let z = clause_at(at.table, at.counts, j);
    fits_in(z, own_literal(a, turned), at.ranks, clause)
        && has_partner(at, again, a, turned, z, b, clause)
}

// So of one of the first d clauses with the literal.
// Kept: a loop as in any_made_with. One function for both would take a closure that writes the scratch, and a clause of its own for the
// numbers that it may be called with; their proof is one already, by proofs/TriesLaws.antt.
fn any_partnered(
    at: &AtHand,
    again: &mut Scratch,
    a: usize,
    turned: bool,
    literal: u16,
    d: usize,
    b: usize,
    clause: &[u16],
) -> bool
    requires a_bound { a < 1024 }
    ensures { (φ : Formula) → InHand φ at.now → result ≡ any_of (partnered φ a clause.now turned b) (with_lit literal (take d φ.clauses)) }
{
    let list = clauses_with(at.index, literal);
    for number in list {
        let j = *number as usize;
        if is_partnered(at, again, a, turned, d, j, b, clause) {
            return true;
        }
    }
    false
}

// Whether the clause is the resolvent of a pair before that of the clauses m and n: of those with its rarest literal, a positive one before m
// with any other, or a negative one with one before m; or m itself with one before n.
pub fn is_made_earlier(
    at: &AtHand,
    again: &mut Scratch,
    a: usize,
    m: usize,
    n: usize,
    clause: &[u16],
) -> bool
    requires a_bound { a < 1024 }
    requires m_bound { m < at.now.counts.clauses }
    requires nonempty { 0 < length clause.now }
    ensures { (φ : Formula) → InHand φ at.now → result ≡ made_earlier φ a clause.now m n }
{
    let literal = rarest(at.index, clause);
    let all = at.counts.clauses;
    if any_partnered(at, again, a, false, literal, m, all, clause) {
        return true;
    }
    if any_partnered(at, again, a, true, literal, all, m, clause) {
        return true;
    }
    let x = clause_at(at.table, at.counts, m);
    has_partner(at, again, a, false, x, n, clause)
}
