// The firm part of a clause, and its literals that go: by a place `last`, the rightmost of one and of those of the clause's existentials.
ghost use Rattle.std.specs.Prelude.{◌≡◌, ◌≤◌, ◌<◌, true, length};
ghost use Rattle.meaning.specs.Lists.{all_of, keep_if, same};
ghost use Rattle.table.specs.Ranks.{small, stays_by};
ghost use Rattle.thinning.specs.Others.{safe};
ghost use Rattle.thinning.specs.Going.{NextOf};

use crate::Flags;
use flags::is_raised;
use table::{Ranks, flip, stays_by};

// The next literal, from index `from` on, that stays; the clause's length where there is none.
// Kept: a number and no Option, since the two walks compare it with a length; a loop, since its index is what it answers.
fn next_firm(ranks: &Ranks, last: u16, clause: &[u16], from: usize) -> usize
    requires { (all_of small clause.now ≡ true) × (from ≤ length clause.now) }
    ensures { NextOf (stays_by ranks.now last) clause.now from result }
{
    for i in from..clause.len() {
        if stays_by(ranks, last, clause[i]) {
            return i;
        }
    }
    clause.len()
}

// Whether the firm parts of two clauses are equal: that of a by the place x, and that of b by y.
pub fn same_firm(ranks: &Ranks, a: &[u16], x: u16, b: &[u16], y: u16) -> bool
    requires { (all_of small a.now ≡ true) × (all_of small b.now ≡ true) }
    ensures { result ≡ same (keep_if (stays_by ranks.now x) a.now) (keep_if (stays_by ranks.now y) b.now) }
{
    let mut i = next_firm(ranks, x, a, 0);
    let mut j = next_firm(ranks, y, b, 0);
    // Kept: two walks, each to the next literal that stays, at its own speed.
    while i < a.len() {
        if b.len() <= j || a[i] != b[j] {
            return false;
        }
        i = next_firm(ranks, x, a, i + 1);
        j = next_firm(ranks, y, b, j + 1);
    }
    b.len() <= j
}

// Whether the literal stays, or its opposite is not flagged.
#[tactic(auto, unfolding(crate::specs::Others::safe))]
fn is_safe(ranks: &Ranks, last: u16, met: &Flags, literal: u16) -> bool
    requires { literal < 2048 }
    ensures { result ≡ safe ranks.now last met.now literal }
{
    stays_by(ranks, last, literal) || !is_raised(met, flip(literal) as usize)
}

// Whether of no literal that goes the opposite is flagged.
pub fn is_free(ranks: &Ranks, last: u16, met: &Flags, clause: &[u16]) -> bool
    requires { all_of small clause.now ≡ true }
    ensures { result ≡ all_of (safe ranks.now last met.now) clause.now }
{
    clause.iter().all(|l| is_safe(ranks, last, met, *l))
}
