// Which clauses are taken, and what becomes of their literals.
ghost use Rattle.std.specs.Prelude.{◌≡◌, ℕ, not, ◌&&◌, List, ◌++◌, get_or};
ghost use Rattle.meaning.specs.Lists.{has};
ghost use Rattle.rules.specs.Simplify.{replace_lit};
ghost use Rattle.table.specs.Pending.{Pends, Pended};
ghost use Rattle.recipes.specs.Recipe.{Ready, reaches, neither, copied, less, taken, turned, some_of, fed};
ghost use Rattle.recipes.specs.Left.{left, leaves_none};

use crate::{Turn, Which};
use permits::{has_variable, is_within, place_of};
use table::{Pending, Ranks, Scratch, contains, flip, put_literal};

// Whether a variable of the clause stands behind a place.
fn reaches_behind(clause: &[u16], ranks: &Ranks, place: usize) -> bool
    ensures { (q : List ℕ) → Ready q ranks.now → result ≡ reaches q place clause.now }
{
    !is_within(clause, ranks, place)
}

// Whether neither the literal nor its opposite is there: no literal is of its variable.
fn has_neither(clause: &[u16], literal: u16) -> bool
    ensures { result ≡ neither literal clause.now }
{
    !has_variable(clause, (literal / 2) as usize)
}

// Whether a variable of the clause stands behind a place, and the literal is not there.
fn is_far(clause: &[u16], ranks: &Ranks, place: usize, literal: u16) -> bool
    ensures { (q : List ℕ) → Ready q ranks.now → result ≡ (reaches q place clause.now && not (has literal clause.now)) }
{
    reaches_behind(clause, ranks, place) && !contains(clause, literal)
}

// Whether clause i is taken.
pub fn is_taken(which: Which, ranks: &Ranks, i: usize, clause: &[u16]) -> bool
    ensures { (q : List ℕ) → Ready q ranks.now → result ≡ taken which q i clause.now }
{
    match which {
        Which::All => true,
        Which::But(b) => i != b,
        Which::Without(l) => !contains(clause, l),
        Which::Free(l) => has_neither(clause, l),
        Which::Near(s) => !reaches_behind(clause, ranks, s),
        Which::Far(s, l) => is_far(clause, ranks, s, l),
    }
}

// The literal, or 0 in place of one that leaves.
// Kept: a number and no Option, since the definition less gives 0 for a literal that leaves.
fn left_of(literal: u16, leaving: u16) -> u16
    ensures { result ≡ less leaving literal }
{
    if literal == leaving {
        return 0;
    }
    literal
}

// What becomes of a literal where another one is replaced.
fn replaced_in(literal: u16, old: u16, new: u16) -> u16
    ensures { result ≡ replace_lit old new literal }
{
    if literal == old {
        return new;
    }
    if literal == flip(old) {
        return flip(new);
    }
    literal
}

// The entry at a place, 0 where there is none.
// Kept: a number and no Option, since the clause takes the entry with get_or, 0 where there is none.
fn entry_at(prefix: &[u16], at: usize) -> u16
    ensures { result ≡ get_or prefix.now at 0 }
{
    prefix.get(at).copied().unwrap_or(0)
}

// What becomes of a literal where the variables behind a place have copies n places further right.
fn copied_in(prefix: &[u16], ranks: &Ranks, literal: u16, place: usize, n: u16) -> u16
    requires { Ready prefix.now ranks.now }
    ensures { result ≡ copied prefix.now place n literal }
{
    let v = (literal / 2) as usize;
    let at = place_of(ranks, v);
    if place < at {
        let e = entry_at(prefix, at - 1 + n as usize);
        return 2 * (e / 2) + literal % 2;
    }
    literal
}

// Whether clause i is left as it was where variable v is dropped: it has no literal of v, and the turn is not about this clause alone.
pub fn is_left(turn: Turn, v: u16, i: usize, clause: &[u16]) -> bool
    ensures { result ≡ left turn v i clause.now }
{
    match turn {
        Turn::Same | Turn::Drop(_) | Turn::Replace(_, _) => !has_variable(clause, v as usize),
        Turn::DropAt(b, _) => i != b && !has_variable(clause, v as usize),
        Turn::Copy(_, _, _) => false,
    }
}

// Whether no clause is left as it was.
pub fn leaves_none(turn: Turn) -> bool
    ensures { result ≡ leaves_none turn }
{
    matches!(turn, Turn::Copy(_, _, _))
}

// What becomes of a literal of clause i: 0 where it leaves.
// Kept: a number and no Option, since the definition turned gives 0 for a literal that leaves.
pub fn literal_turned(turn: Turn, prefix: &[u16], ranks: &Ranks, i: usize, literal: u16) -> u16
    requires { Ready prefix.now ranks.now }
    ensures { result ≡ turned turn prefix.now i literal }
{
    match turn {
        Turn::Same => literal,
        Turn::Drop(l) => left_of(literal, l),
        Turn::DropAt(b, l) => {
            if i == b {
                return left_of(literal, l);
            }
            literal
        }
        Turn::Replace(old, new) => replaced_in(literal, old, new),
        Turn::Copy(l, s, n) => {
            if literal == l {
                return 0;
            }
            copied_in(prefix, ranks, literal, s, n)
        }
    }
}

// One literal more, where it is one.
fn put_some(scratch: &mut Scratch, p: Pending, literal: u16) -> Pending
    requires { Pended scratch.old p }
    ensures { (raw : List ℕ) → Pends raw scratch.old p → Pends (raw ++ some_of literal) scratch.new result }
{
    if literal < 2 || 2047 < literal {
        return p;
    }
    put_literal(scratch, p, literal)
}

// What becomes of clause i, behind the literals that wait in the scratch.
pub fn feed(
    scratch: &mut Scratch,
    p: Pending,
    clause: &[u16],
    i: usize,
    turn: Turn,
    prefix: &[u16],
    ranks: &Ranks,
) -> Pending
    requires pended { Pended scratch.old p }
    requires ready { Ready prefix.now ranks.now }
    ensures { (raw : List ℕ) → Pends raw scratch.old p → Pends (raw ++ fed turn prefix.now i clause.now) scratch.new result }
{
    let mut w = p;
    for literal in clause {
        let k = literal_turned(turn, prefix, ranks, i, *literal);
        w = put_some(scratch, w, k);
    }
    w
}
