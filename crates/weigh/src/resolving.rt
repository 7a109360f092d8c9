// Step 6, resolve: the weight of its result, against a bound.
ghost use Rattle.std.specs.Prelude.{◌≡◌, ◌<◌, ◌≤◌, true, leb};
ghost use Rattle.meaning.specs.Lists.{all_of};
ghost use Rattle.meaning.specs.Formula.{Formula, var, mentions};
ghost use Rattle.rules.specs.Eliminate.{resolve_permitted};
ghost use Rattle.rules.specs.Entry.{resolve};
ghost use Rattle.rules.specs.Step.{result_of};
ghost use Rattle.table.specs.Table.{counts_of};
ghost use Rattle.index.specs.AtHand.{InHand};
ghost use Rattle.growth.specs.Weights.{weighed, weighed_step, Summable};
ghost use Rattle.sides.specs.Sides.{FiledIn};
ghost use Rattle.weigh.specs.Resolving.{resolved_to, Bounded, CountedTo, FirstUniversal};

use crate::pairing::{add_pair, first_pair, next_pair, pair_count};
use growth::{Weighed, weight_of};
use index::AtHand;
use permits::{first_universal, is_existential, place_of};
use sides::{count_with, side_near, side_size};
use table::{Counts, Ranks, Scratch};

// A weight that no result reaches: 2,047 clauses with a literal and 2,047 with its opposite have fewer resolvents.
const UNREACHED: usize = 10000000000;

// What is said of a formula with these counts, whose prefix passes no limit.
fn weigh_counts(d: Counts, below: usize) -> Weighed
    requires { (d.variables ≤ 1023) × Summable d }
    ensures { (ψ : Formula) → d ≡ counts_of ψ d.second → all_of (λ q. leb (var q) 1023) ψ.prefix ≡ true → result ≡ weighed below ψ }
{
    let w = weight_of(d);
    if below <= w {
        return Weighed::Over;
    }
    if Counts::CLAUSES < d.clauses {
        return Weighed::Wide;
    }
    if Counts::LITERALS < d.literals {
        return Weighed::Wide;
    }
    Weighed::Fitting(w)
}

// The counts of what is left without the variable: its clauses go.
fn counts_left(at: &AtHand, a: usize) -> Counts
    requires { (a < 1024) × (0 < at.now.counts.variables) }
    ensures bounded { Bounded 0 result }
    ensures value { (φ : Formula) → FiledIn φ at.now → mentions φ.prefix a ≡ true → result ≡ counts_of (resolved_to φ a 0) result.second }
{
    let literal = 2 * a as u16;
    let clauses = count_with(at.index, literal) + count_with(at.index, literal + 1);
    let literals = side_size(at, literal) + side_size(at, literal + 1);
    let c = at.counts;
    Counts {
        variables: c.variables - 1,
        clauses: c.clauses - clauses,
        literals: c.literals - literals,
        ..c
    }
}

// The counts of the result, where d counts what is left without the variable. It stops as soon as their weight reaches the bound: the result's
// weight does so too.
fn count_pairs(
    at: &AtHand,
    scratch: &mut Scratch,
    again: &mut Scratch,
    a: usize,
    d: Counts,
    below: usize,
) -> Counts
    requires a_bound { a < 1024 }
    requires bounded { Bounded 0 d }
    ensures variables_bound { (result.variables ≤ 1023) × Summable result }
    ensures counted_to { (φ : Formula) → InHand φ at.now → d ≡ counts_of (resolved_to φ a 0) d.second → CountedTo φ a below result }
{
    let n = pair_count(at.index, a);
    let width = count_with(at.index, 2 * a as u16 + 1);
    let mut e = d;
    let mut p = first_pair();
    for number in 0..n {
        if below <= weight_of(e) {
            return e;
        }
        let f = add_pair(at, scratch, again, a, p, e);
        // Kept: field by field, since the record copied whole makes the loop wait for it.
        e = Counts {
            variables: f.variables,
            clauses: f.clauses,
            literals: f.literals,
            second: f.second,
        };
        p = next_pair(p, width);
    }
    e
}

// Whether a is an existential that may be resolved, where n entries stand left of the first universal to its right: the clauses with it, by
// the index, have no variable behind these.
fn may_resolve_within(at: &AtHand, a: usize, n: usize) -> bool
    requires first_universal { (φ : Formula) → InHand φ at.now → FirstUniversal φ a n }
    ensures { (φ : Formula) → InHand φ at.now → result ≡ resolve_permitted φ a }
{
    if Counts::VARIABLES < a {
        return false;
    }
    let literal = 2 * a as u16;
    is_existential(at.ranks, a) && side_near(at, literal, n) && side_near(at, literal + 1, n)
}

// Whether a is an existential that may be resolved.
pub fn may_resolve(at: &AtHand, a: usize) -> bool
    ensures { (φ : Formula) → InHand φ at.now → result ≡ resolve_permitted φ a }
{
    let n = first_universal(&at.table[..at.counts.variables], place_of(at.ranks, a));
    may_resolve_within(at, a, n)
}

// The counts of the whole result of resolving a, whether it fits or not, where that is permitted.
pub fn resolved_counts(at: &AtHand, scratch: &mut Scratch, again: &mut Scratch, a: usize) -> Counts
    requires a_value { (φ : Formula) → InHand φ at.now → resolve_permitted φ a ≡ true }
    ensures summable { Summable result }
    ensures value { (φ : Formula) → InHand φ at.now → result ≡ counts_of (result_of φ resolve a 0) result.second }
{
    let d = counts_left(at, a);
    count_pairs(at, scratch, again, a, d, UNREACHED)
}

// What the result of resolving a would weigh, against a bound. The caller, who goes from variable to variable, knows the first universal.
// What is left without the variable is looked at first: where that is not lighter than the bound, no result is.
pub fn weigh_resolve(
    at: &AtHand,
    scratch: &mut Scratch,
    again: &mut Scratch,
    a: usize,
    n: usize,
    below: usize,
) -> Weighed
    requires first_universal { (φ : Formula) → InHand φ at.now → FirstUniversal φ a n }
    ensures { (φ : Formula) → InHand φ at.now → result ≡ weighed_step below φ resolve a }
{
    if is_existential(at.ranks, a) {
        let d = counts_left(at, a);
        if below <= weight_of(d) {
            return Weighed::Over;
        }
        if may_resolve_within(at, a, n) {
            let e = count_pairs(at, scratch, again, a, d, below);
            return weigh_counts(e, below);
        }
        return Weighed::Over;
    }
    Weighed::Over
}
