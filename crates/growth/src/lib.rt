// Step 7, expand: what its result would weigh, without building it: a sum over the clauses. Where no clause is a part of another, no two
// clauses of the result are equal and none loses more than the universal, so that the sum is exact.
#![tactic(auto)]

ghost use Rattle.std.specs.Prelude.{◌≡◌, ℕ, ◌≤◌, ◌<◌, true, List};
ghost use Rattle.meaning.specs.Formula.{Formula};
ghost use Rattle.meaning.specs.WellFormed.{well_formed, weight};
ghost use Rattle.rules.specs.Eliminate.{expand_permitted};
ghost use Rattle.rules.specs.Entry.{expand};
ghost use Rattle.rules.specs.Step.{result_of};
ghost use Rattle.table.specs.Table.{Holds, Held, counts_of};
ghost use Rattle.table.specs.Ranks.{ranks_of, good_entries};
ghost use Rattle.growth.specs.Weights.{weighed_step, NoneSubsumed, Summable};
ghost use Rattle.growth.specs.Expanding.{inner_lit, reaches, share_of, clauses_of, literals_of, expanded_size, counts_fit, weight_of, weighed_counts, Small};

use permits::{count_existentials, expand_permitted, has_variable, is_existential, place_of};
use table::{Counts, Ranks, clause_at};

// What is said of a result of step 6 or 7: it is not lighter than the bound, or the step is not permitted; it is lighter, weighs so much and
// fits; it is lighter and passes a limit.
// Kept: three outcomes, of which only one has a value, and no failure is among them.
#[derive(Clone, Copy)]
pub enum Weighed {
    Over,
    Fitting(usize),
    Wide,
}

// What becomes of a clause: it stays; it loses the universal; it stands twice.
#[derive(Clone, Copy)]
pub enum Share {
    Stays,
    Loses,
    Doubles,
}

// How many clauses and literals.
#[derive(Clone, Copy)]
pub struct Size {
    pub clauses: usize,
    pub literals: usize,
}

// Whether the literal's variable is existential and stands behind place n.
fn is_inner(ranks: &Ranks, literal: u16, n: usize) -> bool
    ensures { (p : List ℕ) → ranks.now ≡ ranks_of p → good_entries p ≡ true → result ≡ inner_lit p n literal }
{
    let v = (literal / 2) as usize;
    is_existential(ranks, v) && n < place_of(ranks, v)
}

// Whether the clause has such a literal.
fn does_reach(clause: &[u16], ranks: &Ranks, n: usize) -> bool
    ensures { (p : List ℕ) → ranks.now ≡ ranks_of p → good_entries p ≡ true → result ≡ reaches p n clause.now }
{
    clause.iter().any(|literal| is_inner(ranks, *literal, n))
}

// What becomes of a clause when a, at place n, is expanded.
fn share_of(clause: &[u16], ranks: &Ranks, n: usize, a: usize) -> Share
    ensures { (p : List ℕ) → ranks.now ≡ ranks_of p → good_entries p ≡ true → result ≡ share_of p n a clause.now }
{
    if does_reach(clause, ranks, n) {
        if has_variable(clause, a) {
            return Share::Loses;
        }
        return Share::Doubles;
    }
    Share::Stays
}

// How many clauses a clause leaves.
fn clauses_of(share: Share) -> usize
    ensures { result ≡ clauses_of share }
{
    match share {
        Share::Stays => 1,
        Share::Loses => 1,
        Share::Doubles => 2,
    }
}

// How many literals a clause of m leaves. Without any it has none to lose.
fn literals_of(share: Share, m: usize) -> usize
    requires { m ≤ 8191 }
    ensures { result ≡ literals_of share m }
{
    match share {
        Share::Stays => m,
        Share::Loses => m.saturating_sub(1),
        Share::Doubles => 2 * m,
    }
}

// All clauses, when a at place n is expanded.
fn expanded_size(t: &[u16], c: Counts, ranks: &Ranks, n: usize, a: usize) -> Size
    requires { Held t.now c }
    ensures small { Small result }
    ensures value { (φ : Formula) → Holds φ t.now c → well_formed φ ≡ true → ranks.now ≡ ranks_of φ.prefix → result ≡ expanded_size φ.prefix n a φ.clauses }
{
    let mut clauses = 0;
    let mut literals = 0;
    for i in 0..c.clauses {
        let clause = clause_at(t, c, i);
        let share = share_of(clause, ranks, n, a);
        clauses += clauses_of(share);
        literals += literals_of(share, clause.len());
    }
    Size { clauses, literals }
}

// Whether these counts of the result pass no limit. A copy numbered over the limit passes it too, and the number of the expanded variable is
// none of the copies', so that one variable fewer fits.
fn counts_fit(d: Counts) -> bool
    ensures { result ≡ counts_fit d }
{
    d.variables < Counts::VARIABLES
        && d.clauses <= Counts::CLAUSES
        && d.literals <= Counts::LITERALS
}

// The weight of a formula with these counts.
pub fn weight_of(d: Counts) -> usize
    requires { Summable d }
    ensures counted { result ≡ weight_of d }
    ensures weighed { (ψ : Formula) → d ≡ counts_of ψ d.second → result ≡ weight ψ }
{
    d.variables + (d.clauses + d.literals)
}

// The counts of the result against the bound.
fn weigh_expanded(below: usize, d: Counts) -> Weighed
    requires { Summable d }
    ensures { result ≡ weighed_counts below d }
{
    let weight = weight_of(d);
    if below <= weight {
        return Weighed::Over;
    }
    if counts_fit(d) {
        return Weighed::Fitting(weight);
    }
    Weighed::Wide
}

// The counts of the whole result of expanding a, whether it fits or not, where that is permitted, for a formula in which no clause is a part
// of another.
pub fn expanded_counts(t: &[u16], c: Counts, ranks: &Ranks, a: usize) -> Counts
    requires held { Held t.now c }
    requires nonempty { 0 < c.variables }
    ensures summable { Summable result }
    ensures value { (φ : Formula) → Holds φ t.now c → well_formed φ ≡ true → ranks.now ≡ ranks_of φ.prefix → NoneSubsumed φ → expand_permitted φ a ≡ true → result ≡ counts_of (result_of φ expand a 0) result.second }
{
    let v = c.variables;
    let n = place_of(ranks, a);
    let k = count_existentials(&t[..v], n);
    let size = expanded_size(t, c, ranks, n, a);
    Counts {
        variables: v - 1 + k,
        clauses: size.clauses,
        literals: size.literals,
        second: c.second,
    }
}

// What the result of expanding a would weigh, for a formula in which no clause is a part of another.
pub fn weigh_expand(t: &[u16], c: Counts, ranks: &Ranks, a: usize, below: usize) -> Weighed
    requires { Held t.now c }
    ensures { (φ : Formula) → Holds φ t.now c → well_formed φ ≡ true → ranks.now ≡ ranks_of φ.prefix → NoneSubsumed φ → result ≡ weighed_step below φ expand a }
{
    if c.variables == 0 {
        return Weighed::Over;
    }
    if expand_permitted(t, c, ranks, a) {
        return weigh_expanded(below, expanded_counts(t, c, ranks, a));
    }
    Weighed::Over
}
