// The resolvent of two clauses, made in a lent scratch.
ghost use Rattle.std.specs.Prelude.{◌≡◌, ℕ, ◌≤◌, ◌<◌, true, ◌||◌, List, take, IfSome};
ghost use Rattle.meaning.specs.Lists.{has};
ghost use Rattle.meaning.specs.Tidy.{tidy};
ghost use Rattle.meaning.specs.WellFormed.{good_prefix};
ghost use Rattle.table.specs.Ranks.{ranks_of, good_entries};
ghost use Rattle.table.specs.Pending.{tidied_in};
ghost use Rattle.merging.specs.Merging.{Ordered};
ghost use Rattle.resolvents.specs.Resolvent.{resolvent, covers, stays_in, fits_in, becomes};

use merging::merge_in;
use permits::is_universal;
use table::{Ranks, Scratch, contains, equal, tidy_in};

// From this many literals on a resolvent is sooner made than looked for literal by literal, once the first literals fit.
const LONG: usize = 32;

// The resolvent of x and y, tidied, in the scratch: how many literals it has; None where it is dropped.
pub fn resolve_pair(
    scratch: &mut Scratch,
    x: &[u16],
    y: &[u16],
    a: usize,
    ranks: &Ranks,
) -> Option<usize>
    requires a_bound { a < 1024 }
    requires ordered { Ordered x.now × Ordered y.now }
    ensures within { IfSome result (λ m. m ≤ 1023) }
    ensures tidied { (q : List ℕ) → good_prefix q ≡ true → ranks.now ≡ ranks_of q → tidied_in scratch.new result ≡ tidy q (resolvent a x.now y.now) }
{
    let p = merge_in(scratch, x, y, 2 * a as u16);
    tidy_in(scratch, p, ranks)
}

// Whether the literal is in one of two clauses.
fn in_either(literal: u16, x: &[u16], y: &[u16]) -> bool
    ensures { result ≡ (has literal x.now || has literal y.now) }
{
    contains(x, literal) || contains(y, literal)
}

// Whether every literal of a clause is in one of two others: else it is not their resolvent.
fn covered(clause: &[u16], x: &[u16], y: &[u16]) -> bool
    ensures { result ≡ covers x.now y.now clause.now }
{
    clause.iter().all(|literal| in_either(*literal, x, y))
}

// Whether the literal stays in the resolvent that is the clause, if one: it is the one left out, or is there, or tidying may take it away.
fn stays_in(literal: u16, out: u16, ranks: &Ranks, clause: &[u16]) -> bool
    ensures { (q : List ℕ) → good_entries q ≡ true → ranks.now ≡ ranks_of q → result ≡ stays_in q clause.now out literal }
{
    literal == out || contains(clause, literal) || is_universal(ranks, (literal / 2) as usize)
}

// Whether all literals of x do so: else the clause is no resolvent of x.
pub fn fits_in(x: &[u16], out: u16, ranks: &Ranks, clause: &[u16]) -> bool
    ensures { (q : List ℕ) → good_entries q ≡ true → ranks.now ≡ ranks_of q → result ≡ fits_in q clause.now out x.now }
{
    x.iter()
        .all(|literal| stays_in(*literal, out, ranks, clause))
}

// Whether the resolvent of x and y, when it is made, is the clause.
fn merges_to(
    scratch: &mut Scratch,
    x: &[u16],
    y: &[u16],
    a: usize,
    ranks: &Ranks,
    clause: &[u16],
) -> bool
    requires a_bound { a < 1024 }
    requires ordered { Ordered x.now × Ordered y.now }
    ensures { (q : List ℕ) → good_prefix q ≡ true → ranks.now ≡ ranks_of q → result ≡ becomes clause.now (tidy q (resolvent a x.now y.now)) }
{
    match resolve_pair(scratch, x, y, a, ranks) {
        Some(m) => equal(clause, &scratch[..m]),
        None => false,
    }
}

// The same, where the clause mostly has a literal that neither has.
fn is_resolvent(
    scratch: &mut Scratch,
    x: &[u16],
    y: &[u16],
    a: usize,
    ranks: &Ranks,
    clause: &[u16],
) -> bool
    requires a_bound { a < 1024 }
    requires ordered { Ordered x.now × Ordered y.now }
    ensures { (q : List ℕ) → good_prefix q ≡ true → ranks.now ≡ ranks_of q → result ≡ becomes clause.now (tidy q (resolvent a x.now y.now)) }
{
    covered(clause, x, y) && merges_to(scratch, x, y, a, ranks, clause)
}

// The first literals of a clause.
fn front(clause: &[u16]) -> &[u16]
    ensures { result.now ≡ take 32 clause.now }
{
    let end = LONG.min(clause.len());
    &clause[..end]
}

// Whether the resolvent of x and y is the clause, a long one, where y mostly has a literal among its first that the clause lacks.
fn gives_long(
    scratch: &mut Scratch,
    x: &[u16],
    y: &[u16],
    a: usize,
    ranks: &Ranks,
    clause: &[u16],
) -> bool
    requires a_bound { a < 1024 }
    requires ordered { Ordered x.now × Ordered y.now }
    ensures { (q : List ℕ) → good_entries q ≡ true → ranks.now ≡ ranks_of q → result ≡ becomes clause.now (tidy q (resolvent a x.now y.now)) }
{
    let out = 2 * a as u16 + 1;
    fits_in(front(y), out, ranks, clause) && merges_to(scratch, x, y, a, ranks, clause)
}

// The same of any clause, where y mostly has a literal that it lacks.
pub fn gives(
    scratch: &mut Scratch,
    x: &[u16],
    y: &[u16],
    a: usize,
    ranks: &Ranks,
    clause: &[u16],
) -> bool
    requires a_bound { a < 1024 }
    requires ordered { Ordered x.now × Ordered y.now }
    ensures { (q : List ℕ) → good_entries q ≡ true → ranks.now ≡ ranks_of q → result ≡ becomes clause.now (tidy q (resolvent a x.now y.now)) }
{
    if LONG <= clause.len() {
        return gives_long(scratch, x, y, a, ranks, clause);
    }
    let out = 2 * a as u16 + 1;
    fits_in(y, out, ranks, clause) && is_resolvent(scratch, x, y, a, ranks, clause)
}
