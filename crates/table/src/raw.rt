// A raw clause on its way into the table, literal by literal. The scratch of 1,023 numbers holds its literals ascending, each once,
// as long as no variable has both phases, so a raw clause may be of any length.
ghost use Rattle.std.specs.Prelude.{◌≡◌, ℕ, ◌≤◌, ◌<◌, true, List, [], ◌∷◌, ◌++◌, IfSome};
ghost use Rattle.meaning.specs.Lists.{all_of};
ghost use Rattle.meaning.specs.Formula.{Formula};
ghost use Rattle.meaning.specs.Tidy.{tidy};
ghost use Rattle.meaning.specs.WellFormed.{good_prefix};
ghost use Rattle.table.specs.Table.{with_raw, Holds, Held};
ghost use Rattle.table.specs.Answer.{Became};
ghost use Rattle.table.specs.Ranks.{ranks_of};
ghost use Rattle.table.specs.Pending.{in_range, Pends, Pended, tidied_in};

use crate::clauses::add_clause;
use crate::insert::{insert_at, place_in, stands_at};
use crate::reduce::reduce_in;
use crate::{Counts, Pending, Ranks, Scratch};

// One literal more. Both literals of its variable have the same place, where they are not there.
pub fn put_literal(scratch: &mut Scratch, p: Pending, literal: u16) -> Pending
    requires pended { Pended scratch.old p }
    requires le_literal { (2 ≤ literal) × (literal < 2048) }
    ensures { (raw : List ℕ) → Pends raw scratch.old p → Pends (raw ++ (literal ∷ [])) scratch.new result }
{
    let n = p?;
    let plain = literal - literal % 2;
    let negated = plain + 1;
    let at = place_in(&scratch[..n], plain);
    if stands_at(&scratch[..n], at, plain) {
        return if literal == plain { Some(n) } else { None };
    }
    if stands_at(&scratch[..n], at, negated) {
        return if literal == negated { Some(n) } else { None };
    }
    insert_at(scratch, n, at, literal);
    Some(n + 1)
}

// All literals of a clause more.
pub fn put_clause(scratch: &mut Scratch, p: Pending, clause: &[u16]) -> Pending
    requires pended { Pended scratch.old p }
    requires clause_value { all_of in_range clause.now ≡ true }
    ensures { (raw : List ℕ) → Pends raw scratch.old p → Pends (raw ++ clause.now) scratch.new result }
{
    let mut q = p;
    for literal in clause {
        q = put_literal(scratch, q, *literal);
    }
    q
}

// The raw clause is complete: it is tidied in the scratch, by the ranks of the prefix. Says how many literals it has then; None where
// it is dropped, since it has both phases of a variable.
pub fn tidy_in(scratch: &mut Scratch, p: Pending, ranks: &Ranks) -> Option<usize>
    requires { Pended scratch.old p }
    ensures within { IfSome result (λ m. m ≤ 1023) }
    ensures tidied { (raw q : List ℕ) → Pends raw scratch.old p → good_prefix q ≡ true → ranks.now ≡ ranks_of q → tidied_in scratch.new result ≡ tidy q raw }
{
    let n = p?;
    Some(reduce_in(scratch, n, ranks))
}

// The same, and it is added unless an equal one is there.
pub fn close_clause(
    t: &mut [u16],
    c: Counts,
    scratch: &mut Scratch,
    p: Pending,
    ranks: &Ranks,
) -> Option<Counts>
    requires held { Held t.old c }
    requires pended { Pended scratch.old p }
    ensures { (φ : Formula) (raw : List ℕ) → Holds φ t.old c → good_prefix φ.prefix ≡ true → ranks.now ≡ ranks_of φ.prefix → Pends raw scratch.old p → Became φ (with_raw φ raw) c.second result t.new }
{
    // Kept: no closure, since adding lends the table, and the scratch beside it.
    match tidy_in(scratch, p, ranks) {
        Some(m) => add_clause(t, c, &scratch[..m]),
        None => Some(c),
    }
}

// A whole raw clause, tidied and added unless an equal one is there. What the scratch holds before does not matter.
pub fn add_raw(
    t: &mut [u16],
    c: Counts,
    scratch: &mut Scratch,
    raw: &[u16],
    ranks: &Ranks,
) -> Option<Counts>
    requires held { Held t.old c }
    requires scratch_len { all_of in_range raw.now ≡ true }
    ensures { (φ : Formula) → Holds φ t.old c → good_prefix φ.prefix ≡ true → ranks.now ≡ ranks_of φ.prefix → Became φ (with_raw φ raw.now) c.second result t.new }
{
    let p = put_clause(scratch, Some(0), raw);
    close_clause(t, c, scratch, p, ranks)
}
