// Adding a clause that stands in the front of a scratch, with hints where an equal one may be. Hints are numbers of clauses; they stand in
// the scratch from 64 on, at a place told by the clause's literals. A hinted clause is compared before it is believed, so nothing has to be
// known of the hints: whatever the scratch holds there, the table becomes the same.
#![tactic(auto)]

ghost use Rattle.std.specs.Prelude.{◌≡◌, ℕ, ◌+◌, ◌≤◌, ◌<◌, true, List, length, take};
ghost use Rattle.meaning.specs.Lists.{any_of, same};
ghost use Rattle.meaning.specs.Formula.{Formula};
ghost use Rattle.meaning.specs.WellFormed.{good_prefix};
ghost use Rattle.table.specs.Table.{with_new_clause, with_raw, Holds, Held};
ghost use Rattle.table.specs.Answer.{Became};
ghost use Rattle.table.specs.Ranks.{ranks_of};
ghost use Rattle.table.specs.Pending.{Pends, Pended};

use stamps::hash_of;
use table::{Counts, Pending, Ranks, Scratch, clause_at, equal, first_equal, push_clause, tidy_in};

// Whether the hint is right: it is the number of a clause, and that clause equals this one.
fn is_right(t: &[u16], c: Counts, clause: &[u16], hint: usize) -> bool
    requires { Held t.now c }
    ensures hint_lt_clauses { result ≡ true → hint < c.clauses }
    ensures clause_value { (φ : Formula) → Holds φ t.now c → result ≡ true → any_of (same clause.now) φ.clauses ≡ true }
{
    hint < c.clauses && equal(clause, clause_at(t, c, hint))
}

// The number becomes the first of the two hints at a place, and what was the first the second, unless the clause of m literals reaches there.
fn remember(scratch: &mut Scratch, m: usize, at: usize, number: usize)
    requires at_in_bounds { at + 1 < length scratch.old }
    requires number_bound { number ≤ 2047 }
    ensures { take m scratch.new ≡ take m scratch.old }
{
    if at < m {
        return;
    }
    scratch[at + 1] = scratch[at];
    scratch[at] = number as u16;
}

// The clause that the first m numbers of the scratch are: after the others, unless an equal one is there.
fn add_hinted(t: &mut [u16], c: Counts, scratch: &mut Scratch, m: usize) -> Option<Counts>
    requires held { Held t.old c }
    requires size_bound { m ≤ 1023 }
    ensures { (φ : Formula) → Holds φ t.old c → Became φ (with_new_clause φ (take m scratch.old)) c.second result t.new }
{
    let at = 64 + (hash_of(&scratch[..m]) % 958) as usize;
    let first = scratch[at] as usize;
    if is_right(t, c, &scratch[..m], first) {
        return Some(c);
    }
    let second = scratch[at + 1] as usize;
    if is_right(t, c, &scratch[..m], second) {
        // It is asked for first the next time.
        remember(scratch, m, at, second);
        return Some(c);
    }
    let k = first_equal(t, c, &scratch[..m], c.clauses);
    remember(scratch, m, at, k);
    if k < c.clauses {
        return Some(c);
    }
    push_clause(t, c, &scratch[..m])
}

// The raw clause is complete: it is tidied by the ranks of the prefix, and added unless an equal one is there.
pub fn close_hinted(
    t: &mut [u16],
    c: Counts,
    scratch: &mut Scratch,
    p: Pending,
    ranks: &Ranks,
) -> Option<Counts>
    requires held { Held t.old c }
    requires pended { Pended scratch.old p }
    ensures { (φ : Formula) (raw : List ℕ) → Holds φ t.old c → good_prefix φ.prefix ≡ true → ranks.now ≡ ranks_of φ.prefix → Pends raw scratch.old p → Became φ (with_raw φ raw) c.second result t.new }
{
    // Kept: no closure, since adding lends the table, and the scratch beside it.
    match tidy_in(scratch, p, ranks) {
        Some(m) => add_hinted(t, c, scratch, m),
        None => Some(c),
    }
}
