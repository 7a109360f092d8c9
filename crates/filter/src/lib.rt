// Adding clauses to a table with a filter beside it. The filter has the stamps of all clauses of the table, so a clause whose stamp it
// lacks is new, and is added without a search. The filter has 8 words, 512 bits: most steps put few stamps in, and where there are many
// the clauses are looked for all the same.
// A filter may also have the stamps of some clauses of the table only. It then serves a clause that is none of the others.
#![tactic(auto)]

ghost use Rattle.std.specs.Prelude.{◌≡◌, ℕ, true, false, List, length, Some};
ghost use Rattle.meaning.specs.Lists.{any_of, same};
ghost use Rattle.meaning.specs.Formula.{Formula};
ghost use Rattle.meaning.specs.WellFormed.{good_prefix};
ghost use Rattle.table.specs.Table.{with_new_clause, with_raw, Holds, Held};
ghost use Rattle.table.specs.Answer.{Became};
ghost use Rattle.table.specs.Ranks.{ranks_of};
ghost use Rattle.table.specs.Pending.{Pends, Pended};
ghost use Rattle.filter.specs.Filter.{Covers, CoversBut};

use stamps::{has_stamp, stamp};
use table::{Counts, Pending, Ranks, Scratch, add_clause, clause_at, push_clause, tidy_in};

// Puts the stamps of all clauses of the table into the filter.
pub fn cover(t: &[u16], c: Counts, filter: &mut [u64])
    requires held { Held t.now c }
    requires filter_len { length filter.old ≡ 8 }
    ensures { Covers t.now c filter.new }
{
    for i in 0..c.clauses {
        stamp(filter, clause_at(t, c, i));
    }
}

// The clause after the others, unless an equal one is there.
// Kept: three adders and no closure, since each lends the table, and the filter beside it, in its own way.
fn add_filtered(t: &mut [u16], c: Counts, clause: &[u16], filter: &mut [u64]) -> Option<Counts>
    requires held { Held t.old c }
    requires covers { Covers t.old c filter.old }
    ensures became { (φ : Formula) → Holds φ t.old c → Became φ (with_new_clause φ clause.now) c.second result t.new }
    ensures covers_2 { (d : Counts) → result ≡ Some d → Covers t.new d filter.new }
{
    if stamp(filter, clause) {
        return add_clause(t, c, clause);
    }
    push_clause(t, c, clause)
}

// The raw clause is complete: it is tidied by the ranks of the prefix, and added unless an equal one is there.
pub fn close_filtered(
    t: &mut [u16],
    c: Counts,
    scratch: &mut Scratch,
    p: Pending,
    ranks: &Ranks,
    filter: &mut [u64],
) -> Option<Counts>
    requires held { Held t.old c }
    requires pended { Pended scratch.old p }
    requires covers { Covers t.old c filter.old }
    ensures became { (φ : Formula) (raw : List ℕ) → Holds φ t.old c → good_prefix φ.prefix ≡ true → ranks.now ≡ ranks_of φ.prefix → Pends raw scratch.old p → Became φ (with_raw φ raw) c.second result t.new }
    ensures covers_2 { (d : Counts) → result ≡ Some d → Covers t.new d filter.new }
{
    // Kept: no closure, since adding lends the table, and the filter beside it.
    match tidy_in(scratch, p, ranks) {
        Some(m) => add_filtered(t, c, &scratch[..m], filter),
        None => Some(c),
    }
}

// A clause that is none of those whose stamps may be missing: after the others, unless an equal one is there.
// Kept: see add_filtered.
pub fn add_apart(t: &mut [u16], c: Counts, clause: &[u16], filter: &[u64]) -> Option<Counts>
    requires held { Held t.old c }
    requires filter_len { length filter.now ≡ 8 }
    ensures { (φ : Formula) (others : List (List ℕ)) → Holds φ t.old c → CoversBut others t.old c filter.now → any_of (same clause.now) others ≡ false → Became φ (with_new_clause φ clause.now) c.second result t.new }
{
    if has_stamp(filter, clause) {
        return add_clause(t, c, clause);
    }
    push_clause(t, c, clause)
}

// The clause after the others, unless an equal one is there; any of them may be equal. Its stamp goes into the filter.
// Kept: see add_filtered.
fn add_stamped(t: &mut [u16], c: Counts, clause: &[u16], filter: &mut [u64]) -> Option<Counts>
    requires held { Held t.old c }
    requires filter_len { length filter.old ≡ 8 }
    ensures became { (φ : Formula) → Holds φ t.old c → Became φ (with_new_clause φ clause.now) c.second result t.new }
    ensures by_index { (others : List (List ℕ)) (d : Counts) → CoversBut others t.old c filter.old → result ≡ Some d → CoversBut others t.new d filter.new }
{
    stamp(filter, clause);
    add_clause(t, c, clause)
}

// The same for a raw clause that is complete: it is tidied by the ranks of the prefix.
pub fn close_stamped(
    t: &mut [u16],
    c: Counts,
    scratch: &mut Scratch,
    p: Pending,
    ranks: &Ranks,
    filter: &mut [u64],
) -> Option<Counts>
    requires held { Held t.old c }
    requires pended { Pended scratch.old p }
    requires filter_len { length filter.old ≡ 8 }
    ensures became { (φ : Formula) (raw : List ℕ) → Holds φ t.old c → good_prefix φ.prefix ≡ true → ranks.now ≡ ranks_of φ.prefix → Pends raw scratch.old p → Became φ (with_raw φ raw) c.second result t.new }
    ensures by_index { (others : List (List ℕ)) (d : Counts) → CoversBut others t.old c filter.old → result ≡ Some d → CoversBut others t.new d filter.new }
{
    // Kept: no closure, since adding lends the table, and the filter beside it.
    match tidy_in(scratch, p, ranks) {
        Some(m) => add_stamped(t, c, &scratch[..m], filter),
        None => Some(c),
    }
}
