// Whether a table that comes from outside holds a well formed formula: the layout, the prefix, each clause, all clauses.
ghost use Rattle.std.specs.Prelude.{◌≡◌, ℕ, ◌<◌, true, ◌&&◌, List, [], length, get_or, take};
ghost use Rattle.meaning.specs.Lists.{all_of, any_of, same};
ghost use Rattle.meaning.specs.Formula.{Formula};
ghost use Rattle.meaning.specs.WellFormed.{ascends, tidy_clause, distinct};
ghost use Rattle.stamps.specs.Stamp.{stamped, with_stamp};
ghost use Rattle.table.specs.Table.{Holds, Held};
ghost use Rattle.table.specs.Ranks.{ranks_of, good_entries};
ghost use Rattle.judging.specs.Layout.{ranked};
ghost use Rattle.judging.specs.Check.{good_table};

use crate::layout::layout_ok;
use stamps::stamp;
use table::{Counts, Ranks, all_stay, clause_at, is_before, rank_of, rank_prefix};

// Whether the variables of a clause ascend.
fn rises(clause: &[u16]) -> bool
    ensures { result ≡ ascends clause.now }
{
    for i in 1..clause.len() {
        if clause[i] / 2 <= clause[i - 1] / 2 {
            return false;
        }
    }
    true
}

// Whether the literal's variable has a rank.
fn has_rank(ranks: &Ranks, literal: u16) -> bool
    ensures { result ≡ ranked ranks.now literal }
{
    literal <= 2047 && rank_of(ranks, literal) != 0
}

// Whether every variable of a clause has a rank.
fn all_ranked(ranks: &Ranks, clause: &[u16]) -> bool
    ensures { result ≡ all_of (ranked ranks.now) clause.now }
{
    clause.iter().all(|literal| has_rank(ranks, *literal))
}

// Whether a clause is tidy, by the ranks of the prefix.
fn is_tidy(ranks: &Ranks, clause: &[u16]) -> bool
    ensures { (p : List ℕ) → good_entries p ≡ true → ranks.now ≡ ranks_of p → result ≡ tidy_clause p clause.now }
{
    rises(clause) && all_ranked(ranks, clause) && all_stay(ranks, clause)
}

// Whether every clause of the table is tidy.
fn all_tidy(t: &[u16], c: Counts, ranks: &Ranks) -> bool
    requires { Held t.now c }
    ensures { (φ : Formula) → Holds φ t.now c → good_entries φ.prefix ≡ true → ranks.now ≡ ranks_of φ.prefix → result ≡ all_of (tidy_clause φ.prefix) φ.clauses }
{
    for i in 0..c.clauses {
        if !is_tidy(ranks, clause_at(t, c, i)) {
            return false;
        }
    }
    true
}

// Whether clause i equals one before it. The filter has the stamps of those before it, so they are looked through only where the
// clause's own stamp is there. Its stamp is put in.
fn is_repeated(t: &[u16], c: Counts, i: usize, filter: &mut [u64; 512]) -> bool
    requires held { Held t.now c }
    requires place { i < c.clauses }
    requires before { (φ : Formula) → Holds φ t.now c → all_of (stamped filter.old) (take i φ.clauses) ≡ true }
    ensures value { (φ : Formula) → Holds φ t.now c → result ≡ any_of (same (get_or φ.clauses i [])) (take i φ.clauses) }
    ensures filter_after { (φ : Formula) → Holds φ t.now c → filter.new ≡ with_stamp filter.old (get_or φ.clauses i []) }
{
    let clause = clause_at(t, c, i);
    stamp(filter, clause) && is_before(t, c, clause, i)
}

// Whether no clause of the table stands there twice. With 2,047 clauses and 32,768 bits, few have to be looked for.
fn all_differ(t: &[u16], c: Counts) -> bool
    requires { Held t.now c }
    ensures { (φ : Formula) → Holds φ t.now c → result ≡ distinct φ.clauses }
{
    let mut filter = [0u64; 512];
    for i in 0..c.clauses {
        if is_repeated(t, c, i, &mut filter) {
            return false;
        }
    }
    true
}

// Whether the clauses of a table that holds a formula over a good prefix are tidy and distinct.
fn clauses_good(t: &[u16], c: Counts, ranks: &Ranks) -> bool
    requires { Held t.now c }
    ensures { (φ : Formula) → Holds φ t.now c → good_entries φ.prefix ≡ true → ranks.now ≡ ranks_of φ.prefix → result ≡ (all_of (tidy_clause φ.prefix) φ.clauses && distinct φ.clauses) }
{
    all_tidy(t, c, ranks) && all_differ(t, c)
}

// Whether the table and the counts are those of a well formed formula. Any table, any length, any counts.
pub fn well_formed(t: &[u16], c: Counts) -> bool
    ensures { result ≡ good_table t.now c }
{
    if !layout_ok(t, c) {
        return false;
    }
    let mut ranks = [0u16; 1024];
    rank_prefix(&t[..c.variables], &mut ranks) && clauses_good(t, c, &ranks)
}
