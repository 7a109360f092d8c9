// The numbers of the clauses, put clause by clause at the ends of the lists of their literals; then the signatures.
ghost use Rattle.std.specs.Prelude.{◌≡◌, ℕ, ◌+◌, ◌<◌, true, List, length, get_or, take};
ghost use Rattle.meaning.specs.Formula.{Formula};
ghost use Rattle.meaning.specs.WellFormed.{well_formed};
ghost use Rattle.table.specs.Table.{Holds};
ghost use Rattle.index.specs.Index.{clauses_with, lists_of, index_of};
ghost use Rattle.index.specs.Build.{with_number, HeldWell, TallyIn, Filled, Turn, Turned};

use crate::lists::NUMBERS_AT;
use crate::signs::put_signatures;
use crate::starts::list_starts;
use table::{Counts, clause_at};

// One number more in the list of a literal, whose place tells where that ends.
fn put_number(index: &mut [u16], literal: u16, number: u16)
    requires { (length index.old ≡ 11261) × (literal < 2048) × (get_or index.old literal 0 < 8191) }
    ensures { index.new ≡ with_number index.old literal number }
{
    let l = literal as usize;
    let end = index[l];
    let at = NUMBERS_AT + end as usize;
    index[at] = number;
    index[l] = end + 1;
}

// The next clause, in the lists of its literals.
fn put_clause(index: &mut [u16], clause: &[u16], number: u16)
    requires { Turned index.old clause.now number }
    ensures { (cs : List (List ℕ)) → Turn cs index.old clause.now number → Filled cs (clauses_with (take (number + 1) cs)) index.new }
{
    for literal in clause {
        put_number(index, *literal, number);
    }
}

// The lists of all literals, where their tally was.
fn put_lists(t: &[u16], c: Counts, index: &mut [u16])
    requires held_well { HeldWell t.now c }
    requires index_len { (length index.old ≡ 11261) × TallyIn t.now c index.old }
    ensures { (φ : Formula) → Holds φ t.now c → well_formed φ ≡ true → index.new ≡ lists_of φ.clauses }
{
    list_starts(index);
    for i in 0..c.clauses {
        put_clause(index, clause_at(t, c, i), i as u16);
    }
}

// Writes the index of a formula into the idle table, which holds the tally: so the literals are counted once for both.
pub fn build_index(t: &[u16], c: Counts, index: &mut [u16])
    requires held_well { HeldWell t.now c }
    requires index_len { (length index.old ≡ 11261) × TallyIn t.now c index.old }
    ensures { (φ : Formula) → Holds φ t.now c → well_formed φ ≡ true → index.new ≡ index_of φ.clauses }
{
    put_lists(t, c, index);
    put_signatures(t, c, index);
}
