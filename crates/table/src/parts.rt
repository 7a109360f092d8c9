// Reading a table that holds a formula: its clauses as parts of it.
ghost use Rattle.std.specs.Prelude.{◌≡◌, ◌+◌, ◌≤◌, ◌<◌, [], ltb, get_or, take};
ghost use Rattle.meaning.specs.Lists.{any_of, same};
ghost use Rattle.meaning.specs.Formula.{Formula};
ghost use Rattle.table.specs.Table.{start_of, Holds, Held};

use crate::Counts;
use crate::tests::equal;

// Where clause i begins in the table; for i the number of clauses, where the last one ends.
fn start_of(t: &[u16], c: Counts, i: usize) -> usize
    requires held { Held t.now c }
    requires i_le_clauses { i ≤ c.clauses }
    ensures { (φ : Formula) → Holds φ t.now c → result ≡ 3070 + start_of φ.clauses i }
{
    if i == 0 {
        return Counts::LITERALS_AT;
    }
    let k = i - 1;
    let e = Counts::ENDS_AT + k;
    Counts::LITERALS_AT + t[e] as usize
}

// Clause i, as a part of the table.
pub fn clause_at(t: &[u16], c: Counts, i: usize) -> &[u16]
    requires held { Held t.now c }
    requires i_lt_clauses { i < c.clauses }
    ensures { (φ : Formula) → Holds φ t.now c → result.now ≡ get_or φ.clauses i [] }
{
    let start = start_of(t, c, i);
    let end = start_of(t, c, i + 1);
    &t[start..end]
}

// The first clause before `until` that equals this one; `until` where none does.
// Kept: the bound and no None, since is_before compares with it.
pub fn first_equal(t: &[u16], c: Counts, clause: &[u16], until: usize) -> usize
    requires held { Held t.now c }
    requires until_le_clauses { until ≤ c.clauses }
    ensures upper_bound { result ≤ until }
    ensures until_value { (φ : Formula) → Holds φ t.now c → ltb result until ≡ any_of (same clause.now) (take until φ.clauses) }
{
    for i in 0..until {
        if equal(clause, clause_at(t, c, i)) {
            return i;
        }
    }
    until
}

// Whether a clause equal to this one is among the first `until` of the table.
pub fn is_before(t: &[u16], c: Counts, clause: &[u16], until: usize) -> bool
    requires held { Held t.now c }
    requires until_le_clauses { until ≤ c.clauses }
    ensures { (φ : Formula) → Holds φ t.now c → result ≡ any_of (same clause.now) (take until φ.clauses) }
{
    first_equal(t, c, clause, until) < until
}

// Whether a clause equal to this one is in the table.
pub fn is_present(t: &[u16], c: Counts, clause: &[u16]) -> bool
    requires { Held t.now c }
    ensures { (φ : Formula) → Holds φ t.now c → result ≡ any_of (same clause.now) φ.clauses }
{
    is_before(t, c, clause, c.clauses)
}
