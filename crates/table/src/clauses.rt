// Writing a table that holds a formula: one clause more, one variable more, all zero.
ghost use Rattle.std.specs.Prelude.{◌≡◌, ◌≤◌, ◌++◌, length, drop, replicate};
ghost use Rattle.meaning.specs.Formula.{Formula};
ghost use Rattle.table.specs.Table.{empty_formula, table_of, with_clause, with_new_clause, with_variable, Holds, Held};
ghost use Rattle.table.specs.Answer.{Became};

use crate::Counts;
use crate::parts::is_present;

// Writes a clause at the front of a table's free tail.
fn write_clause(tail: &mut [u16], clause: &[u16])
    requires { length clause.now ≤ length tail.old }
    ensures { tail.new ≡ clause.now ++ drop (length clause.now) tail.old }
{
    // Kept: number by number, since the archive for C would ask for memmove with `copy_from_slice`, and asks for no more than memcpy and memset.
    for i in 0..clause.len() {
        tail[i] = clause[i];
    }
}

// The clause after the others, where the table has room for it.
pub fn push_clause(t: &mut [u16], c: Counts, clause: &[u16]) -> Option<Counts>
    requires { Held t.old c }
    ensures { (φ : Formula) → Holds φ t.old c → Became φ (with_clause φ clause.now) c.second result t.new }
{
    let n = c.clauses;
    let m = c.literals;
    if Counts::CLAUSES <= n || Counts::LITERALS - m < clause.len() {
        return None;
    }
    let at = Counts::LITERALS_AT + m;
    write_clause(&mut t[at..], clause);
    let e = Counts::ENDS_AT + n;
    t[e] = (m + clause.len()) as u16;
    Some(c.with_clause(clause.len()))
}

// The clause after the others, unless an equal one is there.
pub fn add_clause(t: &mut [u16], c: Counts, clause: &[u16]) -> Option<Counts>
    requires { Held t.old c }
    ensures { (φ : Formula) → Holds φ t.old c → Became φ (with_new_clause φ clause.now) c.second result t.new }
{
    if is_present(t, c, clause) {
        return Some(c);
    }
    push_clause(t, c, clause)
}

// One more entry at the right end of the prefix. A variable over 1,023 does not fit.
pub fn push_variable(t: &mut [u16], c: Counts, entry: u16) -> Option<Counts>
    requires { Held t.old c }
    ensures { (φ : Formula) → Holds φ t.old c → Became φ (with_variable φ entry) c.second result t.new }
{
    let at = c.variables;
    if Counts::VARIABLES <= at || 2047 < entry {
        return None;
    }
    t[at] = entry;
    Some(c.with_variable())
}

// Zeroes a slice.
// Kept: a contract in our words, which the proofs above cite.
pub fn clear(s: &mut [u16])
    ensures { s.new ≡ replicate (length s.old) 0 }
{
    s.fill(0);
}

// All zero: the table of the empty formula.
pub fn zero(t: &mut [u16])
    requires { length t.old ≡ 11261 }
    ensures { t.new ≡ table_of empty_formula }
{
    clear(t);
}
