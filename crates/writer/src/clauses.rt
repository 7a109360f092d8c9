// The lines of all clauses of a table that holds a formula: their size, and the lines.
ghost use Rattle.meaning.specs.Formula.{Formula};
ghost use Rattle.qdimacs.specs.Write.{clause_lines};
ghost use Rattle.table.specs.Table.{Holds, Held};
ghost use Rattle.lines.specs.Written.{Room, Written, Sized};
ghost use Rattle.writer.specs.Written.{most_clauses};

use lines::clauses::{clause_size, write_clause};
use table::{Counts, clause_at};

// How many bytes the clauses take.
pub fn clauses_size(t: &[u16], c: Counts) -> usize
    requires { Held t.now c }
    ensures { (φ : Formula) → Holds φ t.now c → Sized (clause_lines φ.clauses) most_clauses result }
{
    let mut n = 0;
    for i in 0..c.clauses {
        n += clause_size(clause_at(t, c, i));
    }
    n
}

pub fn write_clauses(out: &mut [u8], start: usize, t: &[u16], c: Counts) -> usize
    requires held { Held t.now c }
    requires room { (φ : Formula) → Holds φ t.now c → Room (clause_lines φ.clauses) start out.old }
    ensures { (φ : Formula) → Holds φ t.now c → Written (clause_lines φ.clauses) start out.old out.new result }
{
    let mut at = start;
    for i in 0..c.clauses {
        at = write_clause(out, at, clause_at(t, c, i));
    }
    at
}
