// How often each literal stands in the clauses: enough for kind 2, and sooner done than the index.
ghost use Rattle.std.specs.Prelude.{◌≡◌, true, length};
ghost use Rattle.meaning.specs.Formula.{Formula};
ghost use Rattle.meaning.specs.WellFormed.{well_formed};
ghost use Rattle.table.specs.Table.{Holds};
ghost use Rattle.index.specs.Index.{clauses_with};
ghost use Rattle.index.specs.Build.{HeldWell, tally_of, Tallies, Tallied};

use crate::starts::count_literals;
use table::Counts;

// Writes the tally of a formula into the idle table, whatever that holds.
pub fn put_tally(t: &[u16], c: Counts, tally: &mut [u16])
    requires held_well { HeldWell t.now c }
    requires tally_len { length tally.old ≡ 11261 }
    ensures { (φ : Formula) → Holds φ t.now c → well_formed φ ≡ true → tally.new ≡ tally_of φ.clauses }
{
    let start = Counts::LITERALS_AT;
    let end = Counts::LITERALS_AT + c.literals;
    count_literals(&t[start..end], tally);
}

// In how many clauses the literal stands; one over 2,047 is in none.
pub fn times_in(tally: &[u16], literal: u16) -> u16
    requires { Tallied tally.now }
    ensures { (φ : Formula) → Tallies φ tally.now → result ≡ length (clauses_with φ.clauses literal) }
{
    if 2047 < literal {
        return 0;
    }
    let l = literal as usize;
    tally[l]
}
