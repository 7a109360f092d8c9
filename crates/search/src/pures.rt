// Kind 2, pure: the leftmost variable one of whose literals is in no clause.
ghost use Rattle.std.specs.Prelude.{◌≡◌, ℕ, ◌<◌, not, ◌&&◌};
ghost use Rattle.meaning.specs.Formula.{Formula, plain, negated};
ghost use Rattle.rules.specs.Entry as rules;
ghost use Rattle.rules.specs.Simplify.{occurs};
ghost use Rattle.rules.specs.Choice.{candidate};
ghost use Rattle.table.specs.Table.{Holds, Held};
ghost use Rattle.index.specs.Build.{Tallies, Tallied};
ghost use Rattle.search.specs.Candidates.{found_as};

use index::times_in;
use table::Counts;

// Whether one of the two literals of a variable is in no clause.
fn is_lone(tally: &[u16], v: u16) -> bool
    requires tallied { Tallied tally.now }
    requires v_bound { v < 32768 }
    ensures { (φ : Formula) → Tallies φ tally.now → result ≡ not (occurs (plain v) φ.clauses && occurs (negated v) φ.clauses) }
{
    times_in(tally, 2 * v) == 0 || times_in(tally, 2 * v + 1) == 0
}

pub fn find_pure(t: &[u16], c: Counts, tally: &[u16]) -> Option<(usize, usize)>
    requires held { Held t.now c }
    requires tallied { Tallied tally.now }
    ensures { (φ : Formula) (E : ℕ) → Holds φ t.now c → Tallies φ tally.now → result ≡ found_as (candidate E φ rules.pure) }
{
    for i in 0..c.variables {
        let v = t[i] / 2;
        if is_lone(tally, v) {
            return Some((v as usize, 0));
        }
    }
    None
}
