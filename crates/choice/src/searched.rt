// How many of the first clauses of a result were searched before the step: those that it leaves as they were.
ghost use Rattle.std.specs.Prelude.{◌≡◌, ◌<◌, true};
ghost use Rattle.meaning.specs.Formula.{Formula};
ghost use Rattle.rules.specs.Entry.{pure};
ghost use Rattle.rules.specs.Simplify.{pure_permitted};
ghost use Rattle.rules.specs.Step.{result_of};
ghost use Rattle.table.specs.Table.{Holds, Held};
ghost use Rattle.index.specs.Build.{Tallies, Tallied};
ghost use Rattle.search.specs.Searched.{SearchedTo};

use index::times_in;
use table::{Counts, contains};

// When the pure variable a goes: of an existential the clauses with it go, and the others stay. Of a universal its literal goes, and nothing
// is known of what is left of its clauses.
pub fn searched_without(t: &[u16], c: Counts, tally: &[u16], a: usize, searched: usize) -> usize
    requires held { Held t.now c }
    requires tallied { Tallied tally.now }
    requires a_bound { a < 2048 }
    ensures { (φ : Formula) → Holds φ t.now c → Tallies φ tally.now → pure_permitted φ a ≡ true → SearchedTo φ searched → SearchedTo (result_of φ pure a 0) result }
{
    let literal = 2 * a as u16;
    let gone = times_in(tally, literal) as usize + times_in(tally, literal + 1) as usize;
    if gone == 0 {
        return searched;
    }
    if contains(&t[..c.variables], literal + 1) {
        return 0;
    }
    searched.saturating_sub(gone)
}
