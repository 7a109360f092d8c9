// Where the list of each literal begins: the literals are counted, then the counts are summed.
ghost use Rattle.std.specs.Prelude.{◌≡◌, ◌≤◌, true, length};
ghost use Rattle.meaning.specs.Lists.{all_of};
ghost use Rattle.meaning.specs.Formula.{Formula};
ghost use Rattle.table.specs.Table.{all_literals};
ghost use Rattle.table.specs.Ranks.{small};
ghost use Rattle.index.specs.Build.{counts_in, starts_in, Tallies, Tallied};

use crate::lists::NUMBERS_AT;
use table::zero;

// How often each literal stands among these, whatever the index held.
pub fn count_literals(literals: &[u16], index: &mut [u16])
    requires { (length index.old ≡ 11261) × (length literals.now ≤ 8191) × (all_of small literals.now ≡ true) }
    ensures { index.new ≡ counts_in literals.now }
{
    zero(index);
    for literal in literals {
        let l = *literal as usize;
        index[l] += 1;
    }
}

// How many literals are lower than each literal, where a tally was: there its list begins.
// Kept: by number, since the proof speaks of the places below it.
pub fn list_starts(index: &mut [u16])
    requires { Tallied index.old }
    ensures { (φ : Formula) → Tallies φ index.old → index.new ≡ starts_in (all_literals φ.clauses) }
{
    let mut sum: u16 = 0;
    for l in 0..NUMBERS_AT {
        let n = index[l];
        index[l] = sum;
        sum += n;
    }
}
