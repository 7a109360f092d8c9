// Two ascending clauses, walked together: at each turn the lower of the two literals ahead is passed. Whether one is a part of the other,
// and whether one strengthens the other, is found in one walk.
#![tactic(auto)]

ghost use Rattle.std.specs.Prelude.{◌≡◌, ℕ, true, List};
ghost use Rattle.meaning.specs.Lists.{part_of};
ghost use Rattle.meaning.specs.WellFormed.{ascends};
ghost use Rattle.table.specs.Ranks.{ranks_of, good_entries};
ghost use Rattle.walks.specs.Walks.{some_strengthens};

use permits::is_existential;
use table::Ranks;

// Whether every literal of x is in y.
// Kept: the index into x is counted by hand, here and below, since it goes up at some turns only.
pub fn is_part(x: &[u16], y: &[u16]) -> bool
    ensures { ascends x.now ≡ true → ascends y.now ≡ true → result ≡ part_of x.now y.now }
{
    let mut i = 0;
    for &k in y {
        if x.len() <= i {
            return true;
        }
        let l = x[i];
        if l == k {
            i += 1;
            continue;
        }
        if l < k {
            return false;
        }
    }
    x.len() <= i
}

// Whether some literal of x strengthens y. Up to that literal the two agree; there y has its opposite, which stands where the literal
// would; and y has all of x that is behind.
pub fn strengthens_part(ranks: &Ranks, x: &[u16], y: &[u16]) -> bool
    ensures { (p : List ℕ) → ranks.now ≡ ranks_of p → good_entries p ≡ true → ascends x.now ≡ true → ascends y.now ≡ true → result ≡ some_strengthens p x.now y.now }
{
    let mut i = 0;
    for (j, &k) in y.iter().enumerate() {
        if x.len() <= i {
            return false;
        }
        let l = x[i];
        if l == k {
            i += 1;
            continue;
        }
        let v = l / 2;
        if k / 2 < v {
            continue;
        }
        if v < k / 2 {
            return false;
        }
        return is_existential(ranks, v as usize) && is_part(&x[i + 1..], &y[j + 1..]);
    }
    false
}
