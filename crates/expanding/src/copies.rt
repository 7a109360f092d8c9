// Step 7, expand: the copies of the existentials right of the universal.
ghost use Rattle.std.specs.Prelude.{◌≡◌, ℕ, ◌-◌, ◌≤◌, List, map, length};
ghost use Rattle.meaning.specs.Formula.{Formula, plain};
ghost use Rattle.rules.specs.Eliminate.{fresh};
ghost use Rattle.table.specs.Table.{Holds, Held};
ghost use Rattle.table.specs.Answer.{Built};
ghost use Rattle.recipes.specs.Recipe.{Ready, Readied};
ghost use Rattle.expanding.specs.Copies.{with_entries, copies_from};

use permits::in_prefix;
use table::{Counts, Ranks, push_variable};

// Variable v at the right end of the prefix, unless it is in the prefix of the ranks or there are enough variables.
fn add_copy(target: &mut [u16], e: Counts, ranks: &Ranks, v: u16, enough: usize) -> Option<Counts>
    requires held { Held target.old e }
    requires bound { v ≤ 4000 }
    ensures { (p : List ℕ) (ψ : Formula) → Ready p ranks.now → Holds ψ target.old e → Built (with_entries ψ (copies_from p (enough - e.variables) v 1)) e.second result target.new }
{
    if enough <= e.variables || in_prefix(ranks, v as usize) {
        return Some(e);
    }
    push_variable(target, e, 2 * v)
}

// The copies, n in number, of a prefix of k entries: the smallest variables that the ranks don't have.
pub fn push_copies(target: &mut [u16], d: Counts, ranks: &Ranks, k: u16, n: u16) -> Option<Counts>
    requires held { Held target.old d }
    requires readied { Readied ranks.now × (k ≤ 1023) × (n ≤ 1023) }
    ensures { (p : List ℕ) (ψ : Formula) → Ready p ranks.now → length p ≡ k → Holds ψ target.old d → Built (with_entries ψ (map plain (fresh p n))) d.second result target.new }
{
    let enough = d.variables + n as usize;
    let mut e = d;
    for v in 1..=k + n {
        e = add_copy(target, e, ranks, v, enough)?;
    }
    Some(e)
}
