// The two lent tables while a run or a replay goes on: the formula on one side, the other zero.
ghost use Rattle.std.specs.Prelude.{◌≡◌, ℕ, ◌≤◌, true, not};
ghost use Rattle.meaning.specs.Formula.{Formula};
ghost use Rattle.rules.specs.Entry.{Kind};
ghost use Rattle.rules.specs.Step.{result_of, stepped, step_of};
ghost use Rattle.rules.specs.Run as rules;
ghost use Rattle.table.specs.Table.{counts_of};
ghost use Rattle.search.specs.Searched.{SearchedTo};
ghost use Rattle.choice.specs.Chosen.{next_as};
ghost use Rattle.apply.specs.Applied.{Known, Lends, Lent, Stands};

use apply::step;
use choice::{Chosen, choose};
use table::{Counts, zero};

// Zeroes the spare table, whatever it held.
pub fn clear_spare(first: &mut [u16], second: &mut [u16], c: Counts)
    requires { Lent first.old second.old c }
    ensures { (φ : Formula) → Lends φ first.old second.old c → Stands φ c.second first.new second.new }
{
    if c.second {
        zero(first);
    } else {
        zero(second);
    }
}

// What the run does next, where so many of the first clauses were searched. The index goes into the spare table, which ends zero.
pub fn choose_between(
    first: &mut [u16],
    second: &mut [u16],
    c: Counts,
    allowance: usize,
    searched: usize,
) -> Chosen
    requires { Lent first.old second.old c × ((φ : Formula) → Lends φ first.old second.old c → SearchedTo φ searched) × (allowance ≤ 1000) }
    ensures { (φ : Formula) → Lends φ first.old second.old c → (result.next ≡ next_as (rules.next allowance φ)) × ((k : Kind) (a b : ℕ) → rules.next allowance φ ≡ rules.step k a b → SearchedTo (result_of φ k a b) result.searched) × Stands φ c.second first.new second.new }
{
    if c.second {
        return choose(second, c, first, allowance, searched);
    }
    choose(first, c, second, allowance, searched)
}

// A step that is permitted, as the run knows, and has room: the record after it.
pub fn advance(first: &mut [u16], second: &mut [u16], c: Counts, entry: u32) -> Counts
    requires { Lent first.old second.old c × ((φ : Formula) → Lends φ first.old second.old c → Known φ entry true) }
    ensures { (φ ψ : Formula) → Lends φ first.old second.old c → step_of φ entry ≡ stepped ψ → (result ≡ counts_of ψ (not c.second)) × Stands ψ (not c.second) first.new second.new }
{
    step(first, second, c, entry, true).unwrap_or(c)
}
