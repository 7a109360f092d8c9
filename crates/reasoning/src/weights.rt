// What keeps a variable whose step is permitted: the weight of the result, or a limit; or nothing does, and the answer is the step's entry.
ghost use Rattle.std.specs.Prelude.{◌≡◌, ℕ, ◌≤◌, true, leb};
ghost use Rattle.meaning.specs.Formula.{Formula};
ghost use Rattle.rules.specs.Eliminate.{resolve_permitted, expand_permitted};
ghost use Rattle.table.specs.Table.{counts_of};
ghost use Rattle.index.specs.AtHand.{InHand};
ghost use Rattle.choice.specs.Chosen.{Ranks, Ranked};
ghost use Rattle.reasons.specs.Reason.{of_variables, within, why_existential, why_universal};
ghost use Rattle.reasoning.specs.Whys.{why_as, limit_or};

use crate::Why;
use growth::expanded_counts;
use index::AtHand;
use permits::entry_of;
use table::{Counts, Ranks};
use weigh::{resolved_counts, weight_of};

// The first limit that a result with these counts passes, or the entry of its step. The variables need so many numbers.
fn limit_or(numbers: usize, d: Counts, entry: u32) -> Why
    ensures { (ψ : Formula) → d ≡ counts_of ψ d.second → within of_variables ψ ≡ leb numbers 1023 → result ≡ limit_or ψ entry }
{
    if Counts::VARIABLES < numbers {
        return Why::OverVariables;
    }
    if Counts::CLAUSES < d.clauses {
        return Why::OverClauses;
    }
    if Counts::LITERALS < d.literals {
        return Why::OverLiterals;
    }
    Why::OwnEntry(entry)
}

// An existential that may be resolved.
pub fn why_resolve(at: &AtHand, x: usize) -> Why
    requires x_value { (φ : Formula) → InHand φ at.now → resolve_permitted φ x ≡ true }
    ensures { (φ : Formula) (E : ℕ) → InHand φ at.now → result ≡ why_as (why_existential E φ x) }
{
    let mut scratch = [0u16; 1023];
    let mut again = [0u16; 1023];
    let d = resolved_counts(at, &mut scratch, &mut again, x);
    let before = weight_of(at.counts);
    let after = weight_of(d);
    if before <= after {
        return Why::NotLighter(before, after);
    }
    limit_or(d.variables, d, entry_of(6, x, 0))
}

// A universal that may be expanded. Copies take numbers that are not in the prefix before the step, so that one more is in use.
pub fn why_expand(t: &[u16], c: Counts, ranks: &Ranks, u: usize, allowance: usize) -> Why
    requires ranked { Ranked t.now c ranks.now × (allowance ≤ 1000) }
    requires u_value { (φ : Formula) → Ranks φ t.now c ranks.now → expand_permitted φ u ≡ true }
    ensures { (φ : Formula) → Ranks φ t.now c ranks.now → result ≡ why_as (why_universal allowance φ u) }
{
    let d = expanded_counts(t, c, ranks, u);
    let before = weight_of(c);
    let after = weight_of(d);
    if before + allowance < after {
        return Why::TooHeavy(before, after);
    }
    limit_or(d.variables + 1, d, entry_of(7, u, 0))
}
