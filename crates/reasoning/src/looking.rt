// The variable is looked at: where the formula has neither a verdict nor a step of kinds 1 to 5.
ghost use Rattle.std.specs.Prelude.{◌≡◌, ℕ, ◌≤◌, true, length};
ghost use Rattle.meaning.specs.Formula.{Formula, mentions, universal};
ghost use Rattle.meaning.specs.WellFormed.{well_formed};
ghost use Rattle.table.specs.Table.{Holds};
ghost use Rattle.index.specs.AtHand.{InHand};
ghost use Rattle.choice.specs.Chosen.{Ranks, Ranked};
ghost use Rattle.reasons.specs.Reason.{why_existential, why_universal, why_left};
ghost use Rattle.reasons.specs.Statement.{Quiet};
ghost use Rattle.reasoning.specs.Whys.{why_as};
ghost use Rattle.reasoning.specs.AtHand.{HeldQuiet};

use crate::Why;
use crate::behind::{existential_after, universal_after};
use crate::far::why_far;
use crate::weights::{why_expand, why_resolve};
use index::{AtHand, build_index, put_tally};
use permits::{expand_permitted, is_universal};
use table::{Counts, Ranks, rank_prefix};
use weigh::may_resolve;

// An existential.
fn why_existential(at: &AtHand, x: usize) -> Why
    ensures { (φ : Formula) (E : ℕ) → InHand φ at.now → mentions φ.prefix x ≡ true → result ≡ why_as (why_existential E φ x) }
{
    if may_resolve(at, x) {
        return why_resolve(at, x);
    }
    why_far(at.table, at.counts, at.ranks, x)
}

// A universal.
fn why_universal(t: &[u16], c: Counts, ranks: &Ranks, u: usize, allowance: usize) -> Why
    requires { Ranked t.now c ranks.now × (allowance ≤ 1000) }
    ensures { (φ : Formula) → Ranks φ t.now c ranks.now → Quiet φ → universal φ.prefix u ≡ true → result ≡ why_as (why_universal allowance φ u) }
{
    if expand_permitted(t, c, ranks, u) {
        return why_expand(t, c, ranks, u, allowance);
    }
    let e = existential_after(t, c, ranks, u);
    Why::Between(e, universal_after(t, c, ranks, e))
}

// A variable of the prefix. The index goes into the spare table.
pub fn why_left(t: &[u16], c: Counts, spare: &mut [u16], v: usize, allowance: usize) -> Why
    requires { HeldQuiet t.now c × (length spare.old ≡ 11261) × (allowance ≤ 1000) }
    ensures { (φ : Formula) → Holds φ t.now c → well_formed φ ≡ true → Quiet φ → mentions φ.prefix v ≡ true → result ≡ why_as (why_left allowance φ v) }
{
    let mut ranks = [0u16; 1024];
    rank_prefix(&t[..c.variables], &mut ranks);
    if is_universal(&ranks, v) {
        return why_universal(t, c, &ranks, v, allowance);
    }
    put_tally(t, c, spare);
    build_index(t, c, spare);
    let at = AtHand {
        table: t,
        counts: c,
        ranks: &ranks,
        index: spare,
    };
    why_existential(&at, v)
}
