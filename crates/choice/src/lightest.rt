// The lightest step of kind 6, and of kind 7: "the least resulting weight, then the leftmost".
ghost use Rattle.std.specs.Prelude.{◌≡◌, ℕ, ◌+◌, ◌≤◌, ◌<◌, length, drop};
ghost use Rattle.meaning.specs.Formula.{Formula};
ghost use Rattle.rules.specs.Eliminate.{from_universal};
ghost use Rattle.rules.specs.Entry.{resolve, expand};
ghost use Rattle.index.specs.AtHand.{InHand};
ghost use Rattle.choice.specs.Chosen.{best_of, Ranks, Ranked};

use crate::{Lack, Standing};
use growth::weigh_expand;
use index::AtHand;
use permits::first_universal;
use table::{Counts, Ranks};
use weigh::weigh_resolve;

// How many entries stand left of the first universal behind entry i, from how many stand left of the first from entry i on: as many, unless
// entry i is that one. So all searches together go over the prefix once.
fn next_universal(prefix: &[u16], i: usize, n: usize) -> usize
    requires { (i < length prefix.now) × (length prefix.now ≤ 1023) × (from_universal (drop i prefix.now) ≡ drop n prefix.now) }
    ensures { from_universal (drop (i + 1) prefix.now) ≡ drop result prefix.now }
{
    if i < n {
        return n;
    }
    first_universal(prefix, i + 1)
}

// Kind 6 counts only where the weight falls.
pub fn best_resolve(at: &AtHand) -> Result<usize, Lack>
    ensures { (φ : Formula) (E : ℕ) → InHand φ at.now → result ≡ best_of E φ resolve }
{
    let t = at.table;
    let c = at.counts;
    let mut scratch = [0u16; 1023];
    let mut again = [0u16; 1023];
    let mut s = Standing::new(c.variables + c.clauses + c.literals);
    let mut n = first_universal(&t[..c.variables], 0);
    for i in 0..c.variables {
        n = next_universal(&t[..c.variables], i, n);
        let v = (t[i] / 2) as usize;
        let w = weigh_resolve(at, &mut scratch, &mut again, v, n, s.below);
        s = s.after(v, w);
    }
    s.best
}

// Kind 7 counts only where the weight falls or rises by at most the allowance.
// Kept: by number, since the proof speaks of the variables from there on.
pub fn best_expand(t: &[u16], c: Counts, ranks: &Ranks, allowance: usize) -> Result<usize, Lack>
    requires { Ranked t.now c ranks.now × (allowance ≤ 1000) }
    ensures { (φ : Formula) → Ranks φ t.now c ranks.now → result ≡ best_of allowance φ expand }
{
    let mut s = Standing::new(c.variables + c.clauses + c.literals + allowance + 1);
    for i in 0..c.variables {
        let v = (t[i] / 2) as usize;
        let w = weigh_expand(t, c, ranks, v, s.below);
        s = s.after(v, w);
    }
    s.best
}
