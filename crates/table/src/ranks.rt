// The ranks of a prefix, in a lent array by variable: place and quantifier in one number.
ghost use Rattle.std.specs.Prelude.{◌≡◌, ℕ, ◌≤◌, ◌<◌, false, List, [], ◌∷◌, ◌++◌, length};
ghost use Rattle.meaning.specs.Formula.{var, mentions};
ghost use Rattle.table.specs.Ranks.{ranks_of, rankable, Ranked};

use crate::Ranks;
use crate::clauses::clear;

// One more entry at the right end of a prefix of n entries. Its variable is not there yet.
pub fn add_rank(ranks: &mut Ranks, n: usize, entry: u16)
    requires { (n < 1023) × (entry < 2048) }
    ensures { (p : List ℕ) → length p ≡ n → mentions p (var entry) ≡ false → ranks.old ≡ ranks_of p → ranks.new ≡ ranks_of (p ++ (entry ∷ [])) }
{
    let v = (entry / 2) as usize;
    ranks[v] = 2 * (n + 1) as u16 + entry % 2;
}

// Zeroes the slice: the ranks of no prefix.
// Kept: a contract in our words, which the proofs above cite.
fn no_ranks(ranks: &mut Ranks)
    ensures { ranks.new ≡ ranks_of [] }
{
    clear(ranks);
}

// Whether the entry may be added: its variable is 1 to 1,023 and has no rank.
pub fn is_new(ranks: &Ranks, entry: u16) -> bool
    ensures { (p : List ℕ) → ranks.now ≡ ranks_of p → result ≡ rankable p entry }
{
    if entry < 2 || 2047 < entry {
        return false;
    }
    let v = (entry / 2) as usize;
    ranks[v] == 0
}

// The ranks of a whole prefix, whatever the slice held; false where a variable is 0, over 1,023 or there twice.
pub fn rank_prefix(prefix: &[u16], ranks: &mut Ranks) -> bool
    requires { length prefix.now ≤ 1023 }
    ensures { Ranked prefix.now result ranks.new }
{
    no_ranks(ranks);
    for (i, q) in prefix.iter().enumerate() {
        if !is_new(ranks, *q) {
            return false;
        }
        add_rank(ranks, i, *q);
    }
    true
}
