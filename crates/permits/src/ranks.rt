// Variables by the ranks of a prefix: a slice of 1,024 numbers, place and quantifier in one. A variable over 1,023 has none.
ghost use Rattle.std.specs.Prelude.{◌≡◌, ℕ, true, List};
ghost use Rattle.meaning.specs.Formula.{mentions, existential, universal};
ghost use Rattle.table.specs.Ranks.{rank_from, ranks_of, good_entries};
ghost use Rattle.permits.specs.Places.{place_of};

use table::{Counts, Ranks};

fn rank_of(ranks: &Ranks, v: usize) -> u16
    ensures { (p : List ℕ) → ranks.now ≡ ranks_of p → good_entries p ≡ true → result ≡ rank_from 1 p v }
{
    if Counts::VARIABLES < v {
        return 0;
    }
    ranks[v]
}

// The place of a variable, from the left; the leftmost has 1, and what is not there 0.
pub fn place_of(ranks: &Ranks, v: usize) -> usize
    ensures { (p : List ℕ) → ranks.now ≡ ranks_of p → good_entries p ≡ true → result ≡ place_of p v }
{
    (rank_of(ranks, v) / 2) as usize
}

pub fn in_prefix(ranks: &Ranks, v: usize) -> bool
    ensures { (p : List ℕ) → ranks.now ≡ ranks_of p → good_entries p ≡ true → result ≡ mentions p v }
{
    rank_of(ranks, v) != 0
}

pub fn is_universal(ranks: &Ranks, v: usize) -> bool
    ensures { (p : List ℕ) → ranks.now ≡ ranks_of p → good_entries p ≡ true → result ≡ universal p v }
{
    rank_of(ranks, v) % 2 == 1
}

pub fn is_existential(ranks: &Ranks, v: usize) -> bool
    ensures { (p : List ℕ) → ranks.now ≡ ranks_of p → good_entries p ≡ true → result ≡ existential p v }
{
    let rank = rank_of(ranks, v);
    rank != 0 && rank % 2 == 0
}
