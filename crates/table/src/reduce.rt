// Forall reduction, by the ranks of a prefix.
ghost use Rattle.std.specs.Prelude.{◌≡◌, ◌≤◌, ◌<◌, true, length, take};
ghost use Rattle.meaning.specs.Lists.{all_of};
ghost use Rattle.table.specs.Ranks.{small, rank_at, later_by, last_by, stays_by, reduced_by};

use crate::Ranks;

// The rank of the literal's variable.
pub fn rank_of(ranks: &Ranks, literal: u16) -> u16
    requires { literal < 2048 }
    ensures { result ≡ rank_at ranks.now literal }
{
    let v = (literal / 2) as usize;
    ranks[v]
}

// The later of `last` and the literal's place, where it is no universal.
fn later(ranks: &Ranks, last: u16, literal: u16) -> u16
    requires { literal < 2048 }
    ensures { result ≡ later_by ranks.now last literal }
{
    let rank = rank_of(ranks, literal);
    if rank % 2 == 1 {
        return last;
    }
    last.max(rank / 2)
}

// The rightmost of a place and of those of a clause's existentials.
pub fn last_by(ranks: &Ranks, first: u16, clause: &[u16]) -> u16
    requires { all_of small clause.now ≡ true }
    ensures { result ≡ last_by ranks.now first clause.now }
{
    let mut last = first;
    for literal in clause {
        last = later(ranks, last, *literal);
    }
    last
}

// Whether the literal stays, where the rightmost existential of its clause is at `last`.
pub fn stays_by(ranks: &Ranks, last: u16, literal: u16) -> bool
    requires { literal < 2048 }
    ensures { result ≡ stays_by ranks.now last literal }
{
    let rank = rank_of(ranks, literal);
    rank % 2 == 0 || rank / 2 < last
}

// Whether every literal of a clause stays, where its rightmost existential is at `last`.
pub fn all_stay_by(ranks: &Ranks, last: u16, clause: &[u16]) -> bool
    requires { all_of small clause.now ≡ true }
    ensures { result ≡ all_of (stays_by ranks.now last) clause.now }
{
    clause.iter().all(|literal| stays_by(ranks, last, *literal))
}

// Whether every literal stays: the clause is reduced.
pub fn all_stay(ranks: &Ranks, clause: &[u16]) -> bool
    requires { all_of small clause.now ≡ true }
    ensures { result ≡ all_of (stays_by ranks.now (last_by ranks.now 0 clause.now)) clause.now }
{
    all_stay_by(ranks, last_by(ranks, 0, clause), clause)
}

// Reduces the clause that the first n numbers of the scratch are, in place. Says how many literals stay.
pub fn reduce_in(scratch: &mut [u16], n: usize, ranks: &Ranks) -> usize
    requires { (n ≤ length scratch.old) × (all_of small (take n scratch.old) ≡ true) }
    ensures { (result ≤ n) × (take result scratch.new ≡ reduced_by ranks.now (take n scratch.old)) }
{
    let last = last_by(ranks, 0, &scratch[..n]);
    // Kept: j goes up at some turns only.
    let mut j = 0;
    for i in 0..n {
        let l = scratch[i];
        if stays_by(ranks, last, l) {
            scratch[j] = l;
            j += 1;
        }
    }
    j
}
