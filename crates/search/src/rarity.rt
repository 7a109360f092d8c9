// The literal of a clause, or of which variable, by which the fewest clauses have to be looked at; none of an empty clause.
// That it is the rarest saves time; no answer depends on it.
ghost use Rattle.std.specs.Prelude.{◌≡◌, length, Contains, MatchOption};
ghost use Rattle.index.specs.Index.{Indexed};

use index::{clauses_of, clauses_with};

pub fn rarest(index: &[u16], clause: &[u16]) -> Option<u16>
    requires indexed { Indexed index.now }
    ensures { MatchOption result (length clause.now ≡ 0) (λ l. Contains clause.now l) }
{
    clause
        .iter()
        .min_by_key(|l| clauses_with(index, **l).len())
        .copied()
}

pub fn rarest_by_variable(index: &[u16], clause: &[u16]) -> Option<u16>
    requires indexed { Indexed index.now }
    ensures { MatchOption result (length clause.now ≡ 0) (λ l. Contains clause.now l) }
{
    clause
        .iter()
        .min_by_key(|l| clauses_of(index, **l / 2).len())
        .copied()
}
