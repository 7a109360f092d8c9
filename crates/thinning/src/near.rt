// Near and far clauses.
ghost use Rattle.std.specs.Prelude.{◌≡◌, true, length};
ghost use Rattle.meaning.specs.Lists.{all_of};
ghost use Rattle.table.specs.Ranks.{small};
ghost use Rattle.thinning.specs.Thin.{near, far};
ghost use Rattle.thinning.specs.Others.{near_with};

use table::{Ranks, contains, last_by};

// A clause with more literals is far, wherever its existentials stand.
pub const SHORT: usize = 16;

// Whether a clause is short and has no existential right of the place.
#[tactic(auto, unfolding(crate::specs::Thin::near))]
pub fn is_near(clause: &[u16], place: u16, ranks: &Ranks) -> bool
    requires { all_of small clause.now ≡ true }
    ensures { result ≡ near ranks.now place clause.now }
{
    clause.len() <= SHORT && last_by(ranks, 0, clause) <= place
}

// Whether a clause has the literal and is near.
#[tactic(auto, unfolding(crate::specs::Others::near_with))]
pub fn is_near_with(clause: &[u16], literal: u16, place: u16, ranks: &Ranks) -> bool
    requires { all_of small clause.now ≡ true }
    ensures { result ≡ near_with ranks.now place literal clause.now }
{
    contains(clause, literal) && is_near(clause, place, ranks)
}

// Whether a clause has the literal and is not near.
#[tactic(auto, unfolding(crate::specs::Thin::far))]
pub fn is_far(clause: &[u16], literal: u16, place: u16, ranks: &Ranks) -> bool
    requires { all_of small clause.now ≡ true }
    ensures { result ≡ far ranks.now place literal clause.now }
{
    contains(clause, literal) && !is_near(clause, place, ranks)
}
