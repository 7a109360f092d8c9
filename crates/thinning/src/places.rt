// The place by which the clauses with a literal are near. It only saves time: any place will do, since each clause is asked whether it is near.
ghost use Rattle.std.specs.Prelude.{true, ◌≡◌, ◌<◌, length};
ghost use Rattle.meaning.specs.Lists.{all_of};
ghost use Rattle.table.specs.Ranks.{small};
ghost use Rattle.thinning.specs.Going.{Readable};

use crate::near::SHORT;
use table::{Counts, Ranks, clause_at, contains, last_by};

// So many short clauses may be far.
const FAR: usize = 16;

// Whether a clause is short, has the literal, and has an existential right of the place.
fn reaches_beyond(clause: &[u16], literal: u16, place: u16, ranks: &Ranks) -> bool
    requires { all_of small clause.now ≡ true }
{
    clause.len() <= SHORT && contains(clause, literal) && place < last_by(ranks, 0, clause)
}

// Whether more short clauses with the literal than may be far have an existential right of the place.
// Kept: the count of others::few_with is the same, but that one asks less of the table.
fn many_beyond(source: &[u16], c: Counts, literal: u16, place: u16, ranks: &Ranks) -> bool
    requires { Readable source.now c }
{
    let mut left = FAR;
    for i in 0..c.clauses {
        if reaches_beyond(clause_at(source, c, i), literal, place, ranks) {
            if left == 0 {
                return true;
            }
            left -= 1;
        }
    }
    false
}

// The leftmost place beyond which few reach, found by halving.
pub fn near_place(source: &[u16], c: Counts, literal: u16, ranks: &Ranks) -> u16
    requires readable { Readable source.now c }
{
    let mut low: u16 = 0;
    let mut high: u16 = 1023;
    // Kept: halving takes no place after the other, and the library halves slices alone.
    while low < high {
        let middle = (low + high) / 2;
        if many_beyond(source, c, literal, middle, ranks) {
            low = middle + 1;
        } else {
            high = middle;
        }
    }
    low
}
