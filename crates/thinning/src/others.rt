// The clauses with the other literal: whether they are few, and which literals the near ones have.
ghost use Rattle.std.specs.Prelude.{◌≡◌, true, length};
ghost use mathlib.Core.List.{foldl};
ghost use Rattle.meaning.specs.Lists.{all_of};
ghost use Rattle.meaning.specs.Formula.{Formula};
ghost use Rattle.table.specs.Table.{Holds, Held};
ghost use Rattle.table.specs.Ranks.{small};
ghost use Rattle.flags.specs.Flags.{raised};
ghost use Rattle.thinning.specs.Others.{near_with, met_if};
ghost use Rattle.thinning.specs.Going.{Readable};

use crate::Flags;
use crate::near::is_near_with;
use flags::raise;
use table::{Counts, Ranks, clause_at, contains};

// More clauses than this are many. Where they are few, all are flagged.
const FEW: usize = 31;

// Whether few clauses have the literal. It only saves time.
pub fn few_with(source: &[u16], c: Counts, literal: u16) -> bool
    requires { Held source.now c }
{
    let mut left = FEW;
    for i in 0..c.clauses {
        if contains(clause_at(source, c, i), literal) {
            if left == 0 {
                return false;
            }
            left -= 1;
        }
    }
    true
}

// Raises the flags of a clause's literals.
fn raise_all(words: &mut Flags, clause: &[u16])
    requires { all_of small clause.now ≡ true }
    ensures { words.new ≡ foldl raised words.old clause.now }
{
    for literal in clause {
        raise(words, *literal as usize);
    }
}

// The same, where the clause has the literal and is near.
#[tactic(auto, unfolding(crate::specs::Others::met_if))]
fn raise_if(words: &mut Flags, literal: u16, place: u16, ranks: &Ranks, clause: &[u16])
    requires { all_of small clause.now ≡ true }
    ensures { words.new ≡ met_if (near_with ranks.now place literal) words.old clause.now }
{
    if is_near_with(clause, literal, place, ranks) {
        raise_all(words, clause);
    }
}

// Raises the flags of all literals that stand in near clauses with the literal.
pub fn flag_met(
    source: &[u16],
    c: Counts,
    literal: u16,
    place: u16,
    ranks: &Ranks,
    words: &mut Flags,
)
    requires readable { Readable source.now c }
    ensures { (φ : Formula) → Holds φ source.now c → words.new ≡ foldl (met_if (near_with ranks.now place literal)) words.old φ.clauses }
{
    for i in 0..c.clauses {
        raise_if(words, literal, place, ranks, clause_at(source, c, i));
    }
}
