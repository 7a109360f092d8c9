// Flags of the clauses that have a literal, and of those of them that are far.
ghost use Rattle.std.specs.Prelude.{ℕ, Bool, List, ◌≡◌, ◌*◌, ◌<◌, true, cond, length, replicate};
ghost use Rattle.meaning.specs.Lists.{all_of, has};
ghost use Rattle.meaning.specs.Formula.{Formula};
ghost use Rattle.meaning.specs.WellFormed.{well_formed};
ghost use Rattle.table.specs.Table.{decode, Holds, Held};
ghost use Rattle.table.specs.Ranks.{small};
ghost use Rattle.thinning.specs.Going.{Readable};
ghost use Rattle.flags.specs.Flags.{raised};
ghost use Rattle.thinning.specs.Thin.{Picks, far};

use crate::Flags;
use crate::near::is_far;
use flags::raise;
use table::{Counts, Ranks, clause_at, contains};

// Flags clause i, where it is picked.
fn flag_if(kept: &mut Flags, i: usize, picked: bool)
    requires { i < 2048 }
    ensures { kept.new ≡ cond picked (raised kept.old i) kept.old }
{
    if picked {
        raise(kept, i);
    }
}

// Flags the clauses that pass a test.
fn flag_each<F: Fn(&[u16]) -> bool>(source: &[u16], c: Counts, kept: &mut Flags, passes: F)
    requires readable { Readable source.now c }
    requires none { kept.old ≡ replicate 32 0 }
    requires callable { (x : _) → all_of small x.now ≡ true → F.pre passes x }
    ensures { (φ : Formula) (f : List ℕ → Bool) → Holds φ source.now c → ((x : _) (b : Bool) → F.post passes x b → b ≡ f x.now) → Picks f φ.clauses kept.new }
{
    for i in 0..c.clauses {
        flag_if(kept, i, passes(clause_at(source, c, i)));
    }
}

// Flags the clauses with the literal.
pub fn flag_with(source: &[u16], c: Counts, literal: u16, kept: &mut Flags)
    requires held { Held source.now c }
    requires well { well_formed (decode source.now c) ≡ true }
    requires none { kept.old ≡ replicate 32 0 }
    ensures { (φ : Formula) → Holds φ source.now c → Picks (has literal) φ.clauses kept.new }
{
    flag_each(source, c, kept, |clause| contains(clause, literal));
}

// Flags the clauses with the literal that are far.
pub fn flag_far(
    source: &[u16],
    c: Counts,
    literal: u16,
    place: u16,
    ranks: &Ranks,
    kept: &mut Flags,
)
    requires held { Held source.now c }
    requires well { well_formed (decode source.now c) ≡ true }
    requires none { kept.old ≡ replicate 32 0 }
    ensures { (φ : Formula) → Holds φ source.now c → Picks (far ranks.now place literal) φ.clauses kept.new }
{
    flag_each(
        source,
        c,
        kept,
        |clause| is_far(clause, literal, place, ranks),
    );
}
