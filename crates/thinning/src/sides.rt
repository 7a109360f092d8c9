// Of the clauses with a literal, those that step 6 looks at.
ghost use Rattle.std.specs.Prelude.{◌≡◌, ℕ, ◌+◌, ◌<◌, true, [], length, get_or, replicate};
ghost use Rattle.meaning.specs.Lists.{all_of, keep_if, same};
ghost use Rattle.meaning.specs.Formula.{Formula};
ghost use Rattle.meaning.specs.WellFormed.{well_formed};
ghost use Rattle.table.specs.Table.{decode, Holds, Held};
ghost use Rattle.table.specs.Ranks.{small, stays_by};
ghost use Rattle.thinning.specs.Thin.{firm, Thinned};
ghost use Rattle.thinning.specs.Going.{Readable, Meets, Thinning, StandIn, Going};

use crate::Flags;
use crate::others::{few_with, flag_met};
use crate::parts::{is_free, same_firm};
use crate::picks::flag_with;
use crate::places::near_place;
use flags::{next_raised, raise};
use table::{Counts, Ranks, all_stay_by, clause_at, contains, last_by};

// So many clauses are looked at to find one that stands in for another.
const LOOKS: usize = 256;

// Whether clause j has the same firm part as this one, of which `own` is the place by which its literals stay.
fn has_firm(
    source: &[u16],
    c: Counts,
    j: usize,
    last: u16,
    ranks: &Ranks,
    clause: &[u16],
    own: u16,
) -> bool
    requires readable { Readable source.now c }
    requires j_lt_clauses { (j < c.clauses) × (all_of small clause.now ≡ true) }
    ensures { (φ : Formula) → Holds φ source.now c → result ≡ same (firm ranks.now last (get_or φ.clauses j [])) (keep_if (stays_by ranks.now own) clause.now) }
{
    let x = clause_at(source, c, j);
    same_firm(ranks, x, last_by(ranks, last, x), clause, own)
}

// Whether one of the flagged clauses before clause i has the same firm part as this one. The first ones only are looked at.
fn is_stood_for(
    source: &[u16],
    c: Counts,
    i: usize,
    last: u16,
    ranks: &Ranks,
    clause: &[u16],
    own: u16,
    standing: &Flags,
) -> bool
    requires readable { Readable source.now c }
    requires i_lt_clauses { (i < c.clauses) × (all_of small clause.now ≡ true) }
    ensures { result ≡ true → (φ : Formula) → Holds φ source.now c → StandIn ranks.now last φ.clauses standing.now i (keep_if (stays_by ranks.now own) clause.now) }
{
    let mut j = next_raised(standing, 0, i);
    for _look in 0..LOOKS {
        if i <= j {
            return false;
        }
        if has_firm(source, c, j, last, ranks, clause, own) {
            return true;
        }
        j = next_raised(standing, j + 1, i);
    }
    false
}

// Flags clause i, where it has the literal and no flagged one stands in for it.
fn look_at(
    source: &[u16],
    c: Counts,
    i: usize,
    literal: u16,
    last: u16,
    ranks: &Ranks,
    met: &Flags,
    kept: &mut Flags,
    standing: &mut Flags,
)
    requires readable { Readable source.now c }
    requires i_lt_clauses { i < c.clauses }
    ensures { (φ : Formula) (o : ℕ) → Holds φ source.now c → Meets ranks.now last o φ.clauses met.now → Going ranks.now last literal o φ.clauses kept.old standing.old i → Going ranks.now last literal o φ.clauses kept.new standing.new (i + 1) }
{
    let clause = clause_at(source, c, i);
    if !contains(clause, literal) {
        return;
    }
    let own = last_by(ranks, last, clause);
    if all_stay_by(ranks, own, clause) || !is_free(ranks, own, met, clause) {
        raise(kept, i);
        return;
    }
    if is_stood_for(source, c, i, last, ranks, clause, own, standing) {
        return;
    }
    raise(standing, i);
    raise(kept, i);
}

// Flags the clauses with the literal for which no flagged one stands in.
fn flag_some(
    source: &[u16],
    c: Counts,
    literal: u16,
    last: u16,
    ranks: &Ranks,
    met: &Flags,
    kept: &mut Flags,
    standing: &mut Flags,
)
    requires readable { Readable source.now c }
    requires none { (kept.old ≡ replicate 32 0) × (standing.old ≡ replicate 32 0) }
    ensures { (φ : Formula) (o : ℕ) → Holds φ source.now c → Meets ranks.now last o φ.clauses met.now → Thinning ranks.now last literal o φ.clauses kept.new c.clauses }
{
    for i in 0..c.clauses {
        look_at(source, c, i, literal, last, ranks, met, kept, standing);
    }
}

// Flags, of the clauses with the literal, those that step 6 looks at. The answer is the place by which clauses with the other are near.
pub fn thin(
    source: &[u16],
    c: Counts,
    literal: u16,
    other: u16,
    ranks: &Ranks,
    kept: &mut Flags,
) -> u16
    requires held { Held source.now c }
    requires well { well_formed (decode source.now c) ≡ true }
    requires none { kept.old ≡ replicate 32 0 }
    ensures { (φ : Formula) → Holds φ source.now c → Thinned ranks.now result literal other φ.clauses kept.new }
{
    if few_with(source, c, other) {
        flag_with(source, c, literal, kept);
        return 0;
    }
    let last = near_place(source, c, other, ranks);
    let mut met = [0u64; 32];
    flag_met(source, c, other, last, ranks, &mut met);
    let mut standing = [0u64; 32];
    flag_some(source, c, literal, last, ranks, &met, kept, &mut standing);
    last
}
