// The pass over the source's clauses. A clause that is left as it was is tidy and differs from all others of the source, so it is added
// as it stands: it can only equal a clause that was there at the start or one that changed, and a filter has the stamps of these.
// What becomes of a clause that changes is tidied, and looked for among all clauses of the target; such clauses are few. Up to the first
// of them no filter is wanted: see leading.
ghost use Rattle.std.specs.Prelude.{◌≡◌, ℕ, true, not, List, [], ◌∷◌, ◌++◌, length, take, drop, Some};
ghost use Rattle.meaning.specs.Formula.{Formula};
ghost use Rattle.meaning.specs.Tidy.{tidied};
ghost use Rattle.meaning.specs.WellFormed.{well_formed};
ghost use Rattle.table.specs.Table.{empty_formula, table_of, decode, with_raw, Holds, Held};
ghost use Rattle.table.specs.Answer.{Became, Built};
ghost use Rattle.filter.specs.Filter.{CoversBut};
ghost use Rattle.rebuilds.specs.Raws.{with_raws};
ghost use Rattle.recipes.specs.Recipe.{Ready, fed, raw_by, raws_by, remade};
ghost use Rattle.recipes.specs.Left.{about, Lasts, Shrunk};

use crate::leading::copy_lead;
use crate::prefixes::copy_prefix;
use crate::turning::add_each_turned;
use filter::{add_apart, close_stamped, cover};
use recipes::{Turn, Which, feed, is_left, is_taken, leaves_none};
use table::{Counts, Ranks, Scratch, clause_at, rank_prefix};

// What becomes of clause i where it changes. Its stamp goes into the filter.
fn add_changed(
    target: &mut [u16],
    d: Counts,
    clause: &[u16],
    i: usize,
    turn: Turn,
    scratch: &mut Scratch,
    ranks: &Ranks,
    filter: &mut [u64],
) -> Option<Counts>
    requires held { Held target.old d }
    requires ready { Ready (take d.variables target.old) ranks.now }
    requires filter_len { length filter.old ≡ 8 }
    ensures became { (ψ : Formula) → Holds ψ target.old d → Became ψ (with_raw ψ (fed turn ψ.prefix i clause.now)) d.second result target.new }
    ensures covers_after { (others : List (List ℕ)) (e : Counts) → CoversBut others target.old d filter.old → result ≡ Some e → CoversBut others target.new e filter.new }
{
    let n = d.variables;
    let p = feed(scratch, Some(0), clause, i, turn, &target[..n], ranks);
    close_stamped(target, d, scratch, p, ranks, filter)
}

// What becomes of clause i: one that is left as it was is added as it stands.
fn add_one(
    target: &mut [u16],
    d: Counts,
    clause: &[u16],
    i: usize,
    v: u16,
    which: Which,
    turn: Turn,
    scratch: &mut Scratch,
    ranks: &Ranks,
    filter: &mut [u64],
) -> Option<Counts>
    requires held { Held target.old d }
    requires ready { Ready (take d.variables target.old) ranks.now }
    requires filter_len { length filter.old ≡ 8 }
    ensures { (ψ : Formula) (others : List (List ℕ)) → Holds ψ target.old d → CoversBut others target.old d filter.old → Lasts turn v ψ.prefix others i clause.now → Built (with_raws ψ (raw_by which turn ψ.prefix i clause.now)) d.second result target.new × ((e : Counts) → result ≡ Some e → CoversBut (others ++ (clause.now ∷ [])) target.new e filter.new) }
{
    if is_taken(which, ranks, i, clause) {
        if is_left(turn, v, i, clause) {
            return add_apart(target, d, clause, filter);
        }
        return add_changed(target, d, clause, i, turn, scratch, ranks, filter);
    }
    Some(d)
}

// What becomes of the clauses of the source from one on. The filter covers the target but for the clauses before it.
// Kept: beside add_each_turned, whose filter covers all of the target: the two loops hold to other facts of the filter, and one that is
// told what becomes of a clause would borrow the target, the scratch and the filter for as long as it runs.
fn add_each(
    source: &[u16],
    c: Counts,
    target: &mut [u16],
    d: Counts,
    from: usize,
    v: u16,
    which: Which,
    turn: Turn,
    scratch: &mut Scratch,
    ranks: &Ranks,
    filter: &mut [u64],
) -> Option<Counts>
    requires held { Held source.now c }
    requires held_target { Held target.old d }
    requires ready { Ready (take d.variables target.old) ranks.now }
    requires shrunk { Shrunk v (take d.variables target.old) (decode source.now c) × (about turn v ≡ true) }
    requires covers_but { CoversBut (take from (decode source.now c).clauses) target.old d filter.old }
    ensures { (φ ψ : Formula) → Holds φ source.now c → Holds ψ target.old d → Built (with_raws ψ (raws_by which turn ψ.prefix from (drop from φ.clauses))) d.second result target.new }
{
    let mut e = d;
    for i in from..c.clauses {
        let clause = clause_at(source, c, i);
        let next = add_one(target, e, clause, i, v, which, turn, scratch, ranks, filter)?;
        // Kept: field by field. Taken over whole, the record is read before all of it is written, and the loop waits.
        e = Counts {
            variables: next.variables,
            clauses: next.clauses,
            literals: next.literals,
            second: next.second,
        };
    }
    Some(e)
}

// What becomes of all clauses of the source, where variable v is dropped and the turn is about no other. The filter is made here for
// either way, so that it is on the stack once only.
pub fn add_all(
    source: &[u16],
    c: Counts,
    target: &mut [u16],
    d: Counts,
    v: u16,
    which: Which,
    turn: Turn,
    scratch: &mut Scratch,
    ranks: &Ranks,
) -> Option<Counts>
    requires held { Held source.now c }
    requires held_target { Held target.old d }
    requires ready { Ready (take d.variables target.old) ranks.now }
    requires shrunk { Shrunk v (take d.variables target.old) (decode source.now c) × (about turn v ≡ true) }
    ensures { (φ ψ : Formula) → Holds φ source.now c → Holds ψ target.old d → Built (with_raws ψ (raws_by which turn ψ.prefix 0 φ.clauses)) d.second result target.new }
{
    let mut filter = [0u64; 8];
    cover(target, d, &mut filter);
    if leaves_none(turn) {
        return add_each_turned(
            source,
            c,
            target,
            d,
            which,
            turn,
            scratch,
            ranks,
            &mut filter,
        );
    }
    let (i, e) = copy_lead(source, c, target, d, v, which, turn, ranks)?;
    add_each(
        source,
        c,
        target,
        e,
        i,
        v,
        which,
        turn,
        scratch,
        ranks,
        &mut filter,
    )
}

// The source's formula remade by a recipe, in a target that is all zero. Variable v is dropped; 0 is none.
// Kept: a number and no Option, since the definitions remade and about take that number.
pub fn rebuild(
    source: &[u16],
    c: Counts,
    v: u16,
    target: &mut [u16],
    which: Which,
    turn: Turn,
    scratch: &mut Scratch,
    ranks: &mut Ranks,
) -> Option<Counts>
    requires held { Held source.now c }
    requires c_value { (well_formed (decode source.now c) ≡ true) × (about turn v ≡ true) }
    requires target_value { target.old ≡ table_of empty_formula }
    ensures built { (φ : Formula) → Holds φ source.now c → Built (tidied (remade which turn v φ)) (not c.second) result target.new }
    ensures ready { (d : Counts) → result ≡ Some d → Ready (take d.variables target.new) ranks.new }
{
    let d = copy_prefix(source, c, v, target, !c.second);
    let n = d.variables;
    rank_prefix(&target[..n], ranks);
    add_all(source, c, target, d, v, which, turn, scratch, ranks)
}
