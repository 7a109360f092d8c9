// A pass over the source's clauses in which none that is taken stays as it was: what becomes of each by a recipe is tidied and added
// to the target. A filter goes with the target, so that hardly any clause has to be looked for there.
ghost use Rattle.std.specs.Prelude.{◌≡◌, length, take, Some};
ghost use Rattle.meaning.specs.Formula.{Formula};
ghost use Rattle.table.specs.Table.{Holds, Held};
ghost use Rattle.table.specs.Answer.{Built};
ghost use Rattle.filter.specs.Filter.{Covers};
ghost use Rattle.rebuilds.specs.Raws.{with_raws};
ghost use Rattle.recipes.specs.Recipe.{Ready, raw_by, raws_by};

use filter::close_filtered;
use recipes::{Turn, Which, feed, is_taken};
use table::{Counts, Ranks, Scratch, clause_at};

// What becomes of clause i.
fn add_turned(
    target: &mut [u16],
    d: Counts,
    clause: &[u16],
    i: usize,
    which: Which,
    turn: Turn,
    scratch: &mut Scratch,
    ranks: &Ranks,
    filter: &mut [u64],
) -> Option<Counts>
    requires held { Held target.old d }
    requires ready { Ready (take d.variables target.old) ranks.now }
    requires covers { Covers target.old d filter.old }
    ensures built { (ψ : Formula) → Holds ψ target.old d → Built (with_raws ψ (raw_by which turn ψ.prefix i clause.now)) d.second result target.new }
    ensures covers_after { (e : Counts) → result ≡ Some e → Covers target.new e filter.new }
{
    if is_taken(which, ranks, i, clause) {
        let n = d.variables;
        let p = feed(scratch, Some(0), clause, i, turn, &target[..n], ranks);
        return close_filtered(target, d, scratch, p, ranks, filter);
    }
    Some(d)
}

// What becomes of all clauses of the source. The filter covers the target.
pub fn add_each_turned(
    source: &[u16],
    c: Counts,
    target: &mut [u16],
    d: Counts,
    which: Which,
    turn: Turn,
    scratch: &mut Scratch,
    ranks: &Ranks,
    filter: &mut [u64],
) -> Option<Counts>
    requires held { Held source.now c }
    requires held_target { Held target.old d }
    requires ready { Ready (take d.variables target.old) ranks.now }
    requires covers { Covers target.old d filter.old }
    ensures built { (φ ψ : Formula) → Holds φ source.now c → Holds ψ target.old d → Built (with_raws ψ (raws_by which turn ψ.prefix 0 φ.clauses)) d.second result target.new }
    ensures covers_after { (e : Counts) → result ≡ Some e → Covers target.new e filter.new }
{
    let mut e = d;
    for i in 0..c.clauses {
        let clause = clause_at(source, c, i);
        let next = add_turned(target, e, clause, i, which, turn, scratch, ranks, filter)?;
        // Kept: field by field. Taken over whole, the record is read before all of it is written, and the loop waits.
        e = Counts {
            variables: next.variables,
            clauses: next.clauses,
            literals: next.literals,
            second: next.second,
        };
    }
    Some(e)
}
