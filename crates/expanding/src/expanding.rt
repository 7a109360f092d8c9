// Step 7, expand: the other clauses, then those with an inner existential for either value of the universal.
ghost use Rattle.std.specs.Prelude.{◌≡◌, ◌≤◌, true, not, length, take};
ghost use Rattle.meaning.specs.Formula.{Formula};
ghost use Rattle.table.specs.Table.{decode, Holds, Held};
ghost use Rattle.table.specs.Answer.{Built};
ghost use Rattle.rules.specs.Entry.{expand};
ghost use Rattle.rules.specs.Step.{permitted, result_of};
ghost use Rattle.rebuilds.specs.Given.{Given, Begun};
ghost use Rattle.rebuilds.specs.Raws.{with_raws};
ghost use Rattle.recipes.specs.Recipe.{Ready};
ghost use Rattle.recipes.specs.Left.{Shrunk};
ghost use Rattle.expanding.specs.Copies.{halves_by, expanded_by};

use crate::copies::push_copies;
use permits::{count_existentials, place_of};
use rebuilds::{add_all, copy_prefix};
use recipes::{Turn, Which};
use table::{Counts, Ranks, Scratch, rank_prefix};

// The clauses that reach behind place s: with v false, then with v true and each variable behind s become its copy.
fn add_halves(
    source: &[u16],
    c: Counts,
    target: &mut [u16],
    d: Counts,
    v: u16,
    s: usize,
    n: u16,
    scratch: &mut Scratch,
    ranks: &Ranks,
) -> Option<Counts>
    requires held { Held source.now c }
    requires held_target { Held target.old d }
    requires ready { Ready (take d.variables target.old) ranks.now }
    requires bound { v ≤ 1023 }
    requires shrunk { Shrunk v (take d.variables target.old) (decode source.now c) }
    ensures { (φ ψ : Formula) → Holds φ source.now c → Holds ψ target.old d → Built (with_raws ψ (halves_by v s n ψ.prefix φ.clauses)) d.second result target.new }
{
    let plain = 2 * v;
    let negated = 2 * v + 1;
    let e = add_all(
        source,
        c,
        target,
        d,
        v,
        Which::Far(s, negated),
        Turn::Drop(plain),
        scratch,
        ranks,
    )?;
    add_all(
        source,
        c,
        target,
        e,
        v,
        Which::Far(s, plain),
        Turn::Copy(negated, s, n),
        scratch,
        ranks,
    )
}

// The clauses that do not reach behind place s, then the others twice.
fn add_expanded(
    source: &[u16],
    c: Counts,
    target: &mut [u16],
    d: Counts,
    v: u16,
    s: usize,
    n: u16,
    scratch: &mut Scratch,
    ranks: &Ranks,
) -> Option<Counts>
    requires held { Held source.now c }
    requires held_target { Held target.old d }
    requires ready { Ready (take d.variables target.old) ranks.now }
    requires bound { v ≤ 1023 }
    requires shrunk { Shrunk v (take d.variables target.old) (decode source.now c) }
    ensures { (φ ψ : Formula) → Holds φ source.now c → Holds ψ target.old d → Built (with_raws ψ (expanded_by v s n ψ.prefix φ.clauses)) d.second result target.new }
{
    let e = add_all(
        source,
        c,
        target,
        d,
        v,
        Which::Near(s),
        Turn::Same,
        scratch,
        ranks,
    )?;
    add_halves(source, c, target, e, v, s, n, scratch, ranks)
}

// 7. The other clauses; the clauses with an inner existential, a false; the same with a true and the inner existentials renamed.
pub fn expand_into(
    source: &[u16],
    c: Counts,
    target: &mut [u16],
    scratch: &mut Scratch,
    ranks: &mut Ranks,
    a: usize,
) -> Option<Counts>
    requires { Begun source.now c target.old scratch.old ranks.old }
    ensures { (φ : Formula) → Given φ source.now c ranks.old → permitted φ expand a 0 ≡ true → Built (result_of φ expand a 0) (not c.second) result target.new }
{
    if Counts::VARIABLES < a {
        return None;
    }
    let v = a as u16;
    let n = count_existentials(&source[..c.variables], place_of(ranks, a));
    let d = copy_prefix(source, c, v, target, !c.second);
    let e = push_copies(target, d, ranks, c.variables as u16, n as u16)?;
    let m = e.variables;
    rank_prefix(&target[..m], ranks);
    // the inner existentials stand right of this place
    let s = d.variables - n;
    add_expanded(source, c, target, e, v, s, n as u16, scratch, ranks)
}
