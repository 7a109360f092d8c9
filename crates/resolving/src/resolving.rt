// Step 6, resolve: after the clauses without x, the resolvents by positive clause, then negative.
ghost use Rattle.std.specs.Prelude.{◌≡◌, ◌+◌, ◌<◌, true, not, length, take};
ghost use Rattle.meaning.specs.Formula.{Formula};
ghost use Rattle.meaning.specs.WellFormed.{well_formed};
ghost use Rattle.table.specs.Table.{decode, with_raw, Holds, Held};
ghost use Rattle.table.specs.Answer.{Became, Built};
ghost use Rattle.rules.specs.Entry.{resolve};
ghost use Rattle.rules.specs.Step.{permitted, result_of};
ghost use Rattle.merging.specs.Merging.{joined, Ordered};
ghost use Rattle.rebuilds.specs.Given.{Given, Begun};
ghost use Rattle.rebuilds.specs.Raws.{with_raws};
ghost use Rattle.recipes.specs.Recipe.{Ready};
ghost use Rattle.resolving.specs.Pairs.{each_of, of_pair, of_clause, Phases, Within};

use crate::pairs::{end_with, first_with, next_pair, opposite_bits};
use hints::close_hinted;
use merging::merge_in;
use rebuilds::rebuild;
use recipes::{Turn, Which};
use table::{Counts, Ranks, Scratch, clause_at, contains};

// The resolvent of x, which has the positive literal, and y, which has the negative one.
fn add_pair(
    target: &mut [u16],
    d: Counts,
    x: &[u16],
    y: &[u16],
    positive: u16,
    scratch: &mut Scratch,
    ranks: &Ranks,
) -> Option<Counts>
    requires held { Held target.old d }
    requires ready { Ready (take d.variables target.old) ranks.now }
    requires bound { positive < 2047 }
    requires ordered { Ordered x.now × Ordered y.now }
    ensures { (ψ : Formula) → Holds ψ target.old d → Became ψ (with_raw ψ (joined positive (positive + 1) x.now y.now)) d.second result target.new }
{
    let p = merge_in(scratch, x, y, positive);
    close_hinted(target, d, scratch, p, ranks)
}

// The resolvents of x and all clauses; those with the negative literal are among the clauses from one to another.
fn add_pairs(
    source: &[u16],
    c: Counts,
    target: &mut [u16],
    d: Counts,
    x: &[u16],
    positive: u16,
    negative: u16,
    from: usize,
    to: usize,
    scratch: &mut Scratch,
    ranks: &Ranks,
) -> Option<Counts>
    requires held { Held source.now c }
    requires held_target { Held target.old d }
    requires ready { Ready (take d.variables target.old) ranks.now }
    requires within { Within positive negative (decode source.now c) from to }
    requires ordered { Ordered x.now }
    ensures { (φ ψ : Formula) → Holds φ source.now c → Holds ψ target.old d → Built (with_raws ψ (each_of (of_pair positive negative x.now) φ.clauses)) d.second result target.new }
{
    let bits = opposite_bits(x);
    let mut e = d;
    let mut i = next_pair(source, c, x, bits, negative, from, to);
    // Kept: from one clause to the next that may have a resolvent with x, which is not the next one.
    while i < to {
        e = add_pair(
            target,
            e,
            x,
            clause_at(source, c, i),
            positive,
            scratch,
            ranks,
        )?;
        i = next_pair(source, c, x, bits, negative, i + 1, to);
    }
    Some(e)
}

// The resolvents of clause x, where it has the positive literal, and all clauses.
fn add_clause_pairs(
    source: &[u16],
    c: Counts,
    target: &mut [u16],
    d: Counts,
    x: &[u16],
    positive: u16,
    negative: u16,
    from: usize,
    to: usize,
    scratch: &mut Scratch,
    ranks: &Ranks,
) -> Option<Counts>
    requires held { Held source.now c }
    requires held_target { Held target.old d }
    requires ready { Ready (take d.variables target.old) ranks.now }
    requires within { Within positive negative (decode source.now c) from to }
    requires ordered { Ordered x.now }
    ensures { (φ ψ : Formula) → Holds φ source.now c → Holds ψ target.old d → Built (with_raws ψ (of_clause positive negative φ.clauses x.now)) d.second result target.new }
{
    if contains(x, positive) {
        return add_pairs(
            source, c, target, d, x, positive, negative, from, to, scratch, ranks,
        );
    }
    Some(d)
}

// All resolvents, by positive clause.
fn add_by_positive(
    source: &[u16],
    c: Counts,
    target: &mut [u16],
    d: Counts,
    positive: u16,
    negative: u16,
    from: usize,
    to: usize,
    scratch: &mut Scratch,
    ranks: &Ranks,
) -> Option<Counts>
    requires held { Held source.now c }
    requires held_target { Held target.old d }
    requires ready { Ready (take d.variables target.old) ranks.now }
    requires within { Within positive negative (decode source.now c) from to }
    ensures { (φ ψ : Formula) → Holds φ source.now c → Holds ψ target.old d → Built (with_raws ψ (each_of (of_clause positive negative φ.clauses) φ.clauses)) d.second result target.new }
{
    let mut e = d;
    for i in 0..c.clauses {
        let x = clause_at(source, c, i);
        e = add_clause_pairs(
            source, c, target, e, x, positive, negative, from, to, scratch, ranks,
        )?;
    }
    Some(e)
}

// All resolvents. Where the clauses with the negative literal begin and end is looked for once.
fn add_resolvents(
    source: &[u16],
    c: Counts,
    target: &mut [u16],
    d: Counts,
    positive: u16,
    negative: u16,
    scratch: &mut Scratch,
    ranks: &Ranks,
) -> Option<Counts>
    requires held { Held source.now c }
    requires held_target { Held target.old d }
    requires ready { Ready (take d.variables target.old) ranks.now }
    requires c_value { (well_formed (decode source.now c) ≡ true) × Phases positive negative }
    ensures { (φ ψ : Formula) → Holds φ source.now c → Holds ψ target.old d → Built (with_raws ψ (each_of (of_clause positive negative φ.clauses) φ.clauses)) d.second result target.new }
{
    let from = first_with(source, c, negative);
    let to = end_with(source, c, negative, from);
    add_by_positive(
        source, c, target, d, positive, negative, from, to, scratch, ranks,
    )
}

// 6. The clauses without a, then the resolvents.
pub fn resolve_into(
    source: &[u16],
    c: Counts,
    target: &mut [u16],
    scratch: &mut Scratch,
    ranks: &mut Ranks,
    a: usize,
) -> Option<Counts>
    requires { Begun source.now c target.old scratch.old ranks.old }
    ensures { (φ : Formula) → Given φ source.now c ranks.old → permitted φ resolve a 0 ≡ true → Built (result_of φ resolve a 0) (not c.second) result target.new }
{
    if Counts::VARIABLES < a {
        return None;
    }
    let v = a as u16;
    let positive = 2 * v;
    let negative = 2 * v + 1;
    let d = rebuild(
        source,
        c,
        v,
        target,
        Which::Free(positive),
        Turn::Same,
        scratch,
        ranks,
    )?;
    add_resolvents(source, c, target, d, positive, negative, scratch, ranks)
}
