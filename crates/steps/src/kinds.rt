// The steps of kinds 1 to 5: each is a recipe.
ghost use Rattle.std.specs.Prelude.{◌≡◌, true, not};
ghost use Rattle.meaning.specs.Formula.{Formula};
ghost use Rattle.meaning.specs.Tidy.{tidied};
ghost use Rattle.rules.specs.Simplify.{becomes_true};
ghost use Rattle.rules.specs.Entry.{unit, pure, subsume, strengthen, equality};
ghost use Rattle.rules.specs.Step.{permitted, result_of};
ghost use Rattle.table.specs.Answer.{Built};
ghost use Rattle.rebuilds.specs.Given.{Given, Begun};

use permits::{pure_literal, replacement_of, strengthening_of, unit_literal};
use rebuilds::rebuild;
use recipes::{Turn, Which};
use table::{Counts, Ranks, Scratch, flip};

// The literal becomes true.
fn assign_into(
    source: &[u16],
    c: Counts,
    target: &mut [u16],
    scratch: &mut Scratch,
    ranks: &mut Ranks,
    literal: u16,
) -> Option<Counts>
    requires { Begun source.now c target.old scratch.old ranks.old }
    ensures { (φ : Formula) → Given φ source.now c ranks.old → Built (tidied (becomes_true literal φ)) (not c.second) result target.new }
{
    rebuild(
        source,
        c,
        literal / 2,
        target,
        Which::Without(literal),
        Turn::Drop(flip(literal)),
        scratch,
        ranks,
    )
}

// 1. The one literal of clause a becomes true.
pub fn unit_into(
    source: &[u16],
    c: Counts,
    target: &mut [u16],
    scratch: &mut Scratch,
    ranks: &mut Ranks,
    a: usize,
) -> Option<Counts>
    requires { Begun source.now c target.old scratch.old ranks.old }
    ensures { (φ : Formula) → Given φ source.now c ranks.old → Built (result_of φ unit a 0) (not c.second) result target.new }
{
    let literal = unit_literal(source, c, a);
    assign_into(source, c, target, scratch, ranks, literal)
}

// 2. The literal of a that is pure becomes true, that of a universal false.
pub fn pure_into(
    source: &[u16],
    c: Counts,
    target: &mut [u16],
    scratch: &mut Scratch,
    ranks: &mut Ranks,
    a: usize,
) -> Option<Counts>
    requires { Begun source.now c target.old scratch.old ranks.old }
    ensures { (φ : Formula) → Given φ source.now c ranks.old → permitted φ pure a 0 ≡ true → Built (result_of φ pure a 0) (not c.second) result target.new }
{
    let literal = pure_literal(source, c, ranks, a);
    assign_into(source, c, target, scratch, ranks, literal)
}

// 3. Clause b goes.
pub fn subsume_into(
    source: &[u16],
    c: Counts,
    target: &mut [u16],
    scratch: &mut Scratch,
    ranks: &mut Ranks,
    a: usize,
    b: usize,
) -> Option<Counts>
    requires { Begun source.now c target.old scratch.old ranks.old }
    ensures { (φ : Formula) → Given φ source.now c ranks.old → Built (result_of φ subsume a b) (not c.second) result target.new }
{
    rebuild(
        source,
        c,
        0,
        target,
        Which::But(b),
        Turn::Same,
        scratch,
        ranks,
    )
}

// 4. The opposite of a's literal leaves clause b.
pub fn strengthen_into(
    source: &[u16],
    c: Counts,
    target: &mut [u16],
    scratch: &mut Scratch,
    ranks: &mut Ranks,
    a: usize,
    b: usize,
) -> Option<Counts>
    requires { Begun source.now c target.old scratch.old ranks.old }
    ensures { (φ : Formula) → Given φ source.now c ranks.old → permitted φ strengthen a b ≡ true → Built (result_of φ strengthen a b) (not c.second) result target.new }
{
    let l = strengthening_of(source, c, ranks, a, b)?;
    rebuild(
        source,
        c,
        0,
        target,
        Which::All,
        Turn::DropAt(b, flip(l)),
        scratch,
        ranks,
    )
}

// 5. The right-hand variable of the pair is replaced.
pub fn equality_into(
    source: &[u16],
    c: Counts,
    target: &mut [u16],
    scratch: &mut Scratch,
    ranks: &mut Ranks,
    a: usize,
    b: usize,
) -> Option<Counts>
    requires { Begun source.now c target.old scratch.old ranks.old }
    ensures { (φ : Formula) → Given φ source.now c ranks.old → permitted φ equality a b ≡ true → Built (result_of φ equality a b) (not c.second) result target.new }
{
    let swap = replacement_of(source, c, ranks, a);
    rebuild(
        source,
        c,
        swap.old / 2,
        target,
        Which::All,
        Turn::Replace(swap.old, swap.new),
        scratch,
        ranks,
    )
}
