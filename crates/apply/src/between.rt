// From one lent table into the other: the call is read, tested and done, and one of the two tables ends zero.
ghost use Rattle.std.specs.Prelude.{◌≡◌, true, not, length};
ghost use Rattle.meaning.specs.Formula.{Formula};
ghost use Rattle.meaning.specs.WellFormed.{well_formed};
ghost use Rattle.table.specs.Table.{table_of, empty_formula, Holds, Held};
ghost use Rattle.apply.specs.Applied.{Known, Kept, Tried, Settled, Applied, Lends, Lent, Moves};
ghost use Rattle.permits.specs.Calls.{called};
ghost use Rattle.steps.specs.Decide.{call_permitted};
ghost use Rattle.rebuilds.specs.Given.{Given};

use crate::Refusal;
use crate::calls::perform;
use permits::{Call, read_entry};
use steps::is_permitted;
use table::{Counts, Ranks, rank_prefix, zero};

// Whether the step is permitted. A caller who knows that it is spares the look through the clauses.
fn may_go(source: &[u16], c: Counts, ranks: &Ranks, call: Call, known: bool) -> bool
    requires { Held source.now c × ((φ : Formula) → Given φ source.now c ranks.now → known ≡ true → call_permitted φ (called call) ≡ true) }
    ensures { (φ : Formula) → Given φ source.now c ranks.now → result ≡ call_permitted φ (called call) }
{
    known || is_permitted(source, c, ranks, Some(call))
}

// Does the step that the entry calls into a target that is all zero, where it is permitted.
fn attempt(
    source: &[u16],
    c: Counts,
    target: &mut [u16],
    entry: u32,
    known: bool,
) -> Result<Counts, Refusal>
    requires { Kept source.now c × (target.old ≡ table_of empty_formula) × ((φ : Formula) → Holds φ source.now c → well_formed φ ≡ true → Known φ entry known) }
    ensures { (φ : Formula) → Holds φ source.now c → well_formed φ ≡ true → Tried φ entry (not c.second) result target.new }
{
    let call = read_entry(entry).ok_or(Refusal::BadEntry)?;
    let mut ranks = [0u16; 1024];
    rank_prefix(&source[..c.variables], &mut ranks);
    if !may_go(source, c, &ranks, call, known) {
        return Err(Refusal::NotPermitted);
    }
    let mut scratch = [0u16; 1023];
    perform(source, c, target, &mut scratch, &mut ranks, call).ok_or(Refusal::NoRoom)
}

// Zeroes what is no longer needed: the source after a step, the target after a refusal.
fn settle(source: &mut [u16], target: &mut [u16], r: Result<Counts, Refusal>)
    requires { (length source.old ≡ 11261) × (length target.old ≡ 11261) }
    ensures { Settled r source.old target.old source.new target.new }
{
    match r {
        Ok(_) => zero(source),
        Err(_) => zero(target),
    }
}

// The step that the entry calls, from the source to the target, whatever that holds.
fn step_between(
    source: &mut [u16],
    c: Counts,
    target: &mut [u16],
    entry: u32,
    known: bool,
) -> Result<Counts, Refusal>
    requires { Kept source.old c × (length target.old ≡ 11261) × ((φ : Formula) → Holds φ source.old c → well_formed φ ≡ true → Known φ entry known) }
    ensures { (φ : Formula) → Holds φ source.old c → well_formed φ ≡ true → Applied φ entry (not c.second) result source.new target.new }
{
    zero(target);
    let r = attempt(source, c, target, entry, known);
    settle(source, target, r);
    r
}

// The same with two lent tables, from the one that the record names. A run knows that the step it chose is permitted; others do not.
pub fn step(
    first: &mut [u16],
    second: &mut [u16],
    c: Counts,
    entry: u32,
    known: bool,
) -> Result<Counts, Refusal>
    requires { Lent first.old second.old c × ((φ : Formula) → Lends φ first.old second.old c → Known φ entry known) }
    ensures { (φ : Formula) → Lends φ first.old second.old c → Moves φ entry c.second result first.new second.new }
{
    if c.second {
        return step_between(second, c, first, entry, known);
    }
    step_between(first, c, second, entry, known)
}
