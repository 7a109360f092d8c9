// The step that a call names, by its kind.
ghost use Rattle.std.specs.Prelude.{◌≡◌, true, not};
ghost use Rattle.meaning.specs.Formula.{Formula};
ghost use Rattle.table.specs.Answer.{Built};
ghost use Rattle.permits.specs.Calls.{called};
ghost use Rattle.rebuilds.specs.Given.{Given, Begun};
ghost use Rattle.steps.specs.Decide.{call_permitted};
ghost use Rattle.apply.specs.Applied.{call_result};

use expanding::expand_into;
use permits::Call;
use resolving::resolve_into;
use steps::{equality_into, pure_into, strengthen_into, subsume_into, unit_into};
use table::{Counts, Ranks, Scratch};

// A permitted step, into a target that is all zero; None for want of room.
// Kept: one match over the steps, since each kind is done by a function of its own and a caller has a call of any kind.
pub fn perform(
    source: &[u16],
    c: Counts,
    target: &mut [u16],
    scratch: &mut Scratch,
    ranks: &mut Ranks,
    call: Call,
) -> Option<Counts>
    requires { Begun source.now c target.old scratch.old ranks.old }
    ensures { (φ : Formula) → Given φ source.now c ranks.old → call_permitted φ (called call) ≡ true → Built (call_result φ (called call)) (not c.second) result target.new }
{
    match call {
        Call::Unit(a) => unit_into(source, c, target, scratch, ranks, a),
        Call::Pure(a) => pure_into(source, c, target, scratch, ranks, a),
        Call::Subsume(a, b) => subsume_into(source, c, target, scratch, ranks, a, b),
        Call::Strengthen(a, b) => strengthen_into(source, c, target, scratch, ranks, a, b),
        Call::Equality(a, b) => equality_into(source, c, target, scratch, ranks, a, b),
        Call::Resolve(a) => resolve_into(source, c, target, scratch, ranks, a),
        Call::Expand(a) => expand_into(source, c, target, scratch, ranks, a),
    }
}
