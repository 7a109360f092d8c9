// Whether the step that a call names is permitted.
ghost use Rattle.std.specs.Prelude.{◌≡◌};
ghost use Rattle.meaning.specs.Formula.{Formula};
ghost use Rattle.table.specs.Table.{Held};
ghost use Rattle.rules.specs.Simplify.{strengthen_permitted};
ghost use Rattle.permits.specs.Calls.{called, call_read};
ghost use Rattle.rebuilds.specs.Given.{Given};
ghost use Rattle.steps.specs.Decide.{call_permitted};

use permits::{
    Call, equality_permitted, expand_permitted, pure_permitted, resolve_permitted,
    strengthening_of, subsume_permitted, unit_permitted,
};
use table::{Counts, Ranks};

// Whether clause a strengthens clause b.
fn strengthen_permitted(source: &[u16], c: Counts, ranks: &Ranks, a: usize, b: usize) -> bool
    requires held { Held source.now c }
    ensures { (φ : Formula) → Given φ source.now c ranks.now → result ≡ strengthen_permitted φ a b }
{
    strengthening_of(source, c, ranks, a, b).is_some()
}

// Whether the step is permitted.
// Kept: one match over the steps, since each kind has a test of its own and a caller has a call of any kind.
fn is_call_permitted(source: &[u16], c: Counts, ranks: &Ranks, call: Call) -> bool
    requires held { Held source.now c }
    ensures { (φ : Formula) → Given φ source.now c ranks.now → result ≡ call_permitted φ (called call) }
{
    match call {
        Call::Unit(a) => unit_permitted(source, c, a),
        Call::Pure(a) => pure_permitted(source, c, ranks, a),
        Call::Subsume(a, b) => subsume_permitted(source, c, a, b),
        Call::Strengthen(a, b) => strengthen_permitted(source, c, ranks, a, b),
        Call::Equality(a, b) => equality_permitted(source, c, a, b),
        Call::Resolve(a) => resolve_permitted(source, c, ranks, a),
        Call::Expand(a) => expand_permitted(source, c, ranks, a),
    }
}

// The same of what an entry says. A bad entry permits nothing.
pub fn is_permitted(source: &[u16], c: Counts, ranks: &Ranks, call: Option<Call>) -> bool
    requires held { Held source.now c }
    ensures { (φ : Formula) → Given φ source.now c ranks.now → result ≡ call_permitted φ (call_read call) }
{
    match call {
        Some(call) => is_call_permitted(source, c, ranks, call),
        None => false,
    }
}
