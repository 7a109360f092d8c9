// Why a variable of the prefix is left: by what the run does next, and where that is no verdict and no step of kinds 1 to 5, by a look
// at the variable.
ghost use Rattle.std.specs.Prelude.{◌≡◌, ◌≤◌, true, length};
ghost use Rattle.meaning.specs.Formula.{Formula, mentions};
ghost use Rattle.meaning.specs.WellFormed.{well_formed};
ghost use Rattle.table.specs.Table.{table_of, empty_formula, Holds};
ghost use Rattle.index.specs.Build.{HeldWell};
ghost use Rattle.reasons.specs.Reason.{reason_of};
ghost use Rattle.reasoning.specs.Whys.{why_as};

use crate::Why;
use crate::looking::why_left;
use choice::{End, Next, choose};
use table::{Counts, zero};

// The reason, with the index left in the spare table where one was needed.
fn explain_with(t: &[u16], c: Counts, spare: &mut [u16], v: usize, allowance: usize) -> Why
    requires { HeldWell t.now c × (length spare.old ≡ 11261) × (allowance ≤ 1000) }
    ensures { (φ : Formula) → Holds φ t.now c → well_formed φ ≡ true → mentions φ.prefix v ≡ true → result ≡ why_as (reason_of allowance φ v) }
{
    let chosen = choose(t, c, spare, allowance, 0);
    match chosen.next {
        Next::Over(end) => match end {
            End::True => Why::True,
            End::False => Why::False,
            // Kept: two arms with one body; of arms written as one the proof learns nothing of the value that was matched.
            End::Finished => why_left(t, c, spare, v, allowance),
            End::OutOfRoom => why_left(t, c, spare, v, allowance),
        },
        Next::Step(entry) => {
            // Kept: the kind by the entry's three top bits, as the definition of an entry has it; reading the whole entry is no plainer.
            if entry / 536870912 <= 5 {
                return Why::NextEntry(entry);
            }
            why_left(t, c, spare, v, allowance)
        }
    }
}

// The reason for a variable of the prefix. The spare table ends zero, whatever it held.
pub fn explain(t: &[u16], c: Counts, spare: &mut [u16], v: usize, allowance: usize) -> Why
    requires { HeldWell t.now c × (length spare.old ≡ 11261) × (allowance ≤ 1000) }
    ensures value { (φ : Formula) → Holds φ t.now c → well_formed φ ≡ true → mentions φ.prefix v ≡ true → result ≡ why_as (reason_of allowance φ v) }
    ensures spare_after { spare.new ≡ table_of empty_formula }
{
    let r = explain_with(t, c, spare, v, allowance);
    zero(spare);
    r
}
