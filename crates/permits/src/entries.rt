// Log entries: 32 bits, most significant first: kind 3, a 11, b 11, seven zeros.
ghost use Rattle.std.specs.Prelude.{◌≡◌, ◌<◌, cond, eqb, Some, None};
ghost use Rattle.rules.specs.Entry.{Kind, code, entry, read_entry};
ghost use Rattle.permits.specs.Calls.{call_read};

use crate::Call;

// The call, in a kind that has no use for b.
fn alone(call: Call, b: usize) -> Option<Call>
    ensures { result ≡ cond (eqb b 0) (Some call) None }
{
    if b == 0 {
        return Some(call);
    }
    None
}

// The call that an entry says; none where the entry is bad.
// Kept: an Option, since an entry is bad in one way only and there is no error to name.
pub fn read_entry(e: u32) -> Option<Call>
    ensures { call_read result ≡ read_entry e }
{
    if e % 128 != 0 {
        return None;
    }
    let kind = e / 536870912;
    let a = (e / 262144 % 2048) as usize;
    let b = (e / 128 % 2048) as usize;
    match kind {
        1 => alone(Call::Unit(a), b),
        2 => alone(Call::Pure(a), b),
        3 => Some(Call::Subsume(a, b)),
        4 => Some(Call::Strengthen(a, b)),
        5 => Some(Call::Equality(a, b)),
        6 => alone(Call::Resolve(a), b),
        7 => alone(Call::Expand(a), b),
        _ => None,
    }
}

// The entry that calls a step, by the number of its kind.
// Kept: the clause speaks of the kind's code, and document 01 gives each kind that number.
pub fn entry_of(kind: u32, a: usize, b: usize) -> u32
    requires { (kind < 8) × (a < 2048) × (b < 2048) }
    ensures { (k : Kind) → kind ≡ code k → result ≡ entry k a b }
{
    kind * 536870912 + (a as u32 * 262144 + b as u32 * 128)
}
