// The replay of a log: its entries are applied one after the other, up to the first that is refused.
ghost use Rattle.std.specs.Prelude.{◌≡◌, Some};
ghost use Rattle.meaning.specs.Formula.{Formula};
ghost use Rattle.rules.specs.Run.{replay_bytes};
ghost use Rattle.apply.specs.Applied.{Lends, Lent};
ghost use Rattle.course.specs.Course.{ReplayedAs};

use crate::Replaying;
use crate::between::clear_spare;
use crate::logs::first_entry;
use apply::{Refusal, step};
use table::Counts;

// What is given back of a replay that is refused, after so many entries.
fn refused(refusal: Refusal, counts: Counts, applied: usize) -> Replaying
    ensures { result ≡ record { stop = Some refusal; counts = counts; applied = applied } }
{
    Replaying {
        stop: Some(refusal),
        counts,
        applied,
    }
}

// A log whose length is no multiple of 4 is refused before any step.
pub fn replay(first: &mut [u16], second: &mut [u16], c: Counts, log: &[u8]) -> Replaying
    requires { Lent first.old second.old c }
    ensures { (φ : Formula) → Lends φ first.old second.old c → ReplayedAs (replay_bytes φ log.now) c.second result first.new second.new }
{
    clear_spare(first, second, c);
    if log.len() % 4 != 0 {
        return refused(Refusal::BadEntry, c, 0);
    }
    let mut d = c;
    for n in 0..log.len() / 4 {
        let entry = first_entry(&log[4 * n..]);
        match step(first, second, d, entry, false) {
            Ok(e) => {
                d = e;
            }
            Err(refusal) => {
                return refused(refusal, d, n);
            }
        }
    }
    Replaying {
        stop: None,
        counts: d,
        applied: log.len() / 4,
    }
}
