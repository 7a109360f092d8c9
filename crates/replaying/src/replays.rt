// The replay of a log over two lent tables.
ghost use Rattle.std.specs.Prelude.{◌≡◌};
ghost use Rattle.replaying.specs.Replaying.{replayed_back, Replays};

use crate::stepping::StepAnswer;
use course::Replaying;
use judging::literals_answer;
use table::Counts;

// The answer (Done where all entries are applied, else the first refusal), the record of what the tables hold after it, and the
// number of entries applied.
#[derive(Clone, Copy)]
pub struct Replayed {
    pub answer: StepAnswer,
    pub counts: Counts,
    pub applied: usize,
}

// What is given back of a replay.
fn give_replay(r: Replaying) -> Replayed
    ensures { result ≡ replayed_back r }
{
    Replayed {
        answer: match r.stop {
            None => StepAnswer::Done,
            Some(refusal) => StepAnswer::from(refusal),
        },
        counts: r.counts,
        applied: r.applied,
    }
}

// The entries of the log, applied one after the other to the formula in the table that the record names, up to the first that is
// refused. Any tables, any record, any log.
pub fn replay(first: &mut [u16], second: &mut [u16], c: Counts, log: &[u8]) -> Replayed
    ensures { Replays first.old second.old c log.now result first.new second.new }
{
    match literals_answer(first, second, c) {
        Ok(()) => {
            let r = course::replay(first, second, c, log);
            give_replay(r)
        }
        Err(unfit) => Replayed {
            answer: unfit.into(),
            counts: c,
            applied: 0,
        },
    }
}
