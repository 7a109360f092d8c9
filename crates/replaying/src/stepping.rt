// One step, called by its log entry, over two lent tables.
ghost use Rattle.std.specs.Prelude.{◌≡◌};
ghost use Rattle.replaying.specs.Stepping.{step_number, given_back, Steps};

use apply::Refusal;
use judging::{Unfit, literals_answer};
use table::Counts;

// What comes of a step, or of a replay. No refusal: Done.
// Kept: no Result, since a record comes back with every answer, and the definitions Steps and Replays speak of both.
#[derive(Clone, Copy)]
pub enum StepAnswer {
    Done,
    Length,
    Malformed,
    BadEntry,
    NotPermitted,
    NoRoom,
}

impl StepAnswer {
    // Document 01's number; 0 where nothing is refused.
    // Kept: C takes numbers, and the demands speak of them.
    pub fn number(self) -> u8
        ensures { result ≡ step_number self }
    {
        match self {
            StepAnswer::Done => 0,
            StepAnswer::Length => 1,
            StepAnswer::Malformed => 2,
            StepAnswer::BadEntry => 12,
            StepAnswer::NotPermitted => 10,
            StepAnswer::NoRoom => 11,
        }
    }
}

// The answer, and the record of what the tables hold after it.
#[derive(Clone, Copy)]
pub struct Stepped {
    pub answer: StepAnswer,
    pub counts: Counts,
}

impl From<Refusal> for StepAnswer {
    ghost use Rattle.std.specs.Prelude.{◌≡◌};
    ghost use Rattle.replaying.specs.Stepping.{refused_back};

    ghost from_gives = { λ refusal answer. answer ≡ refused_back refusal };

    fn from(refusal: Refusal) -> StepAnswer {
        match refusal {
            Refusal::BadEntry => StepAnswer::BadEntry,
            Refusal::NotPermitted => StepAnswer::NotPermitted,
            Refusal::NoRoom => StepAnswer::NoRoom,
        }
    }
}

// What is given back of a step from tables that nothing is said against: the record of the result, or the record as lent.
fn give_back(r: Result<Counts, Refusal>, c: Counts) -> Stepped
    ensures { result ≡ given_back r c }
{
    match r {
        Ok(d) => Stepped {
            answer: StepAnswer::Done,
            counts: d,
        },
        Err(refusal) => Stepped {
            answer: StepAnswer::from(refusal),
            counts: c,
        },
    }
}

impl From<Unfit> for StepAnswer {
    ghost use Rattle.std.specs.Prelude.{◌≡◌};
    ghost use Rattle.replaying.specs.Stepping.{unfit_answer};

    ghost from_gives = { λ unfit answer. answer ≡ unfit_answer unfit };

    fn from(unfit: Unfit) -> StepAnswer {
        match unfit {
            Unfit::WrongLength => StepAnswer::Length,
            Unfit::Malformed => StepAnswer::Malformed,
        }
    }
}

// The step that the entry calls, from the table that the record names into the other. Any tables, any record, any entry.
pub fn step(first: &mut [u16], second: &mut [u16], c: Counts, entry: u32) -> Stepped
    ensures { Steps first.old second.old c entry result first.new second.new }
{
    match literals_answer(first, second, c) {
        Ok(()) => {
            let r = apply::step(first, second, c, entry, false);
            give_back(r, c)
        }
        Err(unfit) => Stepped {
            answer: unfit.into(),
            counts: c,
        },
    }
}
