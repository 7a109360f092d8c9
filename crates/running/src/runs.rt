// The run over two lent tables, with an allowance, a limit of steps and a lent log.
ghost use Rattle.std.specs.Prelude.{◌≡◌};
ghost use Rattle.running.specs.Running.{run_number, ran_back, Runs};

use choice::End;
use course::Running;
use judging::{Unfit, literals_answer};
use table::Counts;

// What comes of a call: how the run ends, or why it is refused.
// Kept: no Result, since a record comes back with every answer, and the definition Runs speaks of both.
#[derive(Clone, Copy)]
pub enum RunAnswer {
    True,
    False,
    Finished,
    OutOfRoom,
    Stopped,
    Length,
    Malformed,
    Allowance,
}

impl RunAnswer {
    // Document 01's number.
    // Kept: C takes numbers, and the demands speak of them.
    pub fn number(self) -> u8
        ensures { result ≡ run_number self }
    {
        match self {
            RunAnswer::True => 20,
            RunAnswer::False => 21,
            RunAnswer::Finished => 22,
            RunAnswer::OutOfRoom => 23,
            RunAnswer::Stopped => 24,
            RunAnswer::Length => 1,
            RunAnswer::Malformed => 2,
            RunAnswer::Allowance => 13,
        }
    }
}

// The answer, the record of what the tables hold after it, and the number of steps taken.
#[derive(Clone, Copy)]
pub struct Ran {
    pub answer: RunAnswer,
    pub counts: Counts,
    pub steps: usize,
}

impl From<Unfit> for RunAnswer {
    ghost use Rattle.std.specs.Prelude.{◌≡◌};
    ghost use Rattle.running.specs.Running.{unfit_answer};

    ghost from_gives = { λ unfit answer. answer ≡ unfit_answer unfit };

    fn from(unfit: Unfit) -> RunAnswer {
        match unfit {
            Unfit::WrongLength => RunAnswer::Length,
            Unfit::Malformed => RunAnswer::Malformed,
        }
    }
}

// A refusal: the record as it was lent, and 0 steps.
fn refuse(answer: RunAnswer, c: Counts) -> Ran
    ensures { result ≡ record { answer = answer; counts = c; steps = 0 } }
{
    Ran {
        answer,
        counts: c,
        steps: 0,
    }
}

// How a run ends; STOPPED where it does not end by itself.
impl From<Option<End>> for RunAnswer {
    ghost use Rattle.std.specs.Prelude.{◌≡◌};
    ghost use Rattle.running.specs.Running.{answer_back};

    ghost from_gives = { λ outcome answer. answer ≡ answer_back outcome };

    fn from(outcome: Option<End>) -> RunAnswer {
        match outcome {
            Some(End::True) => RunAnswer::True,
            Some(End::False) => RunAnswer::False,
            Some(End::Finished) => RunAnswer::Finished,
            Some(End::OutOfRoom) => RunAnswer::OutOfRoom,
            None => RunAnswer::Stopped,
        }
    }
}

// What is given back of a run.
fn give_run(r: Running) -> Ran
    ensures { result ≡ ran_back r }
{
    Ran {
        answer: r.outcome.into(),
        counts: r.counts,
        steps: r.steps,
    }
}

// The run from the formula in the table that the record names. Any tables, any record, any numbers, any log.
pub fn run(
    first: &mut [u16],
    second: &mut [u16],
    c: Counts,
    allowance: usize,
    limit: usize,
    log: &mut [u8],
) -> Ran
    ensures { Runs first.old second.old c allowance limit log.old result first.new second.new log.new }
{
    match literals_answer(first, second, c) {
        Ok(()) => {
            if 1000 < allowance {
                return refuse(RunAnswer::Allowance, c);
            }
            let r = course::run(first, second, c, allowance, limit, log);
            give_run(r)
        }
        Err(unfit) => refuse(unfit.into(), c),
    }
}
