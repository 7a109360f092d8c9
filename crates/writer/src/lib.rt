// Writing: the formula in the lent table that the record names, as QDIMACS, into a lent output. The size is counted first,
// so that an output that is too short is refused before a byte of it is written.
#![tactic(auto)]

mod clauses;
mod formula;

ghost use Rattle.std.specs.Prelude.{◌≡◌};
ghost use Rattle.writer.specs.Written.{write_number, unfit_answer, Wrote};

use formula::write_held;
use judging::{Unfit, literals_answer, named};
use table::Counts;

// What comes of a call. No refusal: Written.
// Kept: no Result, since a number of bytes comes back with every answer, and the definition Wrote speaks of both.
#[derive(Clone, Copy)]
pub enum WriteAnswer {
    Written,
    Length,
    Malformed,
    NoRoom,
}

impl WriteAnswer {
    // Document 01's number; 0 where nothing is refused.
    // Kept: C takes numbers, and the demands speak of them.
    pub fn number(self) -> u8
        ensures { result ≡ write_number self }
    {
        match self {
            WriteAnswer::Written => 0,
            WriteAnswer::Length => 1,
            WriteAnswer::Malformed => 2,
            WriteAnswer::NoRoom => 11,
        }
    }
}

// The answer, and how many bytes of the output are the text; 0 for a refusal.
#[derive(Clone, Copy)]
pub struct Writing {
    pub answer: WriteAnswer,
    pub bytes: usize,
}

impl From<Unfit> for WriteAnswer {
    ghost from_gives = { λ unfit answer. answer ≡ unfit_answer unfit };

    fn from(unfit: Unfit) -> Self {
        match unfit {
            Unfit::WrongLength => WriteAnswer::Length,
            Unfit::Malformed => WriteAnswer::Malformed,
        }
    }
}

// The formula of the table that the record names. Any tables, any record, any output.
pub fn write(first: &[u16], second: &[u16], c: Counts, out: &mut [u8]) -> Writing
    ensures { Wrote first.now second.now c out.old result out.new }
{
    match literals_answer(first, second, c) {
        Ok(()) => write_held(named(first, second, c), c, out),
        Err(unfit) => Writing {
            answer: unfit.into(),
            bytes: 0,
        },
    }
}
