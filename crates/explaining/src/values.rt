// A reason as numbers, for callers who take numbers only: its kind, and the values that it names.
// Kept: 0 for no kind and for no value, since C takes numbers and the definitions give these.
ghost use Rattle.std.specs.Prelude.{◌≡◌};
ghost use Rattle.explaining.specs.Values.{reason_kind, reason_values};

use crate::explains::ReasonAnswer;

// The kind; 0 for a verdict or a refusal, which the answer's number tells.
#[tactic(auto, unfolding(crate::specs::Values::reason_kind))]
pub fn reason_kind(answer: ReasonAnswer) -> usize
    ensures { result ≡ reason_kind answer }
{
    match answer {
        ReasonAnswer::NextEntry(_) => 1,
        ReasonAnswer::OwnEntry(_) => 2,
        ReasonAnswer::TooFarRight(_, _, _) => 3,
        ReasonAnswer::NotLighter(_, _) => 4,
        ReasonAnswer::Between(_, _) => 5,
        ReasonAnswer::TooHeavy(_, _) => 6,
        ReasonAnswer::OverVariables => 7,
        ReasonAnswer::OverClauses => 8,
        ReasonAnswer::OverLiterals => 9,
        ReasonAnswer::True
        | ReasonAnswer::False
        | ReasonAnswer::Length
        | ReasonAnswer::Malformed
        | ReasonAnswer::Allowance
        | ReasonAnswer::NotPermitted => 0,
    }
}

// The values, in the order in which the reason names them, then zeros.
#[tactic(auto, unfolding(crate::specs::Values::reason_values, crate::specs::Values::no_values, crate::specs::Values::triple))]
pub fn reason_values(values: &mut [u64; 3], answer: ReasonAnswer)
    ensures { values.new ≡ reason_values answer }
{
    match answer {
        ReasonAnswer::NextEntry(e) | ReasonAnswer::OwnEntry(e) => *values = [e as u64, 0, 0],
        ReasonAnswer::TooFarRight(i, y, u) => *values = [i as u64, y as u64, u as u64],
        ReasonAnswer::Between(e, u) => *values = [e as u64, u as u64, 0],
        ReasonAnswer::NotLighter(m, n) => *values = [m as u64, n as u64, 0],
        ReasonAnswer::TooHeavy(m, n) => *values = [m as u64, n as u64, 0],
        ReasonAnswer::True
        | ReasonAnswer::False
        | ReasonAnswer::OverVariables
        | ReasonAnswer::OverClauses
        | ReasonAnswer::OverLiterals
        | ReasonAnswer::Length
        | ReasonAnswer::Malformed
        | ReasonAnswer::Allowance
        | ReasonAnswer::NotPermitted => *values = [0, 0, 0],
    }
}
