// Why a variable is left (request 2), asked of two lent tables; and a reason as numbers.
#![tactic(auto)]

mod explains;
mod values;

pub use explains::{ReasonAnswer, Reasoned, reason};
pub use values::{reason_kind, reason_values};
