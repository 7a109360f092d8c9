// One step over two lent tables, and the steps of a log, one after the other.
#![tactic(auto)]

mod replays;
mod stepping;

pub use replays::{Replayed, replay};
pub use stepping::{StepAnswer, Stepped, step};
