// The face: the public operations and nothing else.
#![tactic(auto)]

pub use explaining::{ReasonAnswer, Reasoned, reason, reason_kind, reason_values};
pub use reader::{ReadAnswer, Reading, read};
pub use replaying::{Replayed, StepAnswer, Stepped, replay, step};
pub use running::{Ran, RunAnswer, run};
pub use standing::{literals, literals_number};
pub use table::Counts;
pub use writer::{WriteAnswer, Writing, write};
