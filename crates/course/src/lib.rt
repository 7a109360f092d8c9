// The run and the replay, on two lent tables (document 01, "The run").
#![tactic(auto)]

use apply::Refusal;
use choice::End;
use table::Counts;

mod between;
mod logs;
mod replays;
mod runs;

pub use replays::replay;
pub use runs::run;

// What a run gives back: how it ends by itself, None where the limit or the log stops it; the record of the final formula; the number
// of steps.
#[derive(Clone, Copy)]
pub struct Running {
    pub outcome: Option<End>,
    pub counts: Counts,
    pub steps: usize,
}

// What a replay gives back: why an entry is refused, None where all are applied; the record of the formula after the entries applied;
// their number.
#[derive(Clone, Copy)]
pub struct Replaying {
    pub stop: Option<Refusal>,
    pub counts: Counts,
    pub applied: usize,
}
