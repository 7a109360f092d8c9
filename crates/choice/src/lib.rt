// Which step the run takes next (document 01, "The run").
#![tactic(auto)]

mod ahead;
mod kinds;
mod lightest;
mod searched;

pub use kinds::choose;

// How a run ends by itself.
#[derive(Clone, Copy)]
pub enum End {
    True,
    False,
    Finished,
    OutOfRoom,
}

// The run is over, or takes the step with this entry.
#[derive(Clone, Copy)]
pub enum Next {
    Over(End),
    Step(u32),
}

// What the run does next, and how many of the first clauses of the result were searched: kinds 3 and 4 have no candidate among them.
#[derive(Clone, Copy)]
pub struct Chosen {
    pub next: Next,
    pub searched: usize,
}

// Why none of the steps of kind 6 or 7 is taken: none is light enough, or one that is failed only for room.
#[derive(Clone, Copy)]
pub enum Lack {
    Steps,
    Room,
}

// The variable of the lightest step so far, and the weight that a result must stay below to be better.
#[derive(Clone, Copy)]
pub struct Standing {
    pub best: Result<usize, Lack>,
    pub below: usize,
}
