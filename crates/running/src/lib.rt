// A run over two lent tables and a lent log.
#![tactic(auto)]

mod runs;

pub use runs::{Ran, RunAnswer, run};
