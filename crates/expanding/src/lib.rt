// Step 7, expand, from one lent table into the other.
#![tactic(auto)]

mod copies;
mod expanding;

pub use expanding::expand_into;
