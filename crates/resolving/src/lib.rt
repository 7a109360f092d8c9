// Step 6, resolve, from one lent table into the other.
#![tactic(auto)]

mod pairs;
mod resolving;

pub use resolving::resolve_into;
