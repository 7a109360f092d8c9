// The steps of kinds 1 to 5, from one lent table into the other, and whether a call is permitted.
#![tactic(auto)]

mod deciding;
mod kinds;

pub use deciding::is_permitted;
pub use kinds::{equality_into, pure_into, strengthen_into, subsume_into, unit_into};
