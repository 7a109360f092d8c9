// What the result of step 6 would weigh, without building it.
#![tactic(auto)]

mod pairing;
mod resolving;

pub use growth::weight_of;
pub use resolving::{may_resolve, resolved_counts, weigh_resolve};
