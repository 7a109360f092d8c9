// Which clauses step 6 looks at.
#![tactic(auto)]

mod near;
mod others;
mod parts;
mod picks;
mod places;
mod sides;

pub use near::is_near;
pub use picks::{flag_far, flag_with};
pub use sides::thin;

// A flag for each literal, or for each clause.
pub type Flags = [u64; 32];
