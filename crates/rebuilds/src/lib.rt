// A formula rebuilt by a recipe, from one lent table into the other.
#![tactic(auto)]

mod leading;
mod prefixes;
mod rebuilding;
mod turning;

pub use prefixes::copy_prefix;
pub use rebuilding::{add_all, rebuild};
