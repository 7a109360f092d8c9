// The candidates of kinds 1 to 5 in a run, found by the occurrence index: the a and the b of the one that the run takes, if there is one.
#![tactic(auto)]

mod equalities;
mod pures;
mod rarity;
mod sizes;
mod strengthening;
mod subsumption;
mod units;

pub use equalities::find_equality;
pub use pures::find_pure;
pub use strengthening::find_strengthen;
pub use subsumption::find_subsume;
pub use units::find_unit;
