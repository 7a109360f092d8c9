// The occurrence index of a formula: for each literal the clauses that have it, and then the signatures of the clauses, in the idle table.
#![tactic(auto)]

mod at_hand;
mod fill;
mod lists;
mod signs;
mod starts;
mod tallies;

pub use at_hand::AtHand;
pub use fill::build_index;
pub use lists::{clauses_of, clauses_with};
pub use signs::{may_be_part, signature, signatures};
pub use tallies::{put_tally, times_in};
