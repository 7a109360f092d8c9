// Two lent tables, one of which holds the formula: what is known of them, and what can be asked of them without touching them.
#![tactic(auto)]

mod asking;

pub use asking::{literals, literals_number};
