// The resolvent of two clauses: made, and held against a clause.
#![tactic(auto)]

mod resolvents;

pub use resolvents::{fits_in, gives, resolve_pair};
