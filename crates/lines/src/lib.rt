// The lines of a written formula, each written into a lent buffer at a place, and the size of each without writing it, so
// that a caller can refuse before anything is written.
#![tactic(auto)]

pub mod bytes;
pub mod clauses;
pub mod headers;
pub mod numbers;
pub mod prefixes;
