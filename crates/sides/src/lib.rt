// The clauses with a literal, by the index.
#![tactic(auto)]

mod sides;

pub use sides::{clause_with, count_with, is_clause, number_with, rarest, side_near, side_size};
