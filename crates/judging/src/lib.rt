// Whether a lent table is what its record says, and well formed.
#![tactic(auto)]

mod check;
mod layout;
mod literals;

pub use check::well_formed;
pub use layout::layout_ok;
pub use literals::{literals_answer, literals_part, named};

// Why a call that looks at both lent tables is refused.
#[derive(Clone, Copy)]
pub enum Unfit {
    WrongLength,
    Malformed,
}
