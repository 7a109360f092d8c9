// Which steps are permitted, decided on a work table that holds a formula; and the log entries that call them.
#![tactic(auto)]

mod entries;
mod equalities;
mod expansion;
mod occurrences;
mod pures;
mod ranks;
mod resolution;
mod strengthening;
mod subsumption;
mod units;
mod variables;

pub use entries::{entry_of, read_entry};
pub use equalities::{equality_permitted, replacement_of};
pub use expansion::expand_permitted;
pub use occurrences::occurs;
pub use pures::{pure_literal, pure_permitted};
pub use ranks::{in_prefix, is_existential, is_universal, place_of};
pub use resolution::{first_universal, is_within, resolve_permitted};
pub use strengthening::strengthening_of;
pub use subsumption::subsume_permitted;
pub use units::{literal_at, unit_literal, unit_permitted};
pub use variables::{count_existentials, has_variable};

// The step that a log entry calls.
#[derive(Clone, Copy)]
pub enum Call {
    Unit(usize),
    Pure(usize),
    Subsume(usize, usize),
    Strengthen(usize, usize),
    Equality(usize, usize),
    Resolve(usize),
    Expand(usize),
}

// A literal, and the one that it becomes everywhere.
#[derive(Clone, Copy)]
pub struct Replacement {
    pub old: u16,
    pub new: u16,
}
