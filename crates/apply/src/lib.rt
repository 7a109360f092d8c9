// A step, called by its log entry, from one lent table into the other.
#![tactic(auto)]

mod between;
mod calls;

pub use between::step;

// Why a step is refused.
#[derive(Clone, Copy)]
pub enum Refusal {
    BadEntry,
    NotPermitted,
    NoRoom,
}
