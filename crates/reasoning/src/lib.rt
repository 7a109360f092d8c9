// Why a variable is left (request 2), decided on a work table that holds a formula.
#![tactic(auto)]

mod behind;
mod explaining;
mod far;
mod looking;
mod weights;

pub use explaining::explain;

// The reasons. True, False: the formula has that verdict. NextEntry: the run's next log entry. OwnEntry: that of the step on the variable,
// which counts. TooFarRight: a clause, its variable that is too far right, the first universal right of the variable. NotLighter: the
// weight, and that after resolving. Between: the existential and the universal after it that block a universal. TooHeavy: the weight, and
// that after expanding. Over..: the limit that the result would pass first.
#[derive(Clone, Copy)]
pub enum Why {
    True,
    False,
    NextEntry(u32),
    OwnEntry(u32),
    TooFarRight(usize, usize, usize),
    NotLighter(usize, usize),
    Between(usize, usize),
    TooHeavy(usize, usize),
    OverVariables,
    OverClauses,
    OverLiterals,
}
