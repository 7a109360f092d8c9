// The work table: the layer between lists and the two lent tables. Everything above goes through these functions.
#![tactic(auto)]

ghost use Rattle.std.specs.Prelude.{◌≡◌, ◌+◌, ◌≤◌, ◌<◌, false};
ghost use Rattle.table.specs.Table.{empty_formula, counts_of, clause_more, variable_more};

mod clauses;
mod insert;
mod parts;
mod ranks;
mod raw;
mod reduce;
mod tests;

pub use clauses::{add_clause, push_clause, push_variable, zero};
pub use parts::{clause_at, first_equal, is_before, is_present};
pub use ranks::{add_rank, is_new, rank_prefix};
pub use raw::{add_raw, close_clause, put_clause, put_literal, tidy_in};
pub use reduce::{all_stay, all_stay_by, last_by, rank_of, stays_by};
pub use tests::{contains, equal, flip, part_of};

// How much of a table is used, and which of the two lent tables it is.
#[derive(Clone, Copy)]
pub struct Counts {
    pub variables: usize,
    pub clauses: usize,
    pub literals: usize,
    pub second: bool,
}

impl Counts {
    // At most so many variables, clauses and literals; variables are numbered up to the first.
    pub const VARIABLES: usize = 1023;

    pub const CLAUSES: usize = 2047;

    pub const LITERALS: usize = 8191;

    // Where the clause ends and the literals begin in a table, and how long it is.
    pub const ENDS_AT: usize = 1023;

    pub const LITERALS_AT: usize = 3070;

    pub const TABLE: usize = 11261;

    // The record of a table that is all zero.
    pub fn empty() -> Self
        ensures { result ≡ counts_of empty_formula false }
    {
        Self {
            variables: 0,
            clauses: 0,
            literals: 0,
            second: false,
        }
    }

    // The record after a clause of so many literals is added.
    pub fn with_clause(self, size: usize) -> Self
        requires { (self.clauses < 2047) × (self.literals + size ≤ 8191) }
        ensures { result ≡ clause_more self size }
    {
        Self {
            clauses: self.clauses + 1,
            literals: self.literals + size,
            ..self
        }
    }

    // The record after a variable is added to the prefix.
    pub fn with_variable(mut self) -> Self
        requires { self.variables < 1023 }
        ensures { result ≡ variable_more self }
    {
        self.variables += 1;
        self
    }
}

// The ranks of a prefix, by variable. Number 0 is no variable.
pub type Ranks = [u16; 1024];

// Room for the literals of one clause, one of each variable at most.
pub type Scratch = [u16; 1023];

// A raw clause on its way into the table: how many literals of the scratch are its own; None once both phases of a variable were seen.
pub type Pending = Option<usize>;
