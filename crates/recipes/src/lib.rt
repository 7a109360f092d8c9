// Recipes: which clauses of a formula are taken, and what becomes of their literals.
#![tactic(auto)]

mod recipes;

pub use recipes::{feed, is_left, is_taken, leaves_none};

// Which clauses of the source are taken.
// Kept: the two are values and no closures, since is_left and leaves_none look into a turn, and the definitions taken and turned do.
#[derive(Clone, Copy)]
pub enum Which {
    // all; all but one
    All,
    But(usize),
    // those without a literal; those with neither it nor its opposite
    Without(u16),
    Free(u16),
    // those with no variable behind a place of the new prefix; those with one, without a literal
    Near(usize),
    Far(usize, u16),
}

// What becomes of the literals of a clause.
#[derive(Clone, Copy)]
pub enum Turn {
    Same,
    // a literal leaves every clause; it leaves one clause
    Drop(u16),
    DropAt(usize, u16),
    // the first becomes the second, and its opposite the second's
    Replace(u16, u16),
    // a literal leaves; a variable behind a place becomes the one so many places further right in the new prefix
    Copy(u16, usize, u16),
}
