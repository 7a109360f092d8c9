// What the programs that show the code at work share: a text read from standard input, numbers taken from bytes, tables filled and their used
// numbers counted.
#![tactic(auto)]

mod input;
mod numbers;
mod tables;

pub use input::read_text;
pub use numbers::{pair, take_long, take_word};
pub use tables::{fill, reach, used};
