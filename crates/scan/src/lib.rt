// The front end of reading: where a text's tokens stand, what word each is, and what a word does. What a move does to a
// formula is left to the reader, whose loop is tied to the definition of reading by the laws of proofs/Reached.antt.
#![tactic(auto)]

pub mod bytes;
pub mod moves;
pub mod words;
