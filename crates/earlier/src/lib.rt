// Whether a resolvent came before, looked for by the index.
#![tactic(auto)]

mod earlier;

pub use earlier::is_made_earlier;
