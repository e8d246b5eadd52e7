//! Spaces of words to explore, and what is reached in them.
//!
//! A space has an initial word, a list of successors of each word, and words that are good, as in explicit-state
//! model checking (Clarke, Grumberg and Peled, "Model Checking", 1999). A word is a number of 128 bits.
#![tactic(auto)]

mod laws;
mod limits;
mod space;

pub use laws::reach_has_one_size;
pub use limits::MAX_BOARD;
pub use space::Space;
