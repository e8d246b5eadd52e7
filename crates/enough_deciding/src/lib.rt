//! Which rules of its ordering a traced script needs, or which of its lines that wait, and which sets of them suffice.
//!
//! Whether some rules are enough is decided by families of sets, so a script with more crash states than can be visited
//! is answered too.
#![tactic(auto)]

mod lines;
mod oracle;
mod waiting;

pub use lines::{LineOracle, Waiting};
pub use oracle::RuleOracle;
