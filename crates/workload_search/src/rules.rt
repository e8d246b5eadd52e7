//! Which rules of an ordering all workloads of a search need, asked of the workloads that do not fail.
//!
//! A judge says whether rules are enough for one workload. What it says about one after another shows which sets of
//! rules are enough for all of them together, and which groups are needed.

mod asking;
mod first;
mod judge;
mod oracle;
mod sharing;

pub use first::first_without;
pub use judge::RuleJudge;
pub use sharing::enough_for_all;
