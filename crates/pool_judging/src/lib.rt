//! Sequences of operations of a pool, judged by what a crash can leave of them, under all rules of an ordering or some.
//!
//! For each sequence a search asks whether an operation is refused, whether a set that a crash can leave fails, and
//! which set is the first with a fault of each kind. Whether some of the rules are enough for a workload is asked too;
//! each of these questions traces the workload anew. The faults are decided by families of sets, so a sequence with
//! more crash states than can be visited is judged too.
#![tactic(auto)]

mod copying;
mod firsts;
mod judge;
mod judging;
pub mod laws;
mod prefix;
mod rules;
mod traces;

pub use copying::{PoolSteps, pool_of, steps_at};
pub use judge::PoolJudge;
pub use prefix::TracedPrefix;
pub use rules::PoolRules;
pub use traces::{graph_but, traced_of};
