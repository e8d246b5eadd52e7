//! What a run is asked, and what each answer is about. `report` has the definitions of whole answers.
//!
//! Which closed sets fail is answered by exploring them. The other questions are answered without: which faults a crash
//! can leave, which rules of an ordering or which lines that wait a script needs, and which workloads of a pool fail. A
//! pool is a list of operations, and a workload is a sequence of a few of them, with repetitions.
//!
//! The definitions that contracts cite are in `specs/`. None of them is code; the crates above are proved to meet them.
#![tactic(auto)]

pub mod decided_fault;
pub mod found;
pub mod length;
pub mod limit;
pub mod question;
pub mod verdict;

pub use decided_fault::DecidedFault;
pub use found::{Places, RefusedCount, SearchCounts, ShownKind};
pub use length::{MAX_OPERATIONS, WorkloadLength};
pub use limit::SetLimit;
pub use question::{MAX_SYNCS, Question, Request};
pub use verdict::Verdict;
