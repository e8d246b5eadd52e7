//! Reports, as text and as JSON.
//!
//! Each thing that a report speaks of is a `Part`: it says how it is written as text, and which JSON value it has. A
//! whole report is a part too, and `written` gives its bytes.
#![tactic(auto)]

mod choices;
mod crash;
mod explained;
mod explaining;
mod fields;
mod found;
mod graph;
mod head;
mod kind;
mod making;
mod need;
mod part;
mod replayed;
mod reports;
mod search;
mod text;

pub use choices::{Choices, Enough, sets_of_lines, sets_of_rules};
pub use crash::{Crash, FirstCrash, Section};
pub use explained::{Dependency, ExplainedPatch};
pub use explaining::explained_patches;
pub use found::FoundFault;
pub use graph::Head;
pub use kind::Kind;
pub use making::detail::Detail;
pub use making::first::first_crash;
pub use making::kinds::first_of_kinds;
pub use making::lines::needs_of_lines;
pub use making::maker::{CrashMaker, first_crashes, sections};
pub use making::rules::needs_of_rules;
pub use making::workloads::needs_of_workloads;
pub use need::Need;
pub use part::{Done, Form, Part, Word, written};
pub use replayed::ReplayedBlock;
pub use reports::{Decision, FailingSets};
pub use search::{FoundKinds, FoundRules, SearchHead};
