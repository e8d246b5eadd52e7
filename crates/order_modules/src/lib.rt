//! Orderings: the patches of a script's operations, and which must be on disk before which.
//!
//! An operation changes bytes of several blocks. Each change becomes a patch, and the rules of an ordering (none, soft
//! updates, a journal, or a user's own) say which patches must be committed before which. The user's patch groups add
//! orders between operations.
#![tactic(auto)]

mod base;
mod forcing;
mod groups;
mod log;
mod other_graphs;
mod stepping;
mod tracer;
mod transactions;
mod waiting;

pub use base::build_base;
pub use crash_model::modules::Module;
pub use crash_model::names::GroupName;
pub use crash_model::orderings::Ordering;
pub use crash_model::refusals::TraceFault;
pub use crash_model::steps::{Act, Step};
pub use other_graphs::{graph_by, graph_waiting};
pub use traced_patches::{Label, Origin, Reason, Reasons, Traced};
pub use tracer::{Tracer, trace};
