//! What the operations of a small file system change on a disk image, and when they are refused.
//!
//! [`plan`] answers the changes of an operation, in the order in which they are emitted, or the first refusal;
//! [`apply`] makes them. Both are defined for every image, also for a damaged one: see `specs/Plan.antt` of the crate
//! `crash_model`, which reads as the file system's own tables.
#![tactic(auto)]

mod applying;
mod changes;
mod demanding;
mod dropping;
mod live_inodes;
mod lookup;
mod planning;
mod saving;

pub use applying::apply;
pub use crash_model::names::{Name, Path};
pub use crash_model::operations::Op;
pub use crash_model::plans::{Change, Plan, Role};
pub use crash_model::refusals::FsFault;
pub use demanding::{Demanding, demands};
pub use lookup::{Entry, find};
pub use planning::plan;
