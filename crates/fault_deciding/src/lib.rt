//! The faults that a crash can leave, decided without visiting the sets that it can leave.
//!
//! For each fault that a crash can leave at all, whole families of sets are asked, until the first set that has it is
//! found or none is left. So a graph with more sets than can be visited is decided too.
#![tactic(auto)]

mod asking;
mod candidates;
mod counting;
mod decider;
pub mod dependencies;
mod listing;
mod ordering;
mod promise;
mod question;
mod sets;
mod sharing;

pub use counting::closed_number;
pub use decider::Decider;
pub use question::FaultQuestion;
