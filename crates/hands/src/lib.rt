//! Hands, with which the workers of a pool pass tasks on.
//!
//! [`hands`] makes one [`Hand`] for each worker. A worker pushes tasks on its own deque and pops the newest of them,
//! and steals the oldest of another's. Each hand may go to a thread of its own, and none of its calls waits.
#![tactic(auto)]

mod account;
mod hand;
mod left;
mod making;
mod thief;

pub use hand::Hand;
pub use left::tasks_left;
pub use making::hands;
