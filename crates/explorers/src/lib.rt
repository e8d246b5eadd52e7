//! Many workers explore a space over one board.
//!
//! Whatever the schedule, an answer other than out of memory is that of one worker: how many words are reached, and
//! which of them are not good.
#![tactic(auto)]

mod answers;
mod collected;
mod expanding;
mod exploration;
mod exploring;
mod primes;
mod recently_seen;
mod searching;
mod stealing;
mod tasks;
mod worker;

pub use exploring::{Exploring, explore};
pub use patch_sets::explored::{ExploreFault, Explored};
pub use primes::prime_at_least;
pub use seen_board::SHARDS;
pub use thread_jobs::{Gate, OpenGate};
