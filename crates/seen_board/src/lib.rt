//! A board of words that were seen, for seats of many threads.
#![tactic(auto)]

mod answers;
mod board;
mod claims;
mod contents;
mod entries;
mod finishing;
mod insertion;
mod layout;
mod locks;
mod lookup;
mod publishing;
mod refutations;
mod seat;
mod split_and_join;
mod steps;
mod waiting_calls;

pub use answers::{Got, Place, Put};
pub use board::Board;
pub use board_rule::{Life, SHARDS};
pub use contents::Contents;
pub use layout::shard_of;
pub use seat::BoardSeat;
pub use steps::{About, Order};
