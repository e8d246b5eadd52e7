//! The rule of a board: what holds between any two steps of the seats that share it, and which steps keep it.
//!
//! A board has 13 shards, each with a reader and writer lock, a row of entries with a life each, and an index, and
//! three counters: pending, the count and the stop. All of them are words of one `atomic_table`. The rule has one fact
//! for each subject, about the words and what each seat knows (`specs/`); `proofs/` has a lemma for each kind of step.
//! Nothing here runs.
#![tactic(auto)]

mod life;
mod shards;
mod view;

pub use life::Life;
pub use shards::SHARDS;
pub use view::View;
