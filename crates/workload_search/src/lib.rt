//! The search for workloads of a pool: which there are, which fail and which operations are refused, asked of a judge.
//! And which rules of an ordering all of them need that do not fail, asked of a judge of rules.
//!
//! Sequences of operations are tried level by level, shorter ones first. Only a sequence that is accepted and does not
//! fail is made longer, by each operation of the pool. Workers share the sequences of a level, and what they count is
//! joined in order, so the result is the same for each number of workers.
#![tactic(auto)]

mod batch;
mod counts;
mod found;
mod judge;
mod kinds;
mod levels;
pub mod places;
mod rules;
mod searching;
mod tally;
mod trials;

pub use judge::Judge;
pub use rules::{RuleJudge, enough_for_all, first_without};
pub use searching::{FoundWorkloads, search};
