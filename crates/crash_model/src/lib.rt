//! The data that crashmap uses: names, operations, changes, patches, steps, faults and refusals.
//!
//! The definitions that contracts use are in `specs/`: the disk and its layout, what operations change, the
//! patches of a script and their dependencies, replay, the checker's faults, the sets that fail, and the script. None
//! of them is code; the crates above are proved to meet them. Answers are in `report`.
#![tactic(auto)]

pub mod disk_bytes;
pub mod fault;
pub mod fault_kind;
pub mod modules;
pub mod names;
pub mod operations;
pub mod orderings;
pub mod patches;
pub mod plans;
pub mod promises;
pub mod ranges;
pub mod refusal;
pub mod refusals;
pub mod rule_lists;
pub mod rules;
pub mod separators;
pub mod settings;
pub mod showing;
pub mod steps;
