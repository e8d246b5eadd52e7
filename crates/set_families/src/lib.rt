//! Families of closed sets, for graphs with more closed sets than can be visited.
//!
//! A set of ids is closed, or down-closed, if it has all dependencies of its ids. A family is all closed sets that have
//! the ids that are held and none that are barred. To hold an undecided id and to bar it splits a family in two. Its
//! members are counted without listing them. A property that can be asked about a whole family finds the first closed
//! set that it holds of.
//!
//! Nothing here takes memory from a heap. Graphs have at most 124 ids, so calls are at most 125 deep.
#![tactic(auto)]

mod closed_sets;
mod closing;
mod counting;
mod family;
mod narrowing;
mod parting;
mod property;
mod searching;

pub use closed_sets::ClosedSets;
pub use closing::closures;
pub use family::Family;
pub use property::SetProperty;
