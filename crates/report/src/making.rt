//! Crashes that reports show, made from graphs of patches: those of failing sets, of faults, of what is needed and of
//! the workloads of a search.

pub(crate) mod detail;
pub(crate) mod first;
pub(crate) mod kinds;
pub(crate) mod lines;
pub(crate) mod maker;
pub(crate) mod rules;
pub(crate) mod workloads;
