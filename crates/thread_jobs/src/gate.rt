//! Gates, which get the progress of workers and let a test hold them.

/// Gets each claim and the progress of a run. No answer depends on it.
pub trait Gate {
    /// A worker, numbered from 1, has claimed a word and is about to expand it.
    fn claimed(&self, worker: usize, set: u128);

    /// Adds a number of sets to those that will be visited.
    fn expects(&self, _sets: usize) {}

    /// Reports how many more sets were visited and how many of them fail.
    fn visited(&self, _sets: usize, _failing: usize) {}

    /// No more sets are visited, and the answer follows.
    fn ended(&self) {}
}

/// Holds no worker and ignores progress.
pub struct OpenGate;

impl Gate for OpenGate {
    fn claimed(&self, _worker: usize, _set: u128) {}
}
