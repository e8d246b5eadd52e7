//! What a run is asked.

use crate::length::WorkloadLength;
use crate::limit::SetLimit;
use crash_model::settings::Settings;

/// The most lines that wait of which a run finds out which are enough.
pub const MAX_SYNCS: usize = 64;

/// What a run finds out about a script.
///
/// Only the first question goes from closed set to closed set, so only this one has a limit. The others are answered
/// however many closed sets there are.
#[derive(Clone, Copy, Debug, PartialEq, Eq)]
pub enum Question {
    /// Which closed sets fail, if there are at most this many closed sets.
    FailingSets(SetLimit),
    /// Which faults any closed set has.
    Decide,
    /// Which sets of rules are enough, and of which rules one is needed.
    Enough,
    /// Which sets of the lines that wait are enough, and of which of them one is needed.
    EnoughLines,
    /// Which workloads fail, out of all that have at most this number of operations of the pool that the script's lines
    /// after `start` are.
    Search(WorkloadLength),
    /// Which sets of rules are enough for all workloads of such a search together, and of which rules one is needed. A
    /// workload that fails by all rules says nothing of them.
    SearchRules(WorkloadLength),
}

/// A question, the settings that it is asked under, and the number of threads that answer it, 1 to 16.
#[derive(Debug, PartialEq, Eq, Drop)]
pub struct Request {
    pub question: Question,
    pub settings: Settings,
    pub workers: usize,
}
