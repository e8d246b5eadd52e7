//! From a command line and a script's bytes to a report's bytes and an exit status.
#![tactic(auto)]

pub mod answer;
mod deciding;
mod enough;
mod exploring;
pub mod host;
mod lines;
pub mod progress;
mod reporting;
pub mod run;
mod searching;
mod searching_rules;
pub mod serve;
mod traced_script;
