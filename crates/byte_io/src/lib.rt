//! Where a script comes from and where a report goes: devices that can fail.
#![tactic(auto)]

pub mod memory;
pub mod sink;
pub mod source;
pub mod standard;
