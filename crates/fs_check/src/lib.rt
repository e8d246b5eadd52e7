//! The checker of a file system: whether an image has a fault, and which faults it has.
//!
//! The six faults and their order are defined in the crate `crash_model`, in `specs/Faults.antt`, the two more that the
//! strict checker finds in `specs/Strict.antt`, the one of half-done operations in `specs/Atomic.antt`, and
//! broken promises in `specs/Promises.antt`. They are
//! defined for every image, whatever its bytes.
#![tactic(auto)]

mod atomic;
mod clean;
mod counted;
mod laws;
mod list;
mod promises;
mod references;
mod strict;

pub use atomic::compared_blocks;
pub use clean::is_clean;
pub use counted::{is_counted, keep_counted};
pub use crash_model::fault::Fault;
pub use disk_image::Demands;
pub use laws::{clean_is_faultless, reached_inodes_are_the_least_set};
pub use list::{faults, faults_under, list_faults_under};
pub use promises::{broken_promise, is_broken};
pub use strict::is_clean_under;
