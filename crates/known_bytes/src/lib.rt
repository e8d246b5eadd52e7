//! What is known of a crash image if it is open which of some patches a crash leaves.
//!
//! A family is the closed sets that hold some patches and bar others; a patch that is neither is undecided. A byte of
//! their images is that of the patches held, or what an undecided patch puts there. A read here gives what all images
//! of a family have, or an undecided patch on which that depends.
#![tactic(auto)]

mod answers;
mod bounds;
mod byte_set;
mod bytes;
mod chains;
mod counts;
mod directories;
mod disk;
mod ends;
mod faults;
mod headers;
mod homes;
mod laws;
mod owners;
mod paths;
mod possible;
mod reach;
mod showing;
mod shown;
mod slot_lists;
mod texts;

pub use byte_set::ByteSet;
pub use bytes::KnownBytes;
pub use chains::Chains;
pub use disk::KnownDisk;
pub use laws::a_set_has_the_faults_of_its_list;
pub use showing::Showing;
