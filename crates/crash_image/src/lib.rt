//! Crash images: the disk that a set of patches leaves, and the space of the sets that a crash can leave.
//!
//! [`build`] makes the image of a set. A [`Mover`] brings one image from set to set by undo and redo, so that
//! neighbouring sets cost little, and a [`Replayer`] keeps the image after replay of the journal in step with it. A
//! [`PatchSpace`] has the sets that a crash can leave as its words; a set is good if its image is clean after replay.
#![tactic(auto)]

mod images;
mod laws;
mod mover;
mod patching;
mod replayer;
mod space;

pub use images::build;
pub use laws::{exploring_finds_the_failing_sets, reach_is_the_closed_sets};
pub use mover::Mover;
pub use replayer::Replayer;
pub use space::{PatchSpace, Scratch};
