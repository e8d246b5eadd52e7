//! Paths on an image: where they lead, what they show, and which bytes say so.
//!
//! What a path shows is defined in the crate `crash_model`, in `specs/Paths.antt`, and the bytes that an fsync of it
//! makes durable in `specs/Waiting.antt`. Both are defined for every image, whatever its bytes.
#![tactic(auto)]

mod lookup;
mod ranges;
mod showing;

pub use lookup::{child, end_of, entry_named};
pub use ranges::{MOST_RANGES, MOST_TOUCHED, meets, ranges_of, touched_ranges};
pub use showing::{path_shows, paths_show, way_shows};
