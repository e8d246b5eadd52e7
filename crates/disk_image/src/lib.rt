//! A disk image in memory: its bytes, what they mean, and the disk that a format leaves.
//!
//! Contracts see an [`Image`] as a `Disk`: its numbers of blocks and its bytes, block after block. The layout
//! of those bytes is defined in the crate `crash_model`, in `specs/Disk.antt` and `specs/Layout.antt`.
#![tactic(auto)]

mod demands;
mod format;
mod image;
mod inodes;
mod layout;
mod promises;

pub use demands::Demands;
pub use format::ImageFault;
pub use image::Image;
pub use inodes::with_inode;
pub use layout::{entry_offset, inode_place};
pub use promises::Promise;
