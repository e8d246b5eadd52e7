//! Patches.

use crate::disk_bytes::BLOCK_SIZE;
use arrayvec::ArrayVec;

/// The most patches that a script makes.
pub const MAX_PATCHES: usize = 124;

/// A change to bytes of one block, with the patches that it depends on (Frost et al., SOSP 2007).
///
/// `new` replaces the bytes from byte `offset` of block `block` on, `undo` are the bytes that were there before, of the
/// same length, and `deps` is the set of the patches that must be committed no later than this one.
#[derive(Drop)]
pub struct Patch {
    pub block: u8,
    pub offset: u8,
    pub new: ArrayVec<u8, BLOCK_SIZE>,
    pub undo: ArrayVec<u8, BLOCK_SIZE>,
    pub deps: u128,
}
