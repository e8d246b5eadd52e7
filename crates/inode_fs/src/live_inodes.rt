//! Which inodes of an image are live.

ghost use Rattle.std.specs.Prelude.{◌≡◌, ℕ, ◌<◌};
ghost use Rattle.patch_sets.specs.Sets.{has};
ghost use Rattle.crash_model.specs.Layout.{is_live};

use crash_model::disk_bytes::INODES;
use disk_image::{Image, with_inode};
use std::alloc::Allocator;

/// The live inodes of an image, as a set.
pub(crate) fn live_inodes<A: Allocator + Copy>(image: &Image<A>) -> u16
    ensures { (inode : ℕ) → has result inode ≡ is_live image.now inode }
{
    let mut live = 0;
    for inode in 0..INODES {
        if image.is_live(inode) {
            live = with_inode(live, inode);
        }
    }
    live
}
