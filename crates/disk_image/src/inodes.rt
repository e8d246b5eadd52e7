//! Sets of inodes.

ghost use Rattle.std.specs.Prelude.{◌≡◌, ◌<◌};
ghost use Rattle.patch_sets.specs.Sets.{with_id};

use crash_model::disk_bytes::INODES;

/// The set with one more inode. Bit `i` of a set says whether it has inode `i`.
pub fn with_inode(set: u16, inode: u8) -> u16
    requires { inode < INODES }
    ensures { result ≡ with_id set inode }
{
    set | 1 << inode
}
