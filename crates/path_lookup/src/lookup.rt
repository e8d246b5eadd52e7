//! Where names and paths lead.

ghost use Rattle.std.specs.Prelude.{◌≡◌, ◌<◌, ◌&&◌, Some, IsTrue, bytes_eq, IfSome};
ghost use Rattle.crash_model.specs.Layout.{is_live, is_entry, target_of, spelling_of};
ghost use Rattle.crash_model.specs.Paths.{child_of, end_of, names_of};
ghost use Rattle.crash_model.specs.Plan.{is_named, entry_named};

use crash_model::disk_bytes::{ENTRIES, INODES};
use crash_model::names::{Name, Path};
use disk_image::Image;
use std::alloc::Allocator;

/// Whether an entry of a directory that counts has this name and leads to a live inode.
fn is_spelled<A: Allocator + Copy>(image: &Image<A>, dir: u8, k: u8, spelled: &[u8]) -> bool
    requires dir { dir < INODES }
    requires k { k < ENTRIES }
    ensures { result
        ≡ (is_entry image.now dir k && is_live image.now (target_of image.now dir k) && bytes_eq
        (spelling_of image.now dir k) spelled.now) }
{
    if !image.counts(dir) {
        return false;
    }
    let entry = image.entry(dir, k);
    entry != 0 && image.is_live(entry - 1) && image.is_spelled(dir, k, spelled)
}

/// The lowest entry of a directory that has the name and leads to a live inode.
///
/// A directory whose block is not marked as its own has no entries.
pub fn entry_named<A: Allocator + Copy>(image: &Image<A>, dir: u8, name: &Name) -> Option<u8>
    requires { dir < INODES }
    ensures value { result ≡ entry_named image.now dir name.now }
    ensures within { IfSome result (λ k. k < ENTRIES) }
    ensures holds { IfSome result (λ k. IsTrue (is_named image.now dir name.now k)) }
{
    let spelled = name.spelled();
    for k in 0..ENTRIES {
        if is_spelled(image, dir, k, spelled.as_slice()) {
            return Some(k);
        }
    }
    None
}

/// The live inode that a name of a directory leads to.
pub fn child<A: Allocator + Copy>(image: &Image<A>, dir: u8, name: &Name) -> Option<u8>
    requires { dir < INODES }
    ensures value { result ≡ child_of image.now dir name.now }
    ensures within { IfSome result (λ inode. inode < INODES) }
{
    let k = entry_named(image, dir, name)?;
    Some(image.entry(dir, k) - 1)
}

/// The live inode that a path leads to.
pub fn end_of<A: Allocator + Copy>(image: &Image<A>, path: &Path) -> Option<u8>
    ensures value { result ≡ end_of image.now (Some 0) (names_of path.now) }
    ensures within { IfSome result (λ inode. inode < INODES) }
{
    let mut dir = 0;
    for name in path.through.as_slice() {
        dir = child(image, dir, name)?;
    }
    child(image, dir, &path.last)
}
