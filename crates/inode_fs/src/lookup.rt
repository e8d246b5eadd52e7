//! What is found on an image: names, and what is free.
//!
//! Each search gives the lowest place that fits, and none of them asks for a sound image.

ghost use Rattle.std.specs.Prelude.{ℕ, List, Result, Err, ◌≡◌, ◌<◌, ◌&&◌, IsTrue, bytes_eq, IfSome, IfOk, MatchResult};
ghost use Rattle.crash_model.specs.Layout.{kind_of, is_live, is_entry, target_of, spelling_of};
ghost use Rattle.crash_model.specs.Plan.{is_named, entry_named, directory_named, walk_end, at_entry, free_inode};
ghost use Rattle.crash_model.specs.Plan.{free_block, free_slot, has_entries};
ghost use Rattle.crash_model.specs.declared.plans.Change.{Change};
ghost use Rattle.crash_model.specs.declared.refusals.FsFault.{FsFault};

use crash_model::disk_bytes::{DIRECTORY_KIND, ENTRIES, FREE_KIND, INODES, SLOTS};
use crash_model::names::{Name, Path};
use crash_model::refusals::FsFault;
use disk_image::Image;
use path_lookup::entry_named;
use std::alloc::Allocator;

/// The directory that a name of a directory leads to; refused with 10 if there is no such name, with 11 if it leads to
/// something else.
fn enter<A: Allocator + Copy>(image: &Image<A>, dir: u8, name: &Name) -> Result<u8, FsFault>
    requires { dir < INODES }
    ensures value { result ≡ directory_named image.now dir name.now }
    ensures within { IfOk result (λ child. child < INODES) }
{
    match entry_named(image, dir, name) {
        None => Err(FsFault::NotFound),
        Some(k) => {
            let inode = image.entry(dir, k) - 1;
            if image.kind(inode) == DIRECTORY_KIND {
                Ok(inode)
            } else {
                Err(FsFault::NotADirectory)
            }
        }
    }
}

/// The directory that holds a path's last name: from the root through all names but the last. The first name that
/// fails decides the refusal, 10 or 11.
pub fn walk<A: Allocator + Copy>(image: &Image<A>, path: &Path) -> Result<u8, FsFault>
    ensures value { result ≡ walk_end image.now 0 path.now.through.items }
    ensures within { IfOk result (λ dir. dir < INODES) }
{
    let mut dir = 0;
    for name in path.through.as_slice() {
        dir = enter(image, dir, name)?;
    }
    Ok(dir)
}

/// An entry of a directory: its place, 0 to 9, and the inode that it leads to.
#[derive(Clone, Copy)]
pub struct Entry {
    pub dir: u8,
    pub place: u8,
    pub target: u8,
}

/// The entry of a path's last name; refused as [`walk`] is, and with 10 if the name is absent.
pub fn find<A: Allocator + Copy>(image: &Image<A>, path: &Path) -> Result<Entry, FsFault>
    ensures found { MatchResult result
        (λ e. (next : ℕ → ℕ → ℕ → Result (List Change) FsFault) → at_entry image.now path.now next
        ≡ next e.dir e.place e.target)
        (λ fault. (next : ℕ → ℕ → ℕ → Result (List Change) FsFault) → at_entry image.now path.now next ≡ Err fault) }
    ensures target { IfOk result (λ e. e.target ≡ target_of image.now e.dir e.place) }
    ensures within { IfOk result (λ e. (e.dir < INODES) × (e.place < ENTRIES) × (e.target < INODES)) }
{
    let dir = walk(image, path)?;
    let place = entry_named(image, dir, &path.last).ok_or(FsFault::NotFound)?;
    let target = image.entry(dir, place) - 1;
    Ok(Entry { dir, place, target })
}

/// The lowest inode of kind 0.
pub fn free_inode<A: Allocator + Copy>(image: &Image<A>) -> Option<u8>
    ensures value { result ≡ free_inode image.now }
    ensures within { IfSome result (λ i. i < INODES) }
{
    for i in 0..INODES {
        if image.kind(i) == FREE_KIND {
            return Some(i);
        }
    }
    None
}

/// The lowest block of the data area that the allocation map marks as free.
pub fn free_block<A: Allocator + Copy>(image: &Image<A>) -> Option<u8>
    ensures value { result ≡ free_block image.now }
    ensures within { IfSome result (λ b. b < image.now.blocks) }
{
    for b in 0..image.blocks() as u8 {
        if image.is_data(b) && image.map(b) == 0 {
            return Some(b);
        }
    }
    None
}

/// The lowest slot of an inode that names no block.
pub fn free_slot<A: Allocator + Copy>(image: &Image<A>, inode: u8) -> Option<u8>
    requires { inode < INODES }
    ensures value { result ≡ free_slot image.now inode }
    ensures within { IfSome result (λ s. s < SLOTS) }
{
    for s in 0..SLOTS {
        if image.pointer(inode, s) == 0 {
            return Some(s);
        }
    }
    None
}

/// Whether an entry of a directory is in use.
pub fn has_entries<A: Allocator + Copy>(image: &Image<A>, dir: u8) -> bool
    requires { dir < INODES }
    ensures { result ≡ has_entries image.now dir }
{
    if !image.counts(dir) {
        return false;
    }
    for k in 0..ENTRIES {
        if image.entry(dir, k) != 0 {
            return true;
        }
    }
    false
}
