//! The bytes that say what a path shows.

ghost use Rattle.std.specs.Prelude.{◌≡◌, ◌+◌, ◌<◌, ◌≤◌, ◌++◌, [], ◌∷◌, ℕ, List, length, Some, IfSome};
ghost use Rattle.std.specs.List.{list_any};
ghost use Rattle.crash_model.specs.Patches.{place};
ghost use Rattle.crash_model.specs.Paths.{child_of, end_of, names_of};
ghost use Rattle.crash_model.specs.Promises.{touched_ranges};
ghost use Rattle.crash_model.specs.Waiting.{range, inode_range, block_ranges, ranges_of, ranges_from, meets_range};
ghost use Rattle.crash_model.specs.Waiting.{target_names};

use crate::lookup::{child, entry_named};
use arrayvec::ArrayVec;
use crash_model::disk_bytes::{
    BLOCK_SIZE, ENTRY_SIZE, INODE_SIZE, INODES, MAP_BLOCK, POINTERS_FROM, SHOWN_BYTES, SLOTS,
};
use crash_model::names::{Name, Path};
use crash_model::patches::Patch;
use crash_model::ranges::Range;
use crash_model::steps::Target;
use disk_image::{Image, entry_offset, inode_place};
use std::alloc::Allocator;

/// The most ranges of a path: three for each of four directories on the way, and nine for the inode at its end.
pub const MOST_RANGES: usize = 21;

/// The most ranges that touch a path: an entry of each of four directories, and six for the inode at its end.
pub const MOST_TOUCHED: usize = 10;

/// The bytes that an fsync of a target makes durable: of each inode on the way and at the end; of each directory's
/// block on the way; and of the blocks that the inode at the end points to. Each block comes with its byte of the map.
#[tactic(auto, unfolding(crash_model::specs::Waiting::ranges_of))]
pub fn ranges_of<A: Allocator + Copy>(
    image: &Image<A>,
    target: &Target,
) -> ArrayVec<Range, MOST_RANGES>
    ensures { result.items ≡ ranges_of image.now target.now }
{
    let mut ranges = ArrayVec::new();
    match push_ways(&mut ranges, image, target) {
        Some(inode) => push_inode(&mut ranges, image, inode),
        None => {}
    }
    ranges
}

/// Adds the ranges of the directories on the way of a target to an empty list, and gives the inode at its end, if it
/// leads to one.
fn push_ways<A: Allocator + Copy>(
    ranges: &mut ArrayVec<Range, MOST_RANGES>,
    image: &Image<A>,
    target: &Target,
) -> Option<u8>
    requires { ranges.old.items ≡ [] }
    ensures within { IfSome result (λ inode. inode < INODES) }
    ensures room { length ranges.new.items ≤ 12 }
    ensures ranges { ranges.new.items ++ ranges_from image.now result []
        ≡ ranges_from image.now (Some 0) (target_names target.now) }
{
    match target {
        Target::Root => Some(0),
        Target::At(path) => push_way(ranges, image, path),
    }
}

/// The same for a path.
fn push_way<A: Allocator + Copy>(
    ranges: &mut ArrayVec<Range, MOST_RANGES>,
    image: &Image<A>,
    path: &Path,
) -> Option<u8>
    requires { ranges.old.items ≡ [] }
    ensures within { IfSome result (λ inode. inode < INODES) }
    ensures room { length ranges.new.items ≤ 12 }
    ensures ranges { ranges.new.items ++ ranges_from image.now result []
        ≡ ranges_from image.now (Some 0) (names_of path.now) }
{
    let mut dir = 0;
    for name in path.through.as_slice() {
        dir = push_directory(ranges, image, dir, name)?;
    }
    push_directory(ranges, image, dir, &path.last)
}

/// Adds the ranges of a directory, and gives the inode that a name of it leads to.
fn push_directory<A: Allocator + Copy>(
    ranges: &mut ArrayVec<Range, MOST_RANGES>,
    image: &Image<A>,
    dir: u8,
    name: &Name,
) -> Option<u8>
    requires dir { dir < INODES }
    requires room { length ranges.old.items ≤ 9 }
    ensures within { IfSome result (λ inode. inode < INODES) }
    ensures room { length ranges.new.items ≡ length ranges.old.items + 3 }
    ensures ranges { (names : List (List ℕ)) → ranges.new.items ++ ranges_from image.now result names
        ≡ ranges.old.items ++ ranges_from image.now (Some dir) (name.now ∷ names) }
{
    ranges.push(inode_range(dir, 0, INODE_SIZE as u8));
    push_block(ranges, image.pointer(dir, 0));
    child(image, dir, name)
}

/// Adds the ranges of the inode at the end of a target.
fn push_inode<A: Allocator + Copy>(
    ranges: &mut ArrayVec<Range, MOST_RANGES>,
    image: &Image<A>,
    inode: u8,
)
    requires inode { inode < INODES }
    requires room { length ranges.old.items ≤ 12 }
    ensures { ranges.new.items ≡ ranges.old.items ++ ranges_from image.now (Some inode) [] }
{
    ranges.push(inode_range(inode, 0, INODE_SIZE as u8));
    for slot in 0..SLOTS {
        let block = image.pointer(inode, slot);
        if block != 0 {
            push_block(ranges, block);
        }
    }
}

/// Adds a block, and its byte of the map.
fn push_block(ranges: &mut ArrayVec<Range, MOST_RANGES>, block: u8)
    requires { length ranges.old.items + 2 ≤ MOST_RANGES }
    ensures { ranges.new.items ≡ ranges.old.items ++ block_ranges block }
{
    ranges.push(Range {
        block,
        offset: 0,
        size: BLOCK_SIZE as u8,
    });
    ranges.push(Range {
        block: MAP_BLOCK,
        offset: block,
        size: 1,
    });
}

/// Some bytes of an inode, from byte `from` of it on.
fn inode_range(inode: u8, from: u8, size: u8) -> Range
    requires inode { inode < INODES }
    requires inside { from + size ≤ INODE_SIZE }
    ensures { result ≡ inode_range inode from size }
{
    let (block, offset) = inode_place(inode);
    Range {
        block,
        offset: offset + from,
        size,
    }
}

/// The bytes of which a change touches what a path shows: the entry that is taken in each directory on the way, the
/// kind and the pointers of the inode at its end, and how the blocks begin that it points to.
pub fn touched_ranges<A: Allocator + Copy>(
    image: &Image<A>,
    path: &Path,
) -> ArrayVec<Range, MOST_TOUCHED>
    ensures { result.items ≡ touched_ranges image.now (Some 0) (names_of path.now) }
{
    let mut ranges = ArrayVec::new();
    match push_entries(&mut ranges, image, path) {
        Some(inode) => push_touched(&mut ranges, image, inode),
        None => {}
    }
    ranges
}

/// Adds the entries that are taken on the way of a path to an empty list, and gives the inode at its end, if it leads
/// to one.
fn push_entries<A: Allocator + Copy>(
    ranges: &mut ArrayVec<Range, MOST_TOUCHED>,
    image: &Image<A>,
    path: &Path,
) -> Option<u8>
    requires { ranges.old.items ≡ [] }
    ensures within { IfSome result (λ inode. inode < INODES) }
    ensures room { length ranges.new.items ≤ 4 }
    ensures ranges { ranges.new.items ++ touched_ranges image.now result []
        ≡ touched_ranges image.now (Some 0) (names_of path.now) }
{
    let mut dir = 0;
    for name in path.through.as_slice() {
        dir = push_entry(ranges, image, dir, name)?;
    }
    push_entry(ranges, image, dir, &path.last)
}

/// Adds the entry of a directory that a name takes, and gives the inode that it leads to.
fn push_entry<A: Allocator + Copy>(
    ranges: &mut ArrayVec<Range, MOST_TOUCHED>,
    image: &Image<A>,
    dir: u8,
    name: &Name,
) -> Option<u8>
    requires dir { dir < INODES }
    requires room { length ranges.old.items ≤ 3 }
    ensures within { IfSome result (λ inode. inode < INODES) }
    ensures room { length ranges.new.items ≤ length ranges.old.items + 1 }
    ensures ranges { (names : List (List ℕ)) → ranges.new.items ++ touched_ranges image.now result names
        ≡ ranges.old.items ++ touched_ranges image.now (Some dir) (name.now ∷ names) }
{
    let k = entry_named(image, dir, name)?;
    ranges.push(Range {
        block: image.pointer(dir, 0),
        offset: entry_offset(k),
        size: ENTRY_SIZE,
    });
    Some(image.entry(dir, k) - 1)
}

/// Adds the bytes of which a change touches what the inode at the end of a path shows.
fn push_touched<A: Allocator + Copy>(
    ranges: &mut ArrayVec<Range, MOST_TOUCHED>,
    image: &Image<A>,
    inode: u8,
)
    requires inode { inode < INODES }
    requires room { length ranges.old.items ≤ 4 }
    ensures { ranges.new.items ≡ ranges.old.items ++ touched_ranges image.now (Some inode) [] }
{
    ranges.push(inode_range(inode, 0, 1));
    ranges.push(inode_range(inode, POINTERS_FROM, SLOTS));
    for slot in 0..SLOTS {
        let block = image.pointer(inode, slot);
        if block != 0 {
            ranges.push(Range {
                block,
                offset: 0,
                size: SHOWN_BYTES as u8,
            });
        }
    }
}

/// Whether a patch changes a byte of one of these ranges.
pub fn meets(ranges: &[Range], patch: &Patch) -> bool
    ensures { result
        ≡ list_any (meets_range (place patch.now.block patch.now.offset patch.now.new.items)) ranges.now }
{
    for range in ranges {
        if meets_range(range, patch) {
            return true;
        }
    }
    false
}

/// Whether a patch changes a byte of a range.
fn meets_range(range: &Range, patch: &Patch) -> bool
    ensures { result ≡ meets_range (place patch.now.block patch.now.offset patch.now.new.items) range.now }
{
    let (first, second) = (usize::from(patch.offset), usize::from(range.offset));
    patch.block == range.block
        && first < second + usize::from(range.size)
        && second < first + patch.new.len()
}
