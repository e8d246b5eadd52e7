//! Whether an image has lost what a script keeps.

ghost use Rattle.std.specs.Prelude.{◌≡◌, ◌<◌, ◌↔◌, ◌++◌, IsTrue, OnOk};
ghost use Rattle.crash_model.specs.Lists.{some_below};
ghost use Rattle.crash_model.specs.Checker.{IsCleanKeeping, IsCleanUnder};
ghost use Rattle.crash_model.specs.Strict.{LosesNothing, strict_faults};
ghost use Rattle.fs_check.specs.Counted.{IsCleanOfAll};
ghost use Rattle.fs_check.specs.Passed.{HasCleanEntries};
ghost use Rattle.fs_check.specs.Strict.{lost_at, bare_at, IsReachOf, IsNamedBy, AreDirectories};

use crate::atomic::shows_some;
use crate::clean::{Directories, clean_directories, has_clean_pointers, is_clean};
use crate::counted::is_clean_counting;
use crate::list::push_some;
use crate::promises::keeps_promises;
use crash_model::disk_bytes::{DIRECTORY_KIND, ENTRIES, INODES};
use crash_model::fault::Fault;
use disk_image::{Demands, Image};
use patch_sets::ends::{lowest, without};
use patch_sets::set::{has, is_subset, with};
use std::alloc::{AllocError, Allocator};

/// Whether the image of a set has no fault, with what is demanded of it besides the six.
///
/// It takes no memory, and ends at the first fault that it meets.
pub fn is_clean_under<A: Allocator + Copy>(
    image: &Image<A>,
    set: u128,
    demands: &Demands<A>,
) -> bool
    ensures { IsTrue result ↔ IsCleanUnder demands.now set image.now }
{
    match demands.counted() {
        Some(counted) => is_clean_counting(image, set, demands, counted),
        None => is_clean_of_all(image, set, demands),
    }
}

/// The same where all faults count.
fn is_clean_of_all<A: Allocator + Copy>(image: &Image<A>, set: u128, demands: &Demands<A>) -> bool
    ensures { IsTrue result ↔ IsCleanOfAll demands.now set image.now }
{
    is_clean_keeping(image, demands.kept())
        && shows_some(image, demands)
        && keeps_promises(image, set, demands.promises())
}

/// Whether an image has none of the six faults, and none of the two where a script keeps a set of inodes.
fn is_clean_keeping<A: Allocator + Copy>(image: &Image<A>, kept: Option<u16>) -> bool
    ensures { IsTrue result ↔ IsCleanKeeping kept image.now }
{
    match kept {
        Some(kept) => has_clean_pointers(image) && has_clean_tree(image, kept),
        None => is_clean(image),
    }
}

/// Whether the entries have no fault, each inode of a set is reached, and each directory that is reached has a block.
///
/// One pass over the entries serves both: it keeps what they lead to.
fn has_clean_tree<A: Allocator + Copy>(image: &Image<A>, kept: u16) -> bool
    ensures { IsTrue result ↔ (HasCleanEntries image.now × LosesNothing kept image.now) }
{
    match clean_directories(image) {
        Some(found) => loses_nothing(image, &found, kept),
        None => false,
    }
}

/// Whether each inode of a set is reached, and each directory that is reached has a block.
fn loses_nothing<A: Allocator + Copy>(image: &Image<A>, found: &Directories, kept: u16) -> bool
    requires { AreDirectories image.now found.now }
    ensures { IsTrue result ↔ LosesNothing kept image.now }
{
    let mut reached = if image.kind(0) == DIRECTORY_KIND {
        1
    } else {
        0
    };
    let mut unread = u128::from(found.inodes);
    while let Some(next) = lowest(reached & unread) {
        if image.pointer(next as u8, 0) == 0 {
            return false;
        }
        unread = without(unread, next);
        reached |= u128::from(found.named[next]);
    }
    is_subset(u128::from(kept), reached)
}

/// The inodes that are reached, as a set.
pub(crate) fn reached<A: Allocator + Copy>(image: &Image<A>) -> u128
    ensures { IsReachOf image.now result }
{
    let mut reached = if image.kind(0) == DIRECTORY_KIND {
        1
    } else {
        0
    };
    let mut unread = 0xFFFF;
    while let Some(dir) = lowest(reached & unread) {
        unread = without(unread, dir);
        reached |= named_by(image, dir as u8);
    }
    reached
}

/// The live inodes to which an inode's entries lead, as a set.
fn named_by<A: Allocator + Copy>(image: &Image<A>, dir: u8) -> u128
    requires { dir < INODES }
    ensures { IsNamedBy image.now dir result }
{
    if !image.counts(dir) {
        return 0;
    }
    let mut named = 0;
    for k in 0..ENTRIES {
        let entry = image.entry(dir, k);
        if entry != 0 && image.is_live(entry - 1) {
            named = with(named, usize::from(entry - 1));
        }
    }
    named
}

/// Adds the faults of what a script keeps and an image has lost, and of directories without a block.
pub(crate) fn push_strict<A: Allocator + Copy>(
    found: &mut Vec<Fault, A>,
    image: &Image<A>,
    kept: u16,
) -> Result<(), AllocError>
    ensures { OnOk result (found.new.items ≡ found.old.items ++ strict_faults kept image.now) }
{
    let reached = reached(image);
    push_lost(found, image, kept, reached)?;
    push_bare(found, image, reached)?;
    Ok(())
}

/// The fault of an inode, if it is kept and not reached.
pub(crate) fn lost_at<A: Allocator + Copy>(
    image: &Image<A>,
    kept: u16,
    reached: u128,
    inode: u8,
) -> Option<Fault>
    requires inode { inode < INODES }
    requires reached { IsReachOf image.now reached }
    ensures { result ≡ lost_at kept image.now inode }
{
    let at = usize::from(inode);
    let is_lost = has(u128::from(kept), at) && !has(reached, at);
    is_lost.then_some(Fault::Lost { inode })
}

/// Adds the inodes that are lost, by number.
#[tactic(auto, using(crash_model::proofs::EachBelow::each_below_steps, std::proofs::lemmas::Grind::common_steps))]
fn push_lost<A: Allocator + Copy>(
    found: &mut Vec<Fault, A>,
    image: &Image<A>,
    kept: u16,
    reached: u128,
) -> Result<(), AllocError>
    requires { IsReachOf image.now reached }
    ensures { OnOk result (found.new.items ≡ found.old.items ++ some_below INODES (lost_at kept image.now)) }
{
    for inode in 0..INODES {
        push_some(found, lost_at(image, kept, reached, inode))?;
    }
    Ok(())
}

/// The fault of an inode, if it is a directory that is reached and has no block.
pub(crate) fn bare_at<A: Allocator + Copy>(
    image: &Image<A>,
    reached: u128,
    inode: u8,
) -> Option<Fault>
    requires inode { inode < INODES }
    requires reached { IsReachOf image.now reached }
    ensures { result ≡ bare_at image.now inode }
{
    let is_bare = has(reached, usize::from(inode))
        && image.kind(inode) == DIRECTORY_KIND
        && image.pointer(inode, 0) == 0;
    is_bare.then_some(Fault::NoBlock { inode })
}

/// Adds the directories without a block, by number.
#[tactic(auto, using(crash_model::proofs::EachBelow::each_below_steps, std::proofs::lemmas::Grind::common_steps))]
fn push_bare<A: Allocator + Copy>(
    found: &mut Vec<Fault, A>,
    image: &Image<A>,
    reached: u128,
) -> Result<(), AllocError>
    requires { IsReachOf image.now reached }
    ensures { OnOk result (found.new.items ≡ found.old.items ++ some_below INODES (bare_at image.now)) }
{
    for inode in 0..INODES {
        push_some(found, bare_at(image, reached, inode))?;
    }
    Ok(())
}
