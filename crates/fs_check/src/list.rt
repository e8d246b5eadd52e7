//! The faults of an image, in order.

ghost use Rattle.std.specs.Prelude.{◌≡◌, ℕ, ◌<◌, ◌≤◌, ◌++◌, slice_index, IfOk, OnOk, option_to_list};
ghost use Rattle.std.specs.List.{All, filter_map};
ghost use Rattle.crash_model.specs.Lists.{some_below};
ghost use Rattle.crash_model.specs.Faults.{faults};
ghost use Rattle.crash_model.specs.Checker.{faults_keeping, faults_under};
ghost use Rattle.fs_check.specs.TableCounts.{IsTally};
ghost use Rattle.fs_check.specs.References.{named_at, led_at, fault_of, twice_at, low_links_at};

use crate::atomic::push_half_done;
use crate::clean::is_marked;
use crate::counted::keep_counted;
use crate::promises::push_broken;
use crate::references::{Pointer, push_dangling, read_pointers};
use crate::strict::push_strict;
use arrayvec::ArrayVec;
use crash_model::disk_bytes::{ENTRIES, INODES, SLOTS};
use crash_model::fault::Fault;
use disk_image::{Demands, Image};
use std::alloc::{AllocError, Allocator};

/// The faults of an image: by kind, in the order of [`Fault`]'s variants, and those of one kind by place.
///
/// The image's pointers and entries are read once, and only the list takes memory. It fails only when out of memory. An
/// image is clean exactly if the list is empty.
pub fn faults<A: Allocator + Copy>(alloc: A, image: &Image<A>) -> Result<Vec<Fault, A>, AllocError>
    ensures { IfOk result (λ found. found.items ≡ faults image.now) }
{
    let mut found = Vec::new(alloc);
    list_faults(&mut found, image)?;
    Ok(found)
}

/// Replaces the contents of a list by the faults of an image.
fn list_faults<A: Allocator + Copy>(
    found: &mut Vec<Fault, A>,
    image: &Image<A>,
) -> Result<(), AllocError>
    ensures { OnOk result (found.new.items ≡ faults image.now) }
{
    let mut wrong = ArrayVec::new();
    let mut pointer_counts = [0; 128];
    read_pointers(image, &mut wrong, &mut pointer_counts);
    found.clear();
    let entry_counts = push_dangling(found, image)?;
    push_twice(found, image, &pointer_counts)?;
    let wrong = wrong.as_slice();
    push_wrong(found, image, Test::IsUnwritten, wrong)?;
    push_low_links(found, image, &entry_counts)?;
    push_wrong(found, image, Test::IsMarkedFree, wrong)?;
    push_wrong(found, image, Test::IsWild, wrong)?;
    Ok(())
}

/// The faults of the image of a set, with what is demanded of it besides the six: those of [`faults`], then the two of
/// the strict checker, by inode, then the one of half-done operations, then broken promises, by line. It fails only
/// when out of memory.
pub fn faults_under<A: Allocator + Copy>(
    alloc: A,
    image: &Image<A>,
    set: u128,
    demands: &Demands<A>,
) -> Result<Vec<Fault, A>, AllocError>
    ensures { IfOk result (λ found. found.items ≡ faults_under demands.now set image.now) }
{
    let mut found = Vec::new(alloc);
    list_faults_under(&mut found, image, set, demands)?;
    Ok(found)
}

/// Replaces the contents of a list by what [`faults_under`] gives, in the memory that the list has if that is enough.
///
/// It fails only when out of memory; then the list has some of the faults.
pub fn list_faults_under<A: Allocator + Copy>(
    found: &mut Vec<Fault, A>,
    image: &Image<A>,
    set: u128,
    demands: &Demands<A>,
) -> Result<(), AllocError>
    ensures { OnOk result (found.new.items ≡ faults_under demands.now set image.now) }
{
    list_faults_keeping(found, image, demands.kept())?;
    push_half_done(found, image, demands)?;
    push_broken(found, image, set, demands.promises())?;
    if let Some(counted) = demands.counted() {
        keep_counted(found, counted);
    }
    Ok(())
}

/// Makes of a list the six faults of an image, and the two where a script keeps a set of inodes.
fn list_faults_keeping<A: Allocator + Copy>(
    found: &mut Vec<Fault, A>,
    image: &Image<A>,
    kept: Option<u16>,
) -> Result<(), AllocError>
    ensures { OnOk result (found.new.items ≡ faults_keeping kept image.now) }
{
    list_faults(found, image)?;
    if let Some(kept) = kept {
        push_strict(found, image, kept)?;
    }
    Ok(())
}

/// The tests of one pointer by itself.
#[derive(Clone, Copy)]
pub(crate) enum Test {
    /// Whether it names a block of the data area that is not marked as the inode's.
    IsUnwritten,
    /// Whether it names a block of the data area that the allocation map has as free.
    IsMarkedFree,
    /// Whether it names no block of the data area.
    IsWild,
}

/// The fault that a test finds of a pointer.
pub(crate) fn fault_of<A: Allocator + Copy>(
    image: &Image<A>,
    test: Test,
    pointer: Pointer,
) -> Option<Fault>
    requires { pointer.inode < INODES }
    ensures { result ≡ fault_of image.now test pointer }
{
    let Pointer { inode, slot, block } = pointer;
    match test {
        Test::IsUnwritten => {
            let is_found = image.is_data(block) && !is_marked(image, inode, block);
            is_found.then_some(Fault::Unwritten { inode, slot, block })
        }
        Test::IsMarkedFree => {
            let is_found = image.is_data(block) && image.map(block) == 0;
            is_found.then_some(Fault::MarkedFree { inode, slot, block })
        }
        Test::IsWild => (!image.is_data(block)).then_some(Fault::Wild { inode, slot, block }),
    }
}

/// Adds the fault, if there is one.
pub(crate) fn push_some<A: Allocator + Copy>(
    found: &mut Vec<Fault, A>,
    fault: Option<Fault>,
) -> Result<(), AllocError>
    ensures { OnOk result (found.new.items ≡ found.old.items ++ option_to_list fault) }
{
    if let Some(fault) = fault {
        found.push(fault)?;
    }
    Ok(())
}

/// Adds the faults that a test finds, in the order of the pointers.
fn push_wrong<A: Allocator + Copy>(
    found: &mut Vec<Fault, A>,
    image: &Image<A>,
    test: Test,
    pointers: &[Pointer],
) -> Result<(), AllocError>
    requires { All (λ pointer. pointer.inode < INODES) pointers.now }
    ensures { OnOk result (found.new.items ≡ found.old.items ++ filter_map (fault_of image.now test) pointers.now) }
{
    for pointer in pointers {
        push_some(found, fault_of(image, test, *pointer))?;
    }
    Ok(())
}

/// Adds the blocks that are used twice, by number.
#[tactic(auto, using(crash_model::proofs::EachBelow::each_below_steps, std::proofs::lemmas::Grind::common_steps))]
fn push_twice<A: Allocator + Copy>(
    found: &mut Vec<Fault, A>,
    image: &Image<A>,
    pointer_counts: &[u8; 128],
) -> Result<(), AllocError>
    requires { IsTally SLOTS (named_at image.now) INODES 0 pointer_counts.now }
    ensures { OnOk result (found.new.items ≡ found.old.items ++ some_below image.now.blocks (twice_at image.now)) }
{
    let blocks = image.blocks() as u8;
    if most(pointer_counts) < 2 {
        return Ok(());
    }
    for block in 0..blocks {
        if pointer_counts[block as usize] > 1 {
            found.push(Fault::Twice { block })?;
        }
    }
    Ok(())
}

/// The largest of some counts.
fn most(counts: &[u8; 128]) -> u8
    ensures { (at : ℕ) → at < 128 → slice_index counts.now at ≤ result }
{
    let mut most = 0;
    for count in counts {
        if *count > most {
            most = *count;
        }
    }
    most
}

/// Adds the low link counts, by inode.
#[tactic(auto, using(crash_model::proofs::EachBelow::each_below_steps, std::proofs::lemmas::Grind::common_steps))]
fn push_low_links<A: Allocator + Copy>(
    found: &mut Vec<Fault, A>,
    image: &Image<A>,
    entry_counts: &[u8; 16],
) -> Result<(), AllocError>
    requires { IsTally ENTRIES (led_at image.now) INODES 0 entry_counts.now }
    ensures { OnOk result (found.new.items ≡ found.old.items ++ some_below INODES (low_links_at image.now)) }
{
    for inode in 0..INODES {
        let entries = entry_counts[inode as usize];
        let links = image.links(inode);
        if links < entries {
            found.push(Fault::LowLinks {
                inode,
                entries,
                links,
            })?;
        }
    }
    Ok(())
}
