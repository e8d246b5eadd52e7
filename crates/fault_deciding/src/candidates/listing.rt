//! All faults that a crash can leave.

ghost use Rattle.std.specs.Prelude.{OnOk, IfOk};
ghost use Rattle.fault_deciding.specs.Listed.{InEachReplayed, IsWithin, HasTwice, HasHalfDone, HasPromised};
ghost use Rattle.fault_deciding.specs.Listed.{HasAllFaults, HasEach, AreFoundByText};

use crate::candidates::by_entry::push_entries;
use crate::candidates::by_inode::{push_low_links, push_strict};
use crate::candidates::by_slot::push_slots;
use crash_model::fault::Fault;
use disk_image::{Demands, Promise};
use fs_check::keep_counted;
use known_bytes::KnownBytes;
use std::alloc::{AllocError, Allocator};

/// Each fault that counts which any of the sets has, and perhaps others, in any order and perhaps twice.
///
/// The faults are those of the checker with what is demanded of a set. A fault that a set has is one that the test of
/// its text finds. It fails only when out of memory.
pub fn possible_faults<A: Allocator + Copy>(
    alloc: A,
    bytes: &KnownBytes<A>,
    demands: &Demands<A>,
) -> Result<Vec<Fault, A>, AllocError>
    ensures all { IfOk result (λ faults. HasAllFaults demands.now bytes.now faults.items) }
    ensures found { OnOk result (AreFoundByText demands.now bytes.now) }
{
    let mut faults = listed_faults(alloc, bytes, demands)?;
    match demands.counted() {
        Some(counted) => {
            keep_counted(&mut faults, counted);
            Ok(faults)
        }
        None => Ok(faults),
    }
}

/// The same of all faults, whether they count or not.
fn listed_faults<A: Allocator + Copy>(
    alloc: A,
    bytes: &KnownBytes<A>,
    demands: &Demands<A>,
) -> Result<Vec<Fault, A>, AllocError>
    ensures all { IfOk result (λ faults. HasEach demands.now bytes.now faults.items) }
    ensures found { OnOk result (AreFoundByText demands.now bytes.now) }
{
    let mut faults = Vec::new(alloc);
    let most = push_entries(&mut faults, bytes)?;
    push_twice(&mut faults, bytes)?;
    push_slots(&mut faults, bytes)?;
    push_low_links(&mut faults, bytes, &most)?;
    push_strict(&mut faults, demands.kept())?;
    push_half_done(&mut faults, demands)?;
    push_promises(&mut faults, demands.promises())?;
    Ok(faults)
}

/// Lists each block of the data area as one that is used twice.
fn push_twice<A: Allocator + Copy>(
    faults: &mut Vec<Fault, A>,
    bytes: &KnownBytes<A>,
) -> Result<(), AllocError>
    ensures kept { OnOk result (IsWithin faults.old.items faults.new.items) }
    ensures twice { OnOk result (InEachReplayed bytes.now (HasTwice faults.new.items)) }
{
    let base = bytes.base();
    for block in 0..128u8 {
        if base.is_data(block) {
            faults.push(Fault::Twice { block })?;
        }
    }
    Ok(())
}

/// Lists the lines of promises.
fn push_promises<A: Allocator + Copy>(
    faults: &mut Vec<Fault, A>,
    promises: &[Promise<A>],
) -> Result<(), AllocError>
    ensures kept { OnOk result (IsWithin faults.old.items faults.new.items) }
    ensures promised { OnOk result (HasPromised promises.now faults.new.items) }
{
    for promise in promises {
        faults.push(Fault::BrokenPromise { line: promise.line })?;
    }
    Ok(())
}

/// Lists the fault of an image that shows no disk that whole operations leave, where it is to show one.
fn push_half_done<A: Allocator + Copy>(
    faults: &mut Vec<Fault, A>,
    demands: &Demands<A>,
) -> Result<(), AllocError>
    ensures kept { OnOk result (IsWithin faults.old.items faults.new.items) }
    ensures half_done { OnOk result (HasHalfDone demands.now.disks faults.new.items) }
{
    match demands.disks() {
        Some(_) => {
            faults.push(Fault::HalfDone)?;
            Ok(())
        }
        None => Ok(()),
    }
}
