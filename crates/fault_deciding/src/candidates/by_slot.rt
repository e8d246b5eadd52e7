//! Faults of slots.

ghost use Rattle.std.specs.Prelude.{◌≡◌, ℕ, ◌<◌, OnOk, true, false};
ghost use Rattle.std.specs.List.{Contains};
ghost use Rattle.crash_model.specs.declared.fault.Fault.TheVariants.{Wild};
ghost use Rattle.fault_deciding.specs.Listed.{InEachReplayed, IsWithin, HasTame, HasFaultsOf};

use crate::candidates::last_byte::last_byte;
use crate::candidates::pointers;
use crash_model::disk_bytes::{INODES, SLOTS};
use crash_model::fault::Fault;
use known_bytes::KnownBytes;
use std::alloc::{AllocError, Allocator};

/// Lists the faults of each block that any slot can name.
pub(crate) fn push_slots<A: Allocator + Copy>(
    faults: &mut Vec<Fault, A>,
    bytes: &KnownBytes<A>,
) -> Result<(), AllocError>
    ensures kept { OnOk result (IsWithin faults.old.items faults.new.items) }
    ensures slots { OnOk result (InEachReplayed bytes.now (λ d. (inode slot : ℕ) → inode < INODES → slot < SLOTS
        → HasFaultsOf faults.new.items inode slot d)) }
{
    for inode in 0..INODES {
        push_inode(faults, bytes, inode)?;
    }
    Ok(())
}

/// Lists the faults of each block that a slot of an inode can name.
fn push_inode<A: Allocator + Copy>(
    faults: &mut Vec<Fault, A>,
    bytes: &KnownBytes<A>,
    inode: u8,
) -> Result<(), AllocError>
    requires { inode < INODES }
    ensures kept { OnOk result (IsWithin faults.old.items faults.new.items) }
    ensures slots { OnOk result (InEachReplayed bytes.now (λ d. (slot : ℕ) → slot < SLOTS
        → HasFaultsOf faults.new.items inode slot d)) }
{
    for slot in 0..SLOTS {
        push_slot(faults, bytes, inode, slot)?;
    }
    Ok(())
}

/// Lists the faults of each block that a slot can name.
fn push_slot<A: Allocator + Copy>(
    faults: &mut Vec<Fault, A>,
    bytes: &KnownBytes<A>,
    inode: u8,
    slot: u8,
) -> Result<(), AllocError>
    requires inode { inode < INODES }
    requires slot { slot < SLOTS }
    ensures kept { OnOk result (IsWithin faults.old.items faults.new.items) }
    ensures slot { OnOk result (InEachReplayed bytes.now (HasFaultsOf faults.new.items inode slot)) }
{
    let base = bytes.base();
    let values = pointers(bytes, inode, slot);
    for before in 0..last_byte(values) {
        let block = before + 1;
        if values.has(block) {
            push_pointer(faults, base.is_data(block), inode, slot, block)?;
        }
    }
    Ok(())
}

/// Lists the faults of a slot that names a block, by whether the block is one of the data area.
fn push_pointer<A: Allocator + Copy>(
    faults: &mut Vec<Fault, A>,
    is_data: bool,
    inode: u8,
    slot: u8,
    block: u8,
) -> Result<(), AllocError>
    ensures kept { OnOk result (IsWithin faults.old.items faults.new.items) }
    ensures tame { OnOk result (is_data ≡ true → HasTame faults.new.items inode slot block) }
    ensures wild { OnOk result (is_data ≡ false → Contains faults.new.items (Wild inode slot block)) }
{
    if is_data {
        faults.push(Fault::Unwritten { inode, slot, block })?;
        faults.push(Fault::MarkedFree { inode, slot, block })?;
    } else {
        faults.push(Fault::Wild { inode, slot, block })?;
    }
    Ok(())
}
