//! Faults of inodes: their link counts, and what a strict checker finds.

ghost use Rattle.std.specs.Prelude.{ℕ, ◌<◌, ◌≤◌, OnOk, slice_index};
ghost use Rattle.std.specs.List.{Contains};
ghost use Rattle.crash_model.specs.declared.fault.Fault.TheVariants.{LowLinks};
ghost use Rattle.fault_deciding.specs.Listed.{InEachReplayed, IsWithin, HasLow, HasStrict, HasStrictUnder};

use crate::candidates::link_counts;
use crash_model::disk_bytes::INODES;
use crash_model::fault::Fault;
use known_bytes::KnownBytes;
use patch_sets::set::has;
use std::alloc::{AllocError, Allocator};

/// Lists each low link count, if there are no more entries than these for each inode.
pub(crate) fn push_low_links<A: Allocator + Copy>(
    faults: &mut Vec<Fault, A>,
    bytes: &KnownBytes<A>,
    most: &[u8; 16],
) -> Result<(), AllocError>
    ensures kept { OnOk result (IsWithin faults.old.items faults.new.items) }
    ensures low { OnOk result (InEachReplayed bytes.now (λ d. (inode : ℕ) → inode < INODES
        → HasLow faults.new.items inode (slice_index most.now inode) d)) }
{
    for inode in 0..INODES {
        push_low(faults, bytes, inode, most[usize::from(inode)])?;
    }
    Ok(())
}

/// Lists each low link count of an inode, if there are no more entries than `most`.
fn push_low<A: Allocator + Copy>(
    faults: &mut Vec<Fault, A>,
    bytes: &KnownBytes<A>,
    inode: u8,
    most: u8,
) -> Result<(), AllocError>
    requires { inode < INODES }
    ensures kept { OnOk result (IsWithin faults.old.items faults.new.items) }
    ensures low { OnOk result (InEachReplayed bytes.now (HasLow faults.new.items inode most)) }
{
    let values = link_counts(bytes, inode);
    for links in 0..most {
        if values.has(links) {
            push_above(faults, inode, links, most)?;
        }
    }
    Ok(())
}

/// Lists a link count of an inode as low, for each greater number of entries up to `most`.
fn push_above<A: Allocator + Copy>(
    faults: &mut Vec<Fault, A>,
    inode: u8,
    links: u8,
    most: u8,
) -> Result<(), AllocError>
    ensures kept { OnOk result (IsWithin faults.old.items faults.new.items) }
    ensures above { OnOk result ((entries : ℕ) → links < entries → entries ≤ most
        → Contains faults.new.items (LowLinks inode entries links)) }
{
    for fewer in links..most {
        let entries = fewer + 1;
        faults.push(Fault::LowLinks {
            inode,
            entries,
            links,
        })?;
    }
    Ok(())
}

/// If the checker is strict, lists each inode that is kept as lost, and each inode as a directory without a block.
pub(crate) fn push_strict<A: Allocator + Copy>(
    faults: &mut Vec<Fault, A>,
    kept: Option<u16>,
) -> Result<(), AllocError>
    ensures kept { OnOk result (IsWithin faults.old.items faults.new.items) }
    ensures strict { OnOk result (HasStrictUnder kept faults.new.items) }
{
    let Some(kept) = kept else {
        return Ok(());
    };
    for inode in 0..INODES {
        push_kept(faults, kept, inode)?;
    }
    Ok(())
}

/// Lists an inode as lost, if it is kept, and as a directory without a block.
fn push_kept<A: Allocator + Copy>(
    faults: &mut Vec<Fault, A>,
    kept: u16,
    inode: u8,
) -> Result<(), AllocError>
    requires { inode < INODES }
    ensures kept { OnOk result (IsWithin faults.old.items faults.new.items) }
    ensures strict { OnOk result (HasStrict faults.new.items kept inode) }
{
    if has(u128::from(kept), usize::from(inode)) {
        faults.push(Fault::Lost { inode })?;
    }
    faults.push(Fault::NoBlock { inode })?;
    Ok(())
}
