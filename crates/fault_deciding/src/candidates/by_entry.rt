//! Faults of entries, and how many entries can lead to each inode.

ghost use Rattle.std.specs.Prelude.{ℕ, ◌+◌, ◌*◌, ◌<◌, ◌≤◌, OnOk, IfOk, slice_index};
ghost use Rattle.std.specs.List.{Contains};
ghost use Rattle.crash_model.specs.declared.fault.Fault.TheVariants.{Dangling};
ghost use Rattle.known_bytes.specs.Family.{HasValue};
ghost use Rattle.fault_deciding.specs.Listed.{InEachReplayed, IsWithin, HasDangling, CountsOne, AreCounted};
ghost use Rattle.fault_deciding.specs.Listed.{AreAtMost, AreMost};

use crate::candidates::entries;
use crate::candidates::last_byte::last_byte;
use crash_model::disk_bytes::{ENTRIES, INODES};
use crash_model::fault::Fault;
use known_bytes::{ByteSet, KnownBytes};
use std::alloc::{AllocError, Allocator};

/// Lists a dangling entry for each inode that any entry can name. For each inode it gives the number of the entries
/// that can name it.
pub(crate) fn push_entries<A: Allocator + Copy>(
    faults: &mut Vec<Fault, A>,
    bytes: &KnownBytes<A>,
) -> Result<[u8; 16], AllocError>
    ensures kept { OnOk result (IsWithin faults.old.items faults.new.items) }
    ensures dangling { OnOk result (InEachReplayed bytes.now (λ d. (dir k : ℕ) → dir < INODES → k < ENTRIES
        → HasDangling faults.new.items dir k d)) }
    ensures most { IfOk result (λ most. InEachReplayed bytes.now (AreMost most)) }
{
    let mut most = [0; 16];
    for dir in 0..INODES {
        push_directory(faults, &mut most, bytes, dir)?;
    }
    Ok(most)
}

/// The same for the entries of one directory, whose numbers it adds.
fn push_directory<A: Allocator + Copy>(
    faults: &mut Vec<Fault, A>,
    most: &mut [u8; 16],
    bytes: &KnownBytes<A>,
    dir: u8,
) -> Result<(), AllocError>
    requires dir { dir < INODES }
    requires few { AreAtMost (10 * dir) most.old }
    ensures kept { OnOk result (IsWithin faults.old.items faults.new.items) }
    ensures dangling { OnOk result (InEachReplayed bytes.now (λ d. (k : ℕ) → k < ENTRIES
        → HasDangling faults.new.items dir k d)) }
    ensures counted { OnOk result (InEachReplayed bytes.now (AreCounted ENTRIES dir most.old most.new)) }
    ensures few { OnOk result (AreAtMost (10 * dir + 10) most.new) }
{
    for k in 0..ENTRIES {
        let values = entries(bytes, dir, k);
        push_dangling(faults, dir, k, values)?;
        count_named(most, values);
    }
    Ok(())
}

/// Lists a dangling entry for each inode that an entry names with one of the values.
fn push_dangling<A: Allocator + Copy>(
    faults: &mut Vec<Fault, A>,
    dir: u8,
    k: u8,
    values: ByteSet,
) -> Result<(), AllocError>
    ensures kept { OnOk result (IsWithin faults.old.items faults.new.items) }
    ensures dangling { OnOk result ((inode : ℕ) → inode < 255 → HasValue values.low values.high (inode + 1)
        → Contains faults.new.items (Dangling dir k inode)) }
{
    for inode in 0..last_byte(values) {
        if values.has(inode + 1) {
            faults.push(Fault::Dangling {
                dir,
                entry: k,
                inode,
            })?;
        }
    }
    Ok(())
}

/// Counts an entry for each inode that it names with one of the values.
fn count_named(most: &mut [u8; 16], values: ByteSet)
    requires { AreAtMost 254 most.old }
    ensures { (inode : ℕ) → inode < INODES
        → CountsOne values.low values.high inode (slice_index most.old inode) (slice_index most.new inode) }
{
    for inode in 0..INODES {
        if values.has(inode + 1) {
            most[usize::from(inode)] += 1;
        }
    }
}
