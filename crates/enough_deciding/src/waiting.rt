//! What a script demands, if of its lines that wait only some do.

ghost use Rattle.std.specs.Prelude.{◌≡◌, ◌+◌, ◌≤◌, length, map, IfOk};
ghost use Rattle.crash_model.specs.ChosenWaits.{forced_before, demands_waiting, promise_waiting};
ghost use Rattle.traced_patches.specs.Labels.{waits_by};

use disk_image::{Demands, Image, Promise};
use patch_sets::set::has;
use std::alloc::{AllocError, Allocator};
use traced_patches::Wait;

/// The same demands, if only the lines of a set wait: a promise has the ids that these force before it. It fails only
/// when out of memory.
pub(crate) fn demands_waiting<A: Allocator + Copy>(
    alloc: A,
    demands: &Demands<A>,
    waits: &[Wait<'_>],
    chosen: u128,
) -> Result<Demands<A>, AllocError>
    requires few { length waits.now ≤ 64 }
    ensures { IfOk result (λ changed. changed ≡ demands_waiting (waits_by waits.now) chosen demands.now) }
{
    let disks = match demands.disks() {
        Some(disks) => Some(disks_copy(alloc, disks)?),
        None => None,
    };
    let changed = Demands::new(demands.kept(), disks).counting(demands.counted());
    if !demands.has_promises() {
        return Ok(changed);
    }
    let promises = promises_waiting(alloc, demands.promises(), waits, chosen)?;
    Ok(changed.with_promises(promises))
}

/// A copy of disks. It fails only when out of memory.
fn disks_copy<A: Allocator + Copy>(
    alloc: A,
    disks: &[Image<A>],
) -> Result<Vec<Image<A>, A>, AllocError>
    ensures { IfOk result (λ copies. copies.items ≡ disks.now) }
{
    let mut copies = Vec::new(alloc);
    for disk in disks {
        copies.push(disk.try_copy()?)?;
    }
    Ok(copies)
}

/// The same promises, if only the lines of a set wait.
fn promises_waiting<A: Allocator + Copy>(
    alloc: A,
    promises: &[Promise<A>],
    waits: &[Wait<'_>],
    chosen: u128,
) -> Result<Vec<Promise<A>, A>, AllocError>
    requires few { length waits.now ≤ 64 }
    ensures { IfOk result (λ changed.
        changed.items ≡ map (promise_waiting (waits_by waits.now) chosen) promises.now) }
{
    let mut changed = Vec::new(alloc);
    for promise in promises {
        changed.push(promise_waiting(alloc, promise, waits, chosen)?)?;
    }
    Ok(changed)
}

/// The same promise, if only the lines of a set wait.
fn promise_waiting<A: Allocator + Copy>(
    alloc: A,
    promise: &Promise<A>,
    waits: &[Wait<'_>],
    chosen: u128,
) -> Result<Promise<A>, AllocError>
    requires few { length waits.now ≤ 64 }
    ensures { IfOk result (λ changed. changed ≡ promise_waiting (waits_by waits.now) chosen promise.now) }
{
    let mut copy = promise.try_copy(alloc)?;
    copy.after = forced_up_to(waits, chosen, promise.line);
    Ok(copy)
}

/// What lines of a set force that stand before a line or are that line, as a set.
fn forced_up_to(waits: &[Wait<'_>], chosen: u128, line: usize) -> u128
    requires few { length waits.now ≤ 64 }
    ensures { result ≡ forced_before (waits_by waits.now) chosen (line + 1) }
{
    let mut forced = 0;
    for (place, wait) in waits.iter().enumerate() {
        if has(chosen, place) && wait.step.line <= line {
            forced |= wait.ids;
        }
    }
    forced
}
