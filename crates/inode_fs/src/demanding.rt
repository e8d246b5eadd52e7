//! What a script demands of an image of it.

ghost use Rattle.std.specs.Prelude.{◌≡◌, [], ◌∷◌, IfOk, OnOk, option_map};
ghost use Rattle.std.specs.List.{list_any};
ghost use Rattle.crash_model.specs.Atomic.{is_same_disk, with_disk, disks_of};
ghost use Rattle.crash_model.specs.Lists.{when};
ghost use Rattle.crash_model.specs.Checker.{IsKeptIfStrict};
ghost use Rattle.inode_fs.specs.Demanding.{IsSoFar, TakesStep, AreStillKept, AreImageDemands};

use crate::applying::advance;
use crate::live_inodes::live_inodes;
use crash_model::steps::Step;
use disk_image::{Demands, Image};
use std::alloc::{AllocError, Allocator};
use std::marker::Model;

/// What a script demands of an image that it leaves on a base: if it is checked strictly, that the inodes that it keeps
/// are not lost, and if its operations are to be atomic, that the image shows the base or the disk after one of the
/// steps.
///
/// A step that is no operation changes nothing, nor does a refused operation. Nothing is said of promises here. It
/// fails only when out of memory.
pub fn demands<A: Allocator + Copy>(
    alloc: A,
    base: &Image<A>,
    steps: &[Step],
    is_strict: bool,
    is_atomic: bool,
) -> Result<Demands<A>, AllocError>
    ensures { IfOk result (AreImageDemands is_strict is_atomic base.now steps.now) }
{
    let mut demanding = Demanding::new(alloc, base, is_strict, is_atomic)?;
    for step in steps {
        demanding.step(step)?;
    }
    Ok(demanding.into_demands())
}

/// What the steps of a script demand so far, to which those of later steps can be added.
#[derive(Drop)]
pub struct Demanding<A: Allocator + Copy> {
    alloc: A,
    /// The disk after the steps so far, if anything is demanded.
    disk: Option<Image<A>>,
    /// The inodes that the steps keep, as a set, if the checker is strict.
    kept: Option<u16>,
    /// The base and the disk after each of the steps, each once, if operations are to be atomic.
    disks: Option<Vec<Image<A>, A>>,
}

impl<A: Allocator + Copy> Model for Demanding<A> {
    ghost use Rattle.std.specs.Prelude.{option_map};
    ghost use Rattle.inode_fs.specs.Demanding.{SoFar, image_demands};

    ghost Value = { SoFar };

    ghost view = { λ d. record {
      disk = d.disk;
      demands = image_demands d.kept (option_map (λ v. v.items) d.disks);
    } };
}

impl<A: Allocator + Copy> Demanding<A> {
    /// What is demanded before the first step. It fails only when out of memory.
    pub fn new(
        alloc: A,
        base: &Image<A>,
        is_strict: bool,
        is_atomic: bool,
    ) -> Result<Demanding<A>, AllocError>
        ensures { IfOk result (IsSoFar is_strict is_atomic base.now []) }
    {
        let disk = if is_strict || is_atomic {
            Some(base.try_copy()?)
        } else {
            None
        };
        let kept = if is_strict {
            Some(live_inodes(base))
        } else {
            None
        };
        let disks = if is_atomic {
            Some(only(alloc, base)?)
        } else {
            None
        };
        Ok(Demanding {
            alloc,
            disk,
            kept,
            disks,
        })
    }

    /// The same in memory of its own. It fails only when out of memory.
    pub fn try_copy(&self) -> Result<Demanding<A>, AllocError>
        ensures { IfOk result (λ copy. copy ≡ self.now) }
    {
        let disk = match &self.disk {
            Some(disk) => Some(disk.try_copy()?),
            None => None,
        };
        let disks = match &self.disks {
            Some(disks) => Some(copies(self.alloc, disks.as_slice())?),
            None => None,
        };
        Ok(Demanding {
            alloc: self.alloc,
            disk,
            kept: self.kept,
            disks,
        })
    }

    /// Adds a step. It fails only when out of memory.
    pub fn step(&mut self, step: &Step) -> Result<(), AllocError>
        ensures { OnOk result (TakesStep step.now self.old self.new) }
    {
        if let Some(disk) = &mut self.disk {
            advance(disk, step);
            self.kept = still_kept(self.kept, disk);
            add_disk(&mut self.disks, disk)?;
        }
        Ok(())
    }

    /// A copy with one more step. It fails only when out of memory.
    pub fn with_step(&self, step: &Step) -> Result<Demanding<A>, AllocError>
        ensures { IfOk result (λ longer. TakesStep step.now self.now longer) }
    {
        let mut longer = self.try_copy()?;
        longer.step(step)?;
        Ok(longer)
    }

    /// What the steps demand.
    pub fn into_demands(self) -> Demands<A>
        ensures { result ≡ self.demands }
    {
        Demands::new(self.kept, self.disks)
    }
}

/// A copy of a disk as the only one. It fails only when out of memory.
fn only<A: Allocator + Copy>(alloc: A, disk: &Image<A>) -> Result<Vec<Image<A>, A>, AllocError>
    ensures { IfOk result (λ disks. disks.items ≡ disk.now ∷ []) }
{
    let mut disks = Vec::new(alloc);
    disks.push(disk.try_copy()?)?;
    Ok(disks)
}

/// The same disks in memory of their own. It fails only when out of memory.
fn copies<A: Allocator + Copy>(alloc: A, disks: &[Image<A>]) -> Result<Vec<Image<A>, A>, AllocError>
    ensures { IfOk result (λ copies. copies.items ≡ disks.now) }
{
    let mut copies = Vec::new(alloc);
    for disk in disks {
        copies.push(disk.try_copy()?)?;
    }
    Ok(copies)
}

/// The kept inodes that are live in a disk, if inodes are kept.
fn still_kept<A: Allocator + Copy>(kept: Option<u16>, disk: &Image<A>) -> Option<u16>
    ensures { AreStillKept kept disk.now result }
{
    match kept {
        Some(kept) => Some(kept & live_inodes(disk)),
        None => None,
    }
}

/// Adds a disk, if disks are kept and it is none of them.
fn add_disk<A: Allocator + Copy>(
    disks: &mut Option<Vec<Image<A>, A>>,
    disk: &Image<A>,
) -> Result<(), AllocError>
    ensures { OnOk result (option_map (λ v. v.items) disks.new
        ≡ option_map (λ ds. with_disk ds disk.now) (option_map (λ v. v.items) disks.old)) }
{
    if let Some(disks) = disks {
        push_new(disks, disk)?;
    }
    Ok(())
}

/// Adds a disk, unless it is one of them.
fn push_new<A: Allocator + Copy>(
    disks: &mut Vec<Image<A>, A>,
    disk: &Image<A>,
) -> Result<(), AllocError>
    ensures { OnOk result (disks.new.items ≡ with_disk disks.old.items disk.now) }
{
    if !is_among(disks.as_slice(), disk) {
        let copy = disk.try_copy()?;
        disks.push(copy)?;
    }
    Ok(())
}

/// Whether a disk is one of these.
fn is_among<A: Allocator + Copy>(disks: &[Image<A>], disk: &Image<A>) -> bool
    ensures { result ≡ list_any (is_same_disk disk.now) disks.now }
{
    disks.iter().any(|other| disk.is_same(other))
}
