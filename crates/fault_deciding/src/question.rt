//! The question whether a set has a fault.

ghost use Rattle.std.specs.Prelude.{◌≡◌};
ghost use Rattle.known_bytes.specs.SetFaults.{does_count, is_of_set};
ghost use Rattle.known_bytes.specs.Texts.{has_fault};
ghost use Rattle.fault_deciding.specs.Asked.{family_of};
ghost use Rattle.fault_deciding.specs.OfSets.{IsKnownOfSets};

use crate::promise::breaks_line;
use crash_model::fault::Fault;
use disk_image::Demands;
use fs_check::is_counted;
use known_bytes::{Chains, KnownBytes, KnownDisk};
use set_families::{ClosedSets, Family, SetProperty};
use std::alloc::Allocator;

/// Whether a set has a fault, by what is demanded: a broken promise, or a fault of the image that it leaves, after
/// replay.
#[derive(Drop)]
pub struct FaultQuestion<'a, A: Allocator + Copy> {
    pub chains: &'a Chains<'a, A>,
    pub demands: &'a Demands<A>,
    pub fault: Fault,
}

impl<A: Allocator + Copy> SetProperty for FaultQuestion<'_, A> {
    ghost use Rattle.std.specs.Prelude.{◌≡◌};
    ghost use Rattle.crash_model.specs.Patches.{deps_of};
    ghost use Rattle.fault_deciding.specs.Asked.{LeavesFault};

    ghost is_about = { λ q deps. deps ≡ deps_of q.chains.now.patches };

    ghost holds = { λ q. LeavesFault q.demands.now q.chains.now q.fault };

    fn ask(&self, _sets: &ClosedSets<'_>, family: Family) -> Result<bool, usize> {
        if !counts(self.demands, self.fault) {
            return Ok(false);
        }
        self.is_there(family)
    }
}

impl<A: Allocator + Copy> FaultQuestion<'_, A> {
    /// Whether the members of a family have the fault, whether it counts or not.
    fn is_there(&self, family: Family) -> Result<bool, usize>
        ensures { IsKnownOfSets (family_of self.now.chains.now family)
            (λ set d. is_of_set self.now.demands.now set d self.now.fault) result }
    {
        match self.fault {
            Fault::BrokenPromise { line } => {
                breaks_line(self.chains, family, self.demands.promises(), line)
            }
            _ => self.is_on_disk(family),
        }
    }

    /// Whether the members of a family have a fault that is one of their disks.
    fn is_on_disk(&self, family: Family) -> Result<bool, usize>
        ensures { IsKnownOfSets (family_of self.now.chains.now family)
            (λ set d. has_fault self.now.demands.now d self.now.fault) result }
    {
        let bytes = KnownBytes::new(self.chains, family.held, family.barred);
        let disk = KnownDisk::replayed(bytes)?;
        disk.has(self.fault, self.demands)
    }
}

/// Whether faults like this one count.
fn counts<A: Allocator + Copy>(demands: &Demands<A>, fault: Fault) -> bool
    ensures { result ≡ does_count demands.now.counted fault }
{
    match demands.counted() {
        Some(counted) => is_counted(fault, counted),
        None => true,
    }
}
