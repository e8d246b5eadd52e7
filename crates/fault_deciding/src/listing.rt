//! The faults that are tried.

ghost use Rattle.std.specs.Prelude.{IfOk, OnOk};
ghost use Rattle.fault_deciding.specs.Asked.{AreAllOf, AreFoundByTest, HasFaultOf};

use crate::candidates::possible_faults;
use crash_model::fault::Fault;
use disk_image::Demands;
use known_bytes::{Chains, KnownBytes};
use std::alloc::{AllocError, Allocator};

/// Each fault that a crash can leave, and perhaps others, in any order. It fails only when out of memory.
pub(crate) fn candidates<A: Allocator + Copy>(
    alloc: A,
    chains: &Chains<'_, A>,
    demands: &Demands<A>,
) -> Result<Vec<Fault, A>, AllocError>
    ensures all { IfOk result (λ list. AreAllOf (HasFaultOf demands.now chains.now) list.items) }
    ensures found { OnOk result (AreFoundByTest demands.now chains.now) }
{
    let bytes = KnownBytes::new(chains, 0, 0);
    possible_faults(alloc, &bytes, demands)
}
