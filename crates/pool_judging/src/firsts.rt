//! The first set of each kind of fault.

ghost use Rattle.std.specs.Prelude.{◌≡◌, ◌⊎◌, ℕ, Option, Some, List, IfSome};
ghost use Rattle.patch_sets.specs.Sets.{IsBefore};
ghost use Rattle.crash_model.specs.Checker.{Demands};
ghost use Rattle.crash_model.specs.Disk.{Disk};
ghost use Rattle.crash_model.specs.FirstSets.{HasFault};
ghost use Rattle.crash_model.specs.declared.patches.Patch.{Patch};
ghost use Rattle.question_model.specs.Decided.{AreDecided};
ghost use Rattle.pool_judging.specs.Firsts.{AreFirstOfKinds, IsLeastOfKind};

use crash_model::fault_kind::{FaultKind, KINDS};
use patch_sets::order::is_before;
use question_model::DecidedFault;

/// The first set, in canonical order, that has a fault of each kind, by the faults that sets have and the first set of
/// each: that of the kind with number n at place n - 1, and `None` if no set has such a fault.
pub(crate) fn firsts(faults: &[DecidedFault]) -> [Option<u128>; KINDS]
    ensures { (demands : Demands) (base : Disk) (patches : List Patch)
        → AreDecided (HasFault demands base patches) faults.now → AreFirstOfKinds demands base patches result }
{
    let mut first_sets = [None; KINDS];
    for place in 0..KINDS {
        first_sets[place] = first_of(faults, FaultKind::at(place));
    }
    first_sets
}

/// The least in canonical order of the sets of the faults of a kind, or `None` if no fault is of the kind.
fn first_of(faults: &[DecidedFault], kind: FaultKind) -> Option<u128>
    ensures { IsLeastOfKind kind faults.now result }
{
    let mut least: Option<u128> = None;
    for decided in faults {
        if FaultKind::of(&decided.fault) == kind {
            least = Some(earlier(least, decided.first));
        }
    }
    least
}

/// The set, or the least one so far if that is before it in canonical order.
fn earlier(least: Option<u128>, set: u128) -> u128
    ensures one { (result ≡ set) ⊎ (least ≡ Some result) }
    ensures set { ¬ (IsBefore set result) }
    ensures least { IfSome least (λ so_far. ¬ (IsBefore so_far result)) }
{
    match least {
        Some(so_far) if is_before(so_far, set) => so_far,
        _ => set,
    }
}
