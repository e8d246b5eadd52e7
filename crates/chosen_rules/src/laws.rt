//! What rules and lines that wait exclude, as functions that do nothing and promise the law.

ghost use Rattle.std.specs.Prelude.{◌↔◌, ℕ, List, []};
ghost use Rattle.std.specs.List.{Contains};
ghost use Rattle.patch_sets.specs.Closed.{IsClosed};
ghost use Rattle.patch_sets.specs.Sets.{Has, IsSubset};
ghost use Rattle.crash_model.specs.ChosenWaits.{tracing_waiting, demands_waiting};
ghost use Rattle.crash_model.specs.Disk.{Disk};
ghost use Rattle.crash_model.specs.Patches.{deps_of};
ghost use Rattle.crash_model.specs.Checker.{Demands, IsFailingUnder};
ghost use Rattle.crash_model.specs.FirstSets.{HasFault};
ghost use Rattle.crash_model.specs.Trace.{IsGraphOf};
ghost use Rattle.crash_model.specs.Tracing.{Tracing};
ghost use Rattle.crash_model.specs.declared.fault.Fault.{Fault};
ghost use Rattle.crash_model.specs.declared.patches.Patch.{Patch};
ghost use Rattle.crash_model.specs.declared.rules.Rule.{Rule};
ghost use Rattle.chosen_rules.specs.Excluded.{Excludes};
ghost use Rattle.chosen_rules.specs.ExcludedBy.{ExcludesFaultAt};

/// Of the patches of a trace, a set is closed, or fails, under some rules exactly if it is closed, or fails, without
/// any rule and none of the rules excludes it.
pub fn rules_exclude_what_they_prevent()
    ensures closed { (rules : List Rule) (base : Disk) (s : Tracing) (bare ruled : List Patch) (set : ℕ)
        → IsGraphOf [] base s bare → IsGraphOf rules base s ruled
        → IsClosed (deps_of ruled) set ↔ (IsClosed (deps_of bare) set
        × ((rule : Rule) → Contains rules rule → ¬ (Excludes s.emitted rule set))) }
    ensures failing { (demands : Demands) (rules : List Rule) (base : Disk) (s : Tracing) (bare ruled : List Patch)
        → (set : ℕ) → IsGraphOf [] base s bare → IsGraphOf rules base s ruled
        → IsFailingUnder demands base ruled set ↔ (IsFailingUnder demands base bare set
        × ((rule : Rule) → Contains rules rule → ¬ (Excludes s.emitted rule set))) }
{}

/// Of the patches of a trace, a set that is closed, has a fault, or fails where some lines wait is closed, has the
/// fault, or fails where fewer of them wait. So more waiting never adds a failing set.
pub fn more_waiting_fails_no_more()
    ensures closed { (rules : List Rule) (base : Disk) (s : Tracing) (few more : ℕ) (less waited : List Patch) (set : ℕ)
        → IsSubset few more → IsGraphOf rules base (tracing_waiting few s) less
        → IsGraphOf rules base (tracing_waiting more s) waited
        → IsClosed (deps_of waited) set → IsClosed (deps_of less) set }
    ensures faults { (demands : Demands) (rules : List Rule) (base : Disk) (s : Tracing) (few more : ℕ)
        → (less waited : List Patch) (fault : Fault) (set : ℕ)
        → IsSubset few more → IsGraphOf rules base (tracing_waiting few s) less
        → IsGraphOf rules base (tracing_waiting more s) waited
        → HasFault (demands_waiting s.waits more demands) base waited fault set
        → HasFault (demands_waiting s.waits few demands) base less fault set }
    ensures failing { (demands : Demands) (rules : List Rule) (base : Disk) (s : Tracing) (few more : ℕ)
        → (less waited : List Patch) (set : ℕ)
        → IsSubset few more → IsGraphOf rules base (tracing_waiting few s) less
        → IsGraphOf rules base (tracing_waiting more s) waited
        → IsFailingUnder (demands_waiting s.waits more demands) base waited set
        → IsFailingUnder (demands_waiting s.waits few demands) base less set }
{}

/// Of the patches of a trace, a fault that a set has where some lines wait it has where others wait exactly if none of
/// these excludes it.
pub fn lines_exclude_what_they_prevent()
    ensures { (demands : Demands) (rules : List Rule) (base : Disk) (s : Tracing) (some others : ℕ)
        → (patches changed : List Patch) (fault : Fault) (set : ℕ)
        → IsGraphOf rules base (tracing_waiting some s) patches → IsGraphOf rules base (tracing_waiting others s) changed
        → HasFault (demands_waiting s.waits some demands) base patches fault set
        → (HasFault (demands_waiting s.waits others demands) base changed fault set
        ↔ ((place : ℕ) → Has others place → ¬ (ExcludesFaultAt s.emitted s.waits set fault place))) }
{}
