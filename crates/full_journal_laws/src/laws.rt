//! What is certain of a script under the full journal, as functions that do nothing and promise the law.

ghost use Rattle.std.specs.Prelude.{◌≡◌, ℕ, List, All, Bool, Ok, Some};
ghost use Rattle.patch_sets.specs.Closed.{IsClosed};
ghost use Rattle.crash_model.specs.Disk.{Disk, IsDisk};
ghost use Rattle.crash_model.specs.Sound.{IsSound, HasZeroJournal};
ghost use Rattle.crash_model.specs.Patches.{deps_of, image_of};
ghost use Rattle.crash_model.specs.Replay.{image_after_replay};
ghost use Rattle.crash_model.specs.Checker.{Demands, Asked, AreDemands, IsCleanKeeping, IsFailingUnder};
ghost use Rattle.crash_model.specs.Checker.{all_faults, promised};
ghost use Rattle.crash_model.specs.BrokenLines.{broken_lines};
ghost use Rattle.crash_model.specs.Strict.{IsKept};
ghost use Rattle.crash_model.specs.Trace.{trace_from, IsGraphOf};
ghost use Rattle.crash_model.specs.Tracing.{Tracing, trace_start};
ghost use Rattle.crash_model.specs.Rules.{rules_of};
ghost use Rattle.crash_model.specs.RuleFacts.{AreAmong};
ghost use Rattle.crash_model.specs.declared.patches.Patch.{Patch};
ghost use Rattle.crash_model.specs.declared.rules.Rule.{Rule};
ghost use Rattle.crash_model.specs.declared.modules.Module.{Module};
ghost use Rattle.crash_model.specs.declared.modules.Module.TheVariants.{Full};
ghost use Rattle.crash_model.specs.declared.steps.Step.{Step};
ghost use Rattle.inode_fs.specs.Inside.{GivesName};
ghost use Rattle.full_journal_laws.specs.Full.{ops_of, GivesNames, IsRecovered, IsFullSafe, CountsNoPromise};

/// From a sound disk with a zero journal, and for every set of patches that a crash can leave: replay makes a sound
/// disk, which outside the journal is the base after the first k operations, k being how many commit patches the set
/// has. This holds with any rules added to those of the journal, and with blocks that are written whole.
pub fn replay_recovers_the_committed_operations()
    ensures { (rules : List Rule) → (whole : Bool) → (base : Disk) → (steps : List Step) → (s : Tracing)
        → (patches : List Patch) → (set : ℕ)
        → IsDisk base → IsSound base → HasZeroJournal base → All GivesName (ops_of steps)
        → trace_from Full (trace_start whole base) steps ≡ Ok s → AreAmong (rules_of Full) rules
        → IsGraphOf rules base s patches
        → IsClosed (deps_of patches) set
        → IsRecovered base steps s patches set }
{}

/// So the patches that `trace` of `order_modules` makes are safe under the full journal with all its rules. The
/// premises are what `trace` is given, and what it promises of its names, of the trace and of the graph.
pub fn what_is_traced_is_safe()
    ensures { (by : Module) → (rules : List Rule) → (whole : Bool) → (base : Disk) → (steps : List Step)
        → (s : Tracing) → (patches : List Patch)
        → by ≡ Full → AreAmong (rules_of Full) rules → IsDisk base → IsSound base → HasZeroJournal base
        → All GivesNames steps
        → trace_from by (trace_start whole base) steps ≡ Ok s → IsGraphOf rules base s patches
        → IsFullSafe whole base steps patches }
{}

/// So nothing fails with a strict checker either: the image after replay has none of the eight faults, for every script
/// and every set of patches that a crash can leave.
pub fn nothing_that_the_script_keeps_is_lost()
    ensures { (rules : List Rule) → (whole : Bool) → (base : Disk) → (steps : List Step) → (s : Tracing)
        → (patches : List Patch) → (set kept : ℕ)
        → IsDisk base → IsSound base → HasZeroJournal base → All GivesName (ops_of steps)
        → trace_from Full (trace_start whole base) steps ≡ Ok s → AreAmong (rules_of Full) rules
        → IsGraphOf rules base s patches
        → IsClosed (deps_of patches) set → IsKept base steps kept
        → IsCleanKeeping (Some kept) (image_after_replay (image_of base patches set)) }
{}

/// So a set fails only where it breaks a promise, whatever is demanded: of the image after replay none of the nine
/// other faults holds, since it shows the disk after the operations that are committed.
pub fn only_promises_can_be_broken()
    ensures { (rules : List Rule) → (whole : Bool) → (asked : Asked) → (base : Disk) → (steps : List Step)
        → (s : Tracing) → (patches : List Patch) → (set : ℕ) → (demands : Demands)
        → IsDisk base → IsSound base → HasZeroJournal base → All GivesName (ops_of steps)
        → trace_from Full (trace_start whole base) steps ≡ Ok s → AreAmong (rules_of Full) rules
        → IsGraphOf rules base s patches
        → IsClosed (deps_of patches) set → AreDemands asked base steps demands
        → all_faults demands set (image_after_replay (image_of base patches set))
        ≡ broken_lines (promised demands.promises) set (image_after_replay (image_of base patches set)) }
{}

/// So nothing fails where no promise is made, or where broken promises do not count.
pub fn nothing_fails_without_promises()
    ensures { (rules : List Rule) → (whole : Bool) → (asked : Asked) → (base : Disk) → (steps : List Step)
        → (s : Tracing) → (patches : List Patch) → (set : ℕ) → (demands : Demands)
        → IsDisk base → IsSound base → HasZeroJournal base → All GivesNames steps
        → trace_from Full (trace_start whole base) steps ≡ Ok s → AreAmong (rules_of Full) rules
        → IsGraphOf rules base s patches
        → AreDemands asked base steps demands → CountsNoPromise demands
        → ¬ (IsFailingUnder demands base patches set) }
{}
