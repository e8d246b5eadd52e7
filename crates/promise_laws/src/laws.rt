//! The promises that the full journal keeps, as functions that do nothing and promise the law.

ghost use Rattle.std.specs.Prelude.{◌≡◌, ◌++◌, ◌∷◌, ℕ, List, All, Bool, false, Ok};
ghost use Rattle.patch_sets.specs.Closed.{IsClosed};
ghost use Rattle.crash_model.specs.Disk.{Disk, IsDisk};
ghost use Rattle.crash_model.specs.Sound.{IsSound, HasZeroJournal};
ghost use Rattle.crash_model.specs.Patches.{deps_of, image_of};
ghost use Rattle.crash_model.specs.Checker.{Asked, Demands, AreDemands, IsFailingUnder, all_faults};
ghost use Rattle.crash_model.specs.Promises.{kept, durable, is_broken, breaks_line, promises_of};
ghost use Rattle.crash_model.specs.Replay.{image_after_replay};
ghost use Rattle.crash_model.specs.Rules.{rules_of};
ghost use Rattle.crash_model.specs.RuleFacts.{AreAmong};
ghost use Rattle.crash_model.specs.Trace.{trace_from, IsGraphOf};
ghost use Rattle.crash_model.specs.Tracing.{Tracing, trace_start};
ghost use Rattle.crash_model.specs.declared.modules.Module.TheVariants.{Full};
ghost use Rattle.crash_model.specs.declared.names.Path.{Path};
ghost use Rattle.crash_model.specs.declared.patches.Patch.{Patch};
ghost use Rattle.crash_model.specs.declared.rules.Rule.{Rule};
ghost use Rattle.crash_model.specs.declared.steps.Act.TheVariants.{Fsync};
ghost use Rattle.crash_model.specs.declared.steps.Step.{Step};
ghost use Rattle.crash_model.specs.declared.steps.Target.TheVariants.{At};
ghost use Rattle.inode_fs.specs.Inside.{GivesName};
ghost use Rattle.full_journal_laws.specs.Full.{ops_of, GivesNames};
ghost use Rattle.promise_laws.specs.Waited.{HasNoGroups, EndBehind, IsWaitedFor, IsSureAt, RiskNoPromise};
ghost use Rattle.promise_laws.specs.Waited.{AreAtRisk};

/// In a script without groups no set that a crash can leave breaks the promise of a line `keep` for which the script
/// has waited: the line stands before the first operation; or a `sync` stands before it, with no operation between; or
/// it names one path, and an `fsync` of this path stands before it, with no operation between. `before` has the steps
/// up to the line, and `here` is the place right behind it. This holds with any rules added to those of the journal,
/// and with blocks that are written whole.
pub fn what_is_waited_for_is_kept()
    ensures { (rules : List Rule) → (whole : Bool) → (base : Disk) → (before after : List Step) → (s here : Tracing)
        → (patches : List Patch) → (set line : ℕ) → (paths : List Path)
        → IsDisk base → IsSound base → HasZeroJournal base → All GivesName (ops_of (before ++ after))
        → trace_from Full (trace_start whole base) (before ++ after) ≡ Ok s → AreAmong (rules_of Full) rules
        → IsGraphOf rules base s patches → IsClosed (deps_of patches) set
        → trace_from Full (trace_start whole base) before ≡ Ok here
        → HasNoGroups (before ++ after) → IsWaitedFor before paths
        → is_broken (kept Full line paths here after) set (image_after_replay (image_of base patches set)) ≡ false }
{}

/// No set that a crash can leave breaks the promise of an `fsync` of a path, if fsyncs promise. This holds with groups,
/// too. A set that has what the line forces, and no patch of a later operation that touches the path, shows what the
/// path shows at the line. `before` has the steps up to the line.
pub fn what_is_forced_lasts()
    ensures { (rules : List Rule) → (whole : Bool) → (base : Disk) → (before after : List Step) → (s here : Tracing)
        → (patches : List Patch) → (set line : ℕ) → (path : Path)
        → IsDisk base → IsSound base → HasZeroJournal base → All GivesName (ops_of (before ++ after))
        → trace_from Full (trace_start whole base) (before ++ after) ≡ Ok s → AreAmong (rules_of Full) rules
        → IsGraphOf rules base s patches → IsClosed (deps_of patches) set
        → trace_from Full (trace_start whole base) before ≡ Ok here → EndBehind (Fsync (At path)) before
        → is_broken (durable Full line path here after) set (image_after_replay (image_of base patches set)) ≡ false }
{}

/// So the checker finds no broken promise of a line, if each promise of a line with this number is that of an `fsync`,
/// or that of a `keep` for which the script has waited.
pub fn sure_lines_are_kept()
    ensures { (rules : List Rule) → (whole is_durable : Bool) → (base : Disk) → (steps : List Step) → (s : Tracing)
        → (patches : List Patch) → (set line : ℕ)
        → IsDisk base → IsSound base → HasZeroJournal base → All GivesName (ops_of steps)
        → trace_from Full (trace_start whole base) steps ≡ Ok s → AreAmong (rules_of Full) rules
        → IsGraphOf rules base s patches → IsClosed (deps_of patches) set
        → IsSureAt line steps
        → breaks_line (promises_of Full is_durable base steps) set
        (image_after_replay (image_of base patches set)) line ≡ false }
{}

/// So nothing fails, whatever is demanded, if this is so of each promise of a script, or if broken promises do not
/// count.
pub fn nothing_fails_where_no_promise_is_at_risk()
    ensures { (rules : List Rule) → (whole : Bool) → (asked : Asked) → (base : Disk) → (steps : List Step)
        → (s : Tracing) → (patches : List Patch) → (set : ℕ) → (demands : Demands)
        → IsDisk base → IsSound base → HasZeroJournal base → All GivesNames steps
        → trace_from Full (trace_start whole base) steps ≡ Ok s → AreAmong (rules_of Full) rules
        → IsGraphOf rules base s patches → asked.kind ≡ Full → AreDemands asked base steps demands
        → RiskNoPromise asked steps
        → ¬ (IsFailingUnder demands base patches set) }
{}

/// And whatever is demanded, each fault that a crash leaves is a broken promise of a line that is not sure. So none of
/// the nine other faults is left, and the promises that the script has waited for are kept beside those that are at
/// risk.
pub fn only_promises_at_risk_are_broken()
    ensures { (rules : List Rule) → (whole : Bool) → (asked : Asked) → (base : Disk) → (steps : List Step)
        → (s : Tracing) → (patches : List Patch) → (set : ℕ) → (demands : Demands)
        → IsDisk base → IsSound base → HasZeroJournal base → All GivesNames steps
        → trace_from Full (trace_start whole base) steps ≡ Ok s → AreAmong (rules_of Full) rules
        → IsGraphOf rules base s patches → asked.kind ≡ Full → AreDemands asked base steps demands
        → IsClosed (deps_of patches) set
        → AreAtRisk steps (all_faults demands set (image_after_replay (image_of base patches set))) }
{}
