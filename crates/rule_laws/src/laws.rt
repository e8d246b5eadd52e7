//! What lists of rules order, as functions that do nothing and promise the law.

ghost use Rattle.std.specs.Prelude.{◌≡◌, ℕ, List, [], Bool, true, false};
ghost use Rattle.std.specs.List.{list_any};
ghost use Rattle.patch_sets.specs.Closed.{IsClosed};
ghost use Rattle.crash_model.specs.Disk.{Disk};
ghost use Rattle.crash_model.specs.Failing.{IsFailing};
ghost use Rattle.crash_model.specs.Patches.{deps_of};
ghost use Rattle.crash_model.specs.Rules.{rules_of};
ghost use Rattle.crash_model.specs.ChosenRules.{rules_under};
ghost use Rattle.crash_model.specs.RuleFacts.{AreAmong};
ghost use Rattle.crash_model.specs.Checker.{Demands, IsFailingUnder};
ghost use Rattle.crash_model.specs.Trace.{Emitted, trace_from, IsGraphOf, applies};
ghost use Rattle.crash_model.specs.Tracing.{Tracing};
ghost use Rattle.crash_model.specs.declared.patches.Patch.{Patch};
ghost use Rattle.crash_model.specs.declared.rules.Rule.{Rule};
ghost use Rattle.crash_model.specs.declared.modules.Module.{Module};
ghost use Rattle.crash_model.specs.declared.steps.Step.{Step};
ghost use Rattle.rule_laws.specs.Tables.{row, are_in};
ghost use Rattle.rule_laws.specs.Whole.{with_whole, written_whole};

/// The rules of a module make a patch wait for an earlier one exactly if the module's table does.
pub fn the_orderings_are_their_tables()
    ensures { (kind : Module) (q p : Emitted)
        → list_any (λ rule. applies rule q p) (rules_of kind) ≡ are_in
        (row kind q.part p.part) q.op_number p.op_number }
{}

/// More rules never add a crash state: of the same patches, a set that is closed, or fails, under all of the rules also
/// does so under some of them, whatever inodes the script keeps.
pub fn more_rules_never_add_a_crash_state()
    ensures closed { (some all : List Rule) (base : Disk) (s : Tracing) (few more : List Patch) (set : ℕ)
        → AreAmong some all
        → IsGraphOf some base s few → IsGraphOf all base s more → IsClosed (deps_of more) set
        → IsClosed (deps_of few) set }
    ensures failing { (some all : List Rule) (base : Disk) (s : Tracing) (few more : List Patch) (set : ℕ)
        → AreAmong some all
        → IsGraphOf some base s few → IsGraphOf all base s more → IsFailing base more set → IsFailing base few set }
    ensures strict { (demands : Demands) (some all : List Rule) (base : Disk) (s : Tracing) (few more : List Patch)
        → (set : ℕ) → AreAmong some all
        → IsGraphOf some base s few → IsGraphOf all base s more → IsFailingUnder demands base more set
        → IsFailingUnder demands base few set }
{}

/// Whether blocks are written whole changes no step of a trace, and no refusal: the patches are the same.
pub fn whole_blocks_change_no_patch()
    ensures { (kind : Module) (s : Tracing) (steps : List Step) (whole : Bool)
        → trace_from kind (with_whole whole s) steps ≡ written_whole whole (trace_from kind s steps) }
{}

/// Blocks that are written whole never add a crash state: of the same patches, a set that is closed, or fails, if
/// blocks are written whole also does so if they are not, for either checker.
pub fn whole_blocks_never_add_a_crash_state()
    ensures closed { (rules : List Rule) (base : Disk) (s : Tracing) (few more : List Patch) (set : ℕ)
        → IsGraphOf rules base (with_whole false s) few → IsGraphOf rules base (with_whole true s) more
        → IsClosed (deps_of more) set → IsClosed (deps_of few) set }
    ensures failing { (rules : List Rule) (base : Disk) (s : Tracing) (few more : List Patch) (set : ℕ)
        → IsGraphOf rules base (with_whole false s) few → IsGraphOf rules base (with_whole true s) more
        → IsFailing base more set → IsFailing base few set }
    ensures strict { (demands : Demands) (rules : List Rule) (base : Disk) (s : Tracing) (few more : List Patch)
        → (set : ℕ)
        → IsGraphOf rules base (with_whole false s) few → IsGraphOf rules base (with_whole true s) more
        → IsFailingUnder demands base more set → IsFailingUnder demands base few set }
{}

/// If no rule is taken out, each rule of the module is in the ordering, whatever is put in. If none is put in either,
/// the ordering has no others.
pub fn rules_put_in_leave_those_of_the_module()
    ensures among { (kind : Module) (with : List Rule) → AreAmong (rules_of kind) (rules_under kind [] with) }
    ensures own { (kind : Module) → rules_under kind [] [] ≡ rules_of kind }
{}
