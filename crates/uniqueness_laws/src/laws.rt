//! What is determined, as functions that do nothing and promise the law.

ghost use Rattle.std.specs.Prelude.{◌≡◌, ℕ, List};
ghost use Rattle.crash_model.specs.Checker.{Demands, Asked, AreDemands};
ghost use Rattle.crash_model.specs.Disk.{Disk};
ghost use Rattle.crash_model.specs.Script.{IsScript};
ghost use Rattle.crash_model.specs.ScriptRefusals.{IsScriptRefusal};
ghost use Rattle.crash_model.specs.Trace.{IsGraphOf};
ghost use Rattle.crash_model.specs.Tracing.{Tracing};
ghost use Rattle.crash_model.specs.declared.patches.Patch.{Patch};
ghost use Rattle.crash_model.specs.declared.refusals.ScriptFault.{ScriptFault};
ghost use Rattle.crash_model.specs.declared.rules.Rule.{Rule};
ghost use Rattle.crash_model.specs.declared.steps.Step.{Step};

/// A script is read in at most one way, or refused in at most one way, and not both.
pub fn a_script_has_at_most_one_reading()
    ensures steps { (bytes : List ℕ) (base traced others more : List Step) → IsScript bytes base traced
        → IsScript bytes others more → (base ≡ others) × (traced ≡ more) }
    ensures refusal { (bytes : List ℕ) (fault other : ScriptFault) → IsScriptRefusal bytes fault
        → IsScriptRefusal bytes other → fault ≡ other }
    ensures either { (bytes : List ℕ) (base traced : List Step) (fault : ScriptFault) → IsScript bytes base traced
        → IsScriptRefusal bytes fault → ⊥ }
{}

/// The steps that were traced have at most one graph.
pub fn a_trace_has_at_most_one_graph()
    ensures { (rules : List Rule) (base : Disk) (last : Tracing) (patches others : List Patch)
        → IsGraphOf rules base last patches → IsGraphOf rules base last others → patches ≡ others }
{}

/// Steps demand at most one thing of an image.
pub fn steps_demand_one_thing()
    ensures { (asked : Asked) (base : Disk) (steps : List Step) (demands other : Demands)
        → AreDemands asked base steps demands → AreDemands asked base steps other → demands ≡ other }
{}
