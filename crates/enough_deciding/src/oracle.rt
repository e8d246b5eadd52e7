//! Whether some of a trace's rules are enough.

ghost use Rattle.std.specs.Prelude.{◌<◌, IfOk};
ghost use Rattle.std.specs.List.{All};
ghost use Rattle.patch_sets.specs.Sets.{AreAllInOrder};
ghost use Rattle.crash_model.specs.Tracing.{Tracing};
ghost use Rattle.question_model.specs.Enough.{rules_in, rules_but, IsMinimalEnough, IsNeeded};
ghost use Rattle.enough_deciding.specs.Rules.{IsFirstBy, IsGraphBy, IsTracingOf};

use chosen_rules::{all_rules, excluding_rules, rules_in};
use disk_image::{Demands, Image};
use enough_rules::{EnoughSets, Oracle, enough_sets};
use fault_deciding::Decider;
use order_modules::graph_by;
use patch_graph::Graph;
use patch_sets::ends::difference;
use question_model::DecidedFault;
use std::alloc::{AllocError, Allocator};
use traced_patches::Traced;

/// The rules of a trace's ordering, some of which may be enough, by what is demanded of the images that a crash leaves.
/// The patches change blocks of the base.
#[derive(Drop)]
pub struct RuleOracle<'a, A: Allocator + Copy> {
    pub alloc: A,
    pub base: &'a Image<A>,
    pub traced: &'a Traced<'a, A>,
    pub demands: &'a Demands<A>,
    ghost fits: { All (λ patch. patch.block < base.now.blocks) traced.now.patches },
}

impl<A: Allocator + Copy> RuleOracle<'_, A> {
    /// The graph of the same patches by all rules but those of a group. It fails only when out of memory.
    pub fn graph_without(&self, group: u128) -> Result<Graph<A>, AllocError>
        ensures graph { IfOk result (IsGraphBy (rules_but self.now.traced.now.rules group) self.now.base.now
            self.now.traced.now) }
        ensures fits { IfOk result (λ graph. All (λ patch. patch.block < self.now.base.now.blocks) graph) }
    {
        let all = all_rules(self.traced.ordering());
        let graph = self.graph_with(difference(all, group))?;
        Ok(graph)
    }

    /// The minimal sets of the rules that are enough, and the minimal groups of which one rule is needed, each in
    /// canonical order. It fails only when out of memory.
    pub fn enough_sets(&self) -> Result<EnoughSets<A>, AllocError>
        ensures enough { IfOk result (λ found. (s : Tracing) → IsTracingOf self.now.traced.now s
            → AreAllInOrder (IsMinimalEnough self.now.demands.now self.now.base.now s self.now.traced.now.rules)
            found.enough.items) }
        ensures needed { IfOk result (λ found. (s : Tracing) → IsTracingOf self.now.traced.now s
            → AreAllInOrder (IsNeeded self.now.demands.now self.now.base.now s self.now.traced.now.rules)
            found.needed.items) }
    {
        let found = enough_sets(self.alloc, self)?;
        Ok(found)
    }

    /// The first fault that a crash can leave under the rules of a set, with the first set that has it, or `None` if
    /// the rules are enough. It fails only when out of memory.
    fn first_fault(&self, set: u128) -> Result<Option<DecidedFault>, AllocError>
        ensures { IfOk result (IsFirstBy self.now.demands.now self.now.base.now self.now.traced.now
            (rules_in self.now.traced.now.rules set)) }
    {
        let graph = self.graph_with(set)?;
        let decider = Decider {
            alloc: self.alloc,
            base: self.base,
            graph: &graph,
            demands: self.demands,
        };
        let found = decider.first_fault()?;
        Ok(found)
    }

    /// The graph of the same patches by the rules of a set. It fails only when out of memory.
    fn graph_with(&self, set: u128) -> Result<Graph<A>, AllocError>
        ensures graph { IfOk result (IsGraphBy (rules_in self.now.traced.now.rules set) self.now.base.now
            self.now.traced.now) }
        ensures fits { IfOk result (λ graph. All (λ patch. patch.block < self.now.base.now.blocks) graph) }
    {
        let ordering = rules_in(self.traced.ordering(), set);
        let graph = graph_by(self.traced, self.alloc, self.base, &ordering)?;
        Ok(graph)
    }
}

impl<A: Allocator + Copy> Oracle for RuleOracle<'_, A> {
    ghost use Rattle.chosen_rules.specs.Sublists.{EnoughOf, all_of};
    ghost use Rattle.enough_deciding.specs.Rules.{tracing_of};

    ghost all = { λ o. all_of o.traced.now.rules };

    ghost is_enough = { λ o.
        EnoughOf o.demands.now o.base.now (tracing_of o.base.now o.traced.now) o.traced.now.rules };

    fn blocking(&self, set: u128) -> Result<Option<u128>, AllocError> {
        match self.first_fault(set)? {
            None => Ok(None),
            Some(decided) => Ok(Some(excluding_rules(self.traced, decided.first))),
        }
    }
}
