//! Whether some of a script's lines that wait are enough.

ghost use Rattle.std.specs.Prelude.{◌≡◌, ◌<◌, ◌≤◌, ℕ, length, IfOk};
ghost use Rattle.std.specs.List.{All};
ghost use Rattle.patch_sets.specs.Ends.{IsDifference};
ghost use Rattle.patch_sets.specs.Sets.{AreAllInOrder, IsSubset};
ghost use Rattle.crash_model.specs.Tracing.{Tracing};
ghost use Rattle.question_model.specs.EnoughLines.{all_waits, IsMinimalLines, IsNeededLines};
ghost use Rattle.enough_rules.specs.Asked.{IsFound, IsInEach};
ghost use Rattle.enough_deciding.specs.Lines.{AreEnoughWaiting, IsScriptWaiting, HasWaits};

use crate::waiting::demands_waiting;
use chosen_rules::excluding_lines;
use disk_image::{Demands, Image};
use enough_rules::{EnoughSets, Oracle, enough_sets};
use fault_deciding::Decider;
use order_modules::graph_waiting;
use patch_graph::Graph;
use patch_sets::ends::difference;
use patch_sets::set::{has, with};
use question_model::MAX_SYNCS;
use std::alloc::{AllocError, Allocator};
use traced_patches::Traced;

/// The lines of a traced script that wait, at most 64, some of which may be enough, by what is demanded of the images
/// that a crash leaves. The patches change blocks of the base.
#[derive(Drop)]
pub struct LineOracle<'a, A: Allocator + Copy> {
    pub alloc: A,
    pub base: &'a Image<A>,
    pub traced: &'a Traced<'a, A>,
    pub demands: &'a Demands<A>,
    ghost fits: { All (λ patch. patch.block < base.now.blocks) traced.now.patches },
    ghost few: { length traced.now.waits ≤ 64 },
}

/// The graph of a script's patches, and what it demands, if of its lines that wait only some do.
#[derive(Drop)]
pub struct Waiting<A: Allocator + Copy> {
    pub graph: Graph<A>,
    pub demands: Demands<A>,
}

impl<A: Allocator + Copy> LineOracle<'_, A> {
    /// The script if all lines that wait do but those of a group. It fails only when out of memory.
    pub fn without(&self, group: u128) -> Result<Waiting<A>, AllocError>
        ensures { IfOk result (λ script. (rest : ℕ) → IsDifference (all_waits self.now.traced.now.waits) group rest
            → IsScriptWaiting self.now.demands.now self.now.base.now self.now.traced.now rest script) }
    {
        let script = self.waiting(difference(self.all(), group))?;
        Ok(script)
    }

    /// The minimal sets of the lines that are enough, and the minimal groups of which one line is needed, each in
    /// canonical order. It fails only when out of memory.
    pub fn enough_sets(&self) -> Result<EnoughSets<A>, AllocError>
        ensures enough { IfOk result (λ found. (s : Tracing) → HasWaits self.now.traced.now s
            → AreAllInOrder (IsMinimalLines self.now.demands.now self.now.base.now self.now.traced.now.rules s)
            found.enough.items) }
        ensures needed { IfOk result (λ found. (s : Tracing) → HasWaits self.now.traced.now s
            → AreAllInOrder (IsNeededLines self.now.demands.now self.now.base.now self.now.traced.now.rules s)
            found.needed.items) }
    {
        let found = enough_sets(self.alloc, self)?;
        Ok(found)
    }

    /// The set of all lines that wait.
    fn all(&self) -> u128
        ensures { result ≡ all_waits self.now.traced.now.waits }
    {
        (1 << self.traced.waits().len()) - 1
    }

    /// The script if only the lines of a set wait. It fails only when out of memory.
    fn waiting(&self, chosen: u128) -> Result<Waiting<A>, AllocError>
        ensures { IfOk result (IsScriptWaiting self.now.demands.now self.now.base.now self.now.traced.now chosen) }
    {
        let waits = self.traced.waits();
        Ok(Waiting {
            graph: graph_waiting(self.traced, self.alloc, self.base, chosen)?,
            demands: demands_waiting(self.alloc, self.demands, waits, chosen)?,
        })
    }

    /// A group of lines of which the set has none and each set that is enough has one, or `None` if the set is enough.
    /// It fails only when out of memory.
    fn excluding(&self, set: u128) -> Result<Option<u128>, AllocError>
        requires { IsSubset set (all_waits self.now.traced.now.waits) }
        ensures { IfOk result (IsFound (all_waits self.now.traced.now.waits)
            (AreEnoughWaiting self.now.demands.now self.now.base.now self.now.traced.now) set) }
    {
        let script = self.waiting(set)?;
        let decider = Decider {
            alloc: self.alloc,
            base: self.base,
            graph: &script.graph,
            demands: &script.demands,
        };
        match decider.first_fault()? {
            None => Ok(None),
            Some(found) => Ok(Some(excluding_lines(self.traced, &found))),
        }
    }

    /// A part of a group of which each set that is enough has a line, as the group has. Of each line it is asked
    /// whether all lines without the group are enough together with it: if not, then the part does without the line.
    /// It fails only when out of memory.
    fn smaller(&self, group: u128) -> Result<u128, AllocError>
        requires { IsInEach (all_waits self.now.traced.now.waits)
            (AreEnoughWaiting self.now.demands.now self.now.base.now self.now.traced.now) group }
        ensures each { IfOk result (IsInEach (all_waits self.now.traced.now.waits)
            (AreEnoughWaiting self.now.demands.now self.now.base.now self.now.traced.now)) }
        ensures part { IfOk result (λ part. IsSubset part group) }
    {
        let mut part = group;
        for line in 0..MAX_SYNCS {
            if has(part, line) {
                let rest = with(difference(self.all(), part), line);
                if let Some(others) = self.excluding(rest)? {
                    part = others;
                }
            }
        }
        Ok(part)
    }
}

impl<A: Allocator + Copy> Oracle for LineOracle<'_, A> {
    ghost use Rattle.question_model.specs.EnoughLines.{all_waits};
    ghost use Rattle.enough_deciding.specs.Lines.{AreEnoughWaiting};

    ghost all = { λ o. all_waits o.traced.now.waits };

    ghost is_enough = { λ o. AreEnoughWaiting o.demands.now o.base.now o.traced.now };

    fn blocking(&self, set: u128) -> Result<Option<u128>, AllocError> {
        match self.excluding(set)? {
            None => Ok(None),
            Some(group) => Ok(Some(self.smaller(group)?)),
        }
    }
}
