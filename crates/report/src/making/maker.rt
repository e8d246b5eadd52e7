//! Crashes made from set to set.

ghost use Rattle.std.specs.Prelude.{◌≡◌, map, IfOk};
ghost use Rattle.std.specs.List.{All};
ghost use Rattle.patch_sets.specs.Closed.{IsClosed};
ghost use Rattle.crash_model.specs.Patches.{deps_of};
ghost use Rattle.report.specs.Makers.{AreOnBase};
ghost use Rattle.report.specs.Made.{AreSections};
ghost use Rattle.report.specs.FirstCrashes.{IsFirstCrash, decided_of};

use crate::crash::{FirstCrash, Section};
use crate::making::detail::Detail;
use crash_image::Replayer;
use disk_image::Image;
use patch_graph::Graph;
use question_model::DecidedFault;
use std::alloc::{AllocError, Allocator, Global};
use std::marker::Model;

/// What the crashes of a report are made in: the images of one set before and after replay, which move from set to set.
///
/// Contracts see the base and the patches, and what is reported of a set.
#[derive(Drop)]
pub struct CrashMaker<'a, A: Allocator + Copy> {
    heap: Global,
    alloc: A,
    graph: &'a Graph<A>,
    images: Replayer<'a, A>,
    detail: Detail<'a, A>,
}

impl<'a, A: Allocator + Copy> Model for CrashMaker<'a, A> {
    ghost use Rattle.std.specs.Prelude.{◌≡◌};
    ghost use Rattle.report.specs.Makers.{Making};

    ghost Value = { Making };

    ghost view = { λ m. record { base = m.images.base; patches = m.images.patches; detail = m.detail } };

    ghost invariant = { λ m. m.images.patches ≡ m.graph.now };
}

impl<'a, A: Allocator + Copy> CrashMaker<'a, A> {
    ghost use Rattle.report.specs.Made.{IsSection};

    /// Makes crashes that leave sets of patches, which change blocks of the base and hold the bytes that they replace
    /// there. Parts of reports are made in `heap`, the rest by `alloc`.
    ///
    /// It fails only when out of memory.
    pub fn new(
        heap: Global,
        alloc: A,
        base: &Image<A>,
        graph: &'a Graph<A>,
        detail: Detail<'a, A>,
    ) -> Result<CrashMaker<'a, A>, AllocError>
        requires { AreOnBase base.now graph.now }
        ensures { IfOk result (λ maker. maker
            ≡ record { base = base.now; patches = graph.now; detail = detail.entry }) }
    {
        Ok(CrashMaker {
            heap,
            alloc,
            graph,
            images: Replayer::new(base.try_copy()?, base.try_copy()?, graph),
            detail,
        })
    }

    /// The section of a set that a crash can leave. It fails only when out of memory.
    pub fn section(&mut self, set: u128) -> Result<Section, AllocError>
        requires { IsClosed (deps_of self.old.patches) set }
        ensures set { IfOk result (λ section. section.crash.set ≡ set) }
        ensures made { IfOk result (IsSection self.old.detail self.old.base self.old.patches) }
        ensures kept { self.new ≡ self.old }
    {
        self.images.move_to(set);
        let crash = self.detail.crash(self.heap, &self.images, self.graph, set)?;
        let faults = self
            .detail
            .all_found(self.heap, self.alloc, self.images.image(), set)?;
        Ok(Section { crash, faults })
    }

    /// A fault, and the crash that leaves the first set that has it. It fails only when out of memory.
    pub fn first(&mut self, decided: DecidedFault) -> Result<FirstCrash, AllocError>
        requires { IsClosed (deps_of self.old.patches) decided.first }
        ensures decided { IfOk result (λ first. decided_of first ≡ decided) }
        ensures made { IfOk result (IsFirstCrash self.old.detail self.old.base self.old.patches) }
        ensures kept { self.new ≡ self.old }
    {
        let set = decided.first;
        self.images.move_to(set);
        let crash = self.detail.crash(self.heap, &self.images, self.graph, set)?;
        let fault = self.detail.found(self.images.image(), set, decided.fault);
        Ok(FirstCrash { fault, crash })
    }
}

/// The sections of sets that a crash can leave, in their order. It fails only when out of memory.
pub fn sections<A: Allocator + Copy>(
    heap: Global,
    maker: &mut CrashMaker<'_, A>,
    sets: &[u128],
) -> Result<Vec<Section>, AllocError>
    requires { All (IsClosed (deps_of maker.old.patches)) sets.now }
    ensures { IfOk result (λ sections.
        AreSections maker.old.detail maker.old.base maker.old.patches sets.now sections.items) }
{
    let mut sections = Vec::with_capacity(heap, sets.len())?;
    for set in sets {
        sections.push(maker.section(*set)?)?;
    }
    Ok(sections)
}

/// The first crash of each of these faults, in their order. It fails only when out of memory.
pub fn first_crashes<A: Allocator + Copy>(
    heap: Global,
    maker: &mut CrashMaker<'_, A>,
    faults: &[DecidedFault],
) -> Result<Vec<FirstCrash>, AllocError>
    requires { All (λ fault. IsClosed (deps_of maker.old.patches) fault.first) faults.now }
    ensures decided { IfOk result (λ crashes. map decided_of crashes.items ≡ faults.now) }
    ensures made { IfOk result (λ crashes.
        All (IsFirstCrash maker.old.detail maker.old.base maker.old.patches) crashes.items) }
{
    let mut crashes = Vec::with_capacity(heap, faults.len())?;
    for fault in faults {
        crashes.push(maker.first(*fault)?)?;
    }
    Ok(crashes)
}
