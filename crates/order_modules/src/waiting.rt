//! The steps that wait, and what a trace says of the place that it has come to.

ghost use Rattle.std.specs.Prelude.{◌≡◌, Ok, Err, IfOk, IfErr, OnOk, is_some, map};
ghost use Rattle.crash_model.specs.Patches.{places_of};
ghost use Rattle.crash_model.specs.Trace.{step as step_of};
ghost use Rattle.crash_model.specs.Tracing.{Tracing};
ghost use Rattle.crash_model.specs.WaitSteps.{target_found, when_found, with_wait};
ghost use Rattle.crash_model.specs.declared.steps.Act.TheVariants.{Fsync, Spare, Sync};
ghost use Rattle.crash_model.specs.declared.steps.Target.TheVariants.{At};
ghost use Rattle.order_modules.specs.Tracer.{Moves, RefusesAs};

use crate::tracer::Tracer;
use crash_model::names::Path;
use crash_model::refusals::TraceFault;
use crash_model::steps::{Step, Target};
use disk_image::Image;
use inode_fs::find;
use patch_graph::Graph;
use path_lookup::ranges_of;
use std::alloc::{AllocError, Allocator};
use traced_patches::Wait;

/// Finds a path on a disk, for a step of this line; refused as a walk to it is, and where its last name is absent.
fn find_path<A: Allocator + Copy>(
    disk: &Image<A>,
    line: usize,
    path: &Path,
) -> Result<(), TraceFault>
    ensures found { IfOk result (λ _. (s : Tracing)
        → when_found line (target_found disk.now (At path.now)) s ≡ Ok s) }
    ensures refused { IfErr result (λ fault. (s : Tracing)
        → when_found line (target_found disk.now (At path.now)) s ≡ Err fault) }
{
    match find(disk, path) {
        Ok(_) => Ok(()),
        Err(fault) => Err(fault.at_line(line)),
    }
}

/// Finds a target, which may be the root directory.
fn find_target<A: Allocator + Copy>(
    disk: &Image<A>,
    line: usize,
    target: &Target,
) -> Result<(), TraceFault>
    ensures found { IfOk result (λ _. (s : Tracing)
        → when_found line (target_found disk.now target.now) s ≡ Ok s) }
    ensures refused { IfErr result (λ fault. (s : Tracing)
        → when_found line (target_found disk.now target.now) s ≡ Err fault) }
{
    match target {
        Target::Root => Ok(()),
        Target::At(path) => find_path(disk, line, path),
    }
}

impl<'a, A: Allocator + Copy> Tracer<'a, A> {
    /// Makes later patches wait for what an fsync forces. The path of its target has to be there.
    pub(crate) fn wait_for(&mut self, step: &'a Step, target: &Target) -> Result<(), TraceFault>
        requires { step.now.act ≡ Fsync target.now }
        ensures ok { OnOk result (Moves self.old self.new
            (step_of self.old.log.kind self.old.tracing step.now.line step.now.act)) }
        ensures refused { RefusesAs result
            (step_of self.old.log.kind self.old.tracing step.now.line step.now.act) }
    {
        find_target(&self.disk, step.line, target)?;
        let ranges = ranges_of(&self.disk, target);
        let ids = self.log.forced_by_fsync(ranges.as_slice());
        self.wait(step, ids)?;
        Ok(())
    }

    /// Makes later patches wait for what a sync forces. It fails only when out of memory.
    pub(crate) fn wait_for_all(&mut self, step: &'a Step) -> Result<(), AllocError>
        requires { step.now.act ≡ Sync }
        ensures { OnOk result (Moves self.old self.new
            (step_of self.old.log.kind self.old.tracing step.now.line step.now.act)) }
    {
        let ids = self.log.forced_by_sync();
        self.wait(step, ids)
    }

    /// Makes later patches wait for these ids. It fails only when out of memory.
    fn wait(&mut self, step: &'a Step, ids: u128) -> Result<(), AllocError>
        ensures { OnOk result (Moves self.old self.new
            (Ok (with_wait step.now.line step.now.act ids self.old.tracing))) }
    {
        self.waits.push(Wait { step, ids })?;
        self.forced |= ids;
        Ok(())
    }

    /// Whether a path may stand in for another. It has to be there, unless it stands in for itself.
    pub(crate) fn stand_in(&self, line: usize, path: &Path, other: &Path) -> Result<(), TraceFault>
        ensures ok { IfOk result (λ _. step_of self.now.log.kind self.now.tracing line (Spare path.now other.now)
            ≡ Ok self.now.tracing) }
        ensures refused { RefusesAs result
            (step_of self.now.log.kind self.now.tracing line (Spare path.now other.now)) }
    {
        if path.is_same(other) {
            return Ok(());
        }
        find_path(&self.disk, line, other)
    }

    /// The disk after the operations so far, with no journal between.
    pub fn disk(&self) -> &Image<A>
        ensures { result.now ≡ self.now.tracing.disk }
    {
        &self.disk
    }

    /// The patches so far.
    pub fn graph(&self) -> &Graph<A>
        ensures patches { result.now ≡ self.now.log.patches }
        ensures places { places_of result.now ≡ map (λ e. e.place) self.now.tracing.emitted }
    {
        self.log.graph()
    }

    /// The ids that lines so far wait for, as a set.
    pub fn forced(&self) -> u128
        ensures { result ≡ self.now.tracing.forced }
    {
        self.forced
    }

    /// Whether a group is open.
    pub fn is_in_group(&self) -> bool
        ensures { result ≡ is_some self.now.tracing.current }
    {
        self.current.is_some()
    }
}
