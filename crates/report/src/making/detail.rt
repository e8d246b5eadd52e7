//! What is reported of one set.

ghost use Rattle.std.specs.Prelude.{◌≡◌, ◌<◌, IfOk, map, option_map};
ghost use Rattle.patch_sets.specs.Writes.{AreRuns};
ghost use Rattle.crash_model.specs.Checker.{faults_under};
ghost use Rattle.crash_model.specs.Disk.{block_of};
ghost use Rattle.crash_model.specs.Patches.{homes_of, image_of};
ghost use Rattle.report.specs.Explaining.{changed_blocks, replay_of, shown_at, shown_for, shows_of};
ghost use Rattle.report.specs.Made.{crash_of, found_of};

use crate::crash::Crash;
use crate::found::FoundFault;
use crate::replayed::ReplayedBlock;
use crash_image::Replayer;
use crash_model::fault::Fault;
use crash_model::promises::Shows;
use disk_image::{Demands, Image, Promise};
use fs_check::{broken_promise, list_faults_under};
use patch_graph::Graph;
use path_lookup::paths_show;
use std::alloc::{AllocError, Allocator, Global};
use std::marker::Model;

/// What is reported of a set: whether it is explained what replay changes and what the paths of broken promises show,
/// and what is demanded of its image after replay.
#[derive(Drop)]
pub struct Detail<'a, A: Allocator + Copy> {
    pub explain: bool,
    pub demands: &'a Demands<A>,
}

impl<'a, A: Allocator + Copy> Model for Detail<'a, A> {
    ghost use Rattle.report.specs.Made.{Detail as Reported};

    ghost Value = { Reported };

    ghost view = { λ d. record { explain = d.explain; demands = d.demands.now } };
}

impl<'a, A: Allocator + Copy> Detail<'a, A> {
    /// The crash that leaves the set that images are at. It fails only when out of memory.
    pub(crate) fn crash(
        &self,
        heap: Global,
        images: &Replayer<'_, A>,
        graph: &Graph<A>,
        set: u128,
    ) -> Result<Crash, AllocError>
        requires at { images.now.set ≡ set }
        requires same { images.now.patches ≡ graph.now }
        ensures set { IfOk result (λ crash. crash.set ≡ set) }
        ensures runs { IfOk result (λ crash. AreRuns (homes_of graph.now) crash.set crash.writes) }
        ensures whole { IfOk result (λ crash. crash ≡ crash_of self.now images.now.base graph.now set crash.writes) }
    {
        let writes = graph.writes_to(set)?;
        Ok(Crash {
            set,
            writes: Vec::from_slice(heap, writes.as_slice())?,
            replay: changed_by_replay(heap, images, self.explain)?,
            explained: self.explain,
            shows: self.explain && self.demands.has_promises(),
        })
    }

    /// What is reported of each fault of a set, whose image after replay this is. It fails only when out of memory.
    pub(crate) fn all_found(
        &self,
        heap: Global,
        alloc: A,
        image: &Image<A>,
        set: u128,
    ) -> Result<Vec<FoundFault>, AllocError>
        ensures { IfOk result (λ found. found.items
            ≡ map (found_of self.now set image.now) (faults_under self.now.demands set image.now)) }
    {
        let mut faults = Vec::new(alloc);
        list_faults_under(&mut faults, image, set, self.demands)?;
        let found = self.each_found(heap, image, set, faults.as_slice())?;
        Ok(found)
    }

    /// What is reported of each of these faults of a set, whose image after replay this is. It fails only when out of
    /// memory.
    fn each_found(
        &self,
        heap: Global,
        image: &Image<A>,
        set: u128,
        faults: &[Fault],
    ) -> Result<Vec<FoundFault>, AllocError>
        ensures { IfOk result (λ found. found.items ≡ map (found_of self.now set image.now) faults.now) }
    {
        let mut found = Vec::with_capacity(heap, faults.len())?;
        for fault in faults {
            found.push(self.found(image, set, *fault))?;
        }
        Ok(found)
    }

    /// What is reported of a fault of a set, whose image after replay this is.
    pub(crate) fn found(&self, image: &Image<A>, set: u128, fault: Fault) -> FoundFault
        ensures { result ≡ found_of self.now set image.now fault }
    {
        FoundFault {
            fault,
            shows: self.shows(image, set, fault),
        }
    }

    /// What is shown where a fault of a set is that a promise is broken, if that is explained.
    fn shows(&self, image: &Image<A>, set: u128, fault: Fault) -> Option<Shows>
        ensures { result ≡ shows_of self.now.explain self.now.demands set image.now fault }
    {
        if !self.explain {
            return None;
        }
        shown_for(image, set, self.demands.promises(), fault)
    }
}

/// What the paths show of the promise that a fault says is broken, if it says so.
fn shown_for<A: Allocator + Copy>(
    image: &Image<A>,
    set: u128,
    promises: &[Promise<A>],
    fault: Fault,
) -> Option<Shows>
    ensures { result ≡ option_map (λ shows. record { items = shows }) (shown_for promises.now set image.now fault) }
{
    match fault {
        Fault::BrokenPromise { line } => shown_at(image, set, promises, line),
        _ => None,
    }
}

/// What the paths show of the first promise of a line that the set breaks, if there is one.
fn shown_at<A: Allocator + Copy>(
    image: &Image<A>,
    set: u128,
    promises: &[Promise<A>],
    line: usize,
) -> Option<Shows>
    ensures { result ≡ option_map (λ shows. record { items = shows }) (shown_at promises.now set image.now line) }
{
    match broken_promise(image, set, promises, line) {
        Some(promise) => Some(paths_show(image, &promise.paths)),
        None => None,
    }
}

/// The blocks that replay changes in the image of a set, ascending, if that is explained. It fails only when out of
/// memory.
fn changed_by_replay<A: Allocator + Copy>(
    heap: Global,
    images: &Replayer<'_, A>,
    explain: bool,
) -> Result<Vec<ReplayedBlock>, AllocError>
    ensures { IfOk result (λ replay. replay.items
        ≡ replay_of explain (image_of images.now.base images.now.patches images.now.set)) }
{
    if !explain {
        return Ok(Vec::new(heap));
    }
    let changed = changed_blocks(heap, images.image_before(), images.image())?;
    Ok(changed)
}

/// The blocks in which an image differs from the one before, ascending, with their bytes after it.
#[tactic(auto, using(crash_model::proofs::EachBelow::each_below_steps, std::proofs::lemmas::Grind::common_steps))]
fn changed_blocks<A: Allocator + Copy>(
    heap: Global,
    before: &Image<A>,
    after: &Image<A>,
) -> Result<Vec<ReplayedBlock>, AllocError>
    requires { after.now.blocks ≡ before.now.blocks }
    ensures { IfOk result (λ changed. changed.items ≡ changed_blocks before.now after.now) }
{
    let mut changed = Vec::new(heap);
    for block in 0..before.blocks() as u8 {
        if before.block(usize::from(block)) != after.block(usize::from(block)) {
            changed.push(replayed_block(after, block))?;
        }
    }
    Ok(changed)
}

/// A block with its bytes.
fn replayed_block<A: Allocator + Copy>(image: &Image<A>, block: u8) -> ReplayedBlock
    requires { block < image.now.blocks }
    ensures { result ≡ record { block = block; bytes = block_of image.now block } }
{
    let mut bytes = [0; 128];
    bytes.copy_from_slice(image.block(usize::from(block)));
    ReplayedBlock { block, bytes }
}
