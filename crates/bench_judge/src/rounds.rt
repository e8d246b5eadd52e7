//! Judging, and the time that it takes.

ghost use Rattle.std.specs.Prelude.{◌≡◌, ◌<◌, IfOk};
ghost use Rattle.std.specs.List.{All};
ghost use Rattle.patch_sets.specs.Closed.{IsClosed};
ghost use Rattle.crash_model.specs.Patches.{deps_of, AreUndo};
ghost use Rattle.crash_image.specs.Moves.{IsGood};
ghost use Rattle.bench_judge.specs.Counted.{IsCountOfOthers};

use crash_image::{PatchSpace, Scratch};
use disk_image::{Demands, Image};
use patch_graph::Graph;
use state_space::Space;
use std::alloc::{AllocError, Global};
use std::test::Fail;
use std::time::Instant;

/// How often all sets are judged.
const ROUNDS: u32 = 100;

/// Judges the sets in rounds, and prints how many they are, how many fail, and the rate.
pub fn judge_rounds(
    rt: &HostRuntime,
    base: &Image<Global>,
    graph: &Graph<Global>,
    sets: &[u128],
) -> Result<(), Fail>
    requires fits { All (λ patch. patch.block < base.now.blocks) graph.now }
    requires undo { AreUndo base.now graph.now }
    requires closed { All (IsClosed (deps_of graph.now)) sets.now }
{
    let start = Instant::now(rt)?;
    let failing = count_in_rounds(base, graph, sets)?;
    let took = start.elapsed(rt)?.as_micros();
    report(rt, sets.len(), failing, took)
}

/// How many of the sets are not good, by one scratch, which judges them again in each round.
fn count_in_rounds(
    base: &Image<Global>,
    graph: &Graph<Global>,
    sets: &[u128],
) -> Result<usize, AllocError>
    requires fits { All (λ patch. patch.block < base.now.blocks) graph.now }
    requires undo { AreUndo base.now graph.now }
    requires closed { All (IsClosed (deps_of graph.now)) sets.now }
{
    let demands = Demands::none();
    let space = PatchSpace::new(base, graph, &demands);
    let mut scratch = space.scratch()?;
    let mut failing = 0;
    for _ in 0..ROUNDS {
        failing = count_failing(&space, &mut scratch, sets)?;
    }
    Ok(failing)
}

/// Prints how many sets there are and how many of them fail, and how many were judged a second.
fn report(rt: &HostRuntime, sets: usize, failing: usize, micros: u128) -> Result<(), Fail> {
    let judged = sets as u128 * u128::from(ROUNDS);
    println!(rt; "{sets} sets, {failing} failing")?;
    eprintln!(rt; "{} judged a second", judged * 1_000_000 / micros.max(1))?;
    Ok(())
}

/// How many of the sets are not good.
fn count_failing<'a>(
    space: &PatchSpace<'a, Global>,
    scratch: &mut Scratch<'a, Global>,
    sets: &[u128],
) -> Result<usize, AllocError>
    requires own { scratch.old ≡ space.now }
    requires closed { All (IsClosed (deps_of space.now.patches)) sets.now }
    ensures own { scratch.new ≡ space.now }
    ensures counted { IfOk result (IsCountOfOthers (IsGood space.now) sets.now) }
{
    let mut failing = 0;
    for set in sets {
        if !space.judge(scratch, *set)? {
            failing += 1;
        }
    }
    Ok(failing)
}
