//! A pool's steps, copied from those of a script.

ghost use Rattle.std.specs.Prelude.{◌≡◌, ◌<◌, length, IfOk, IfErr};
ghost use Rattle.std.specs.List.{All};
ghost use Rattle.question_model.specs.Workloads.{IsOfPool, is_place, is_keep, steps_at};
ghost use Rattle.pool_judging.specs.Pools.{IsPoolOf, IsNoPool, IsPlace};

use crash_model::operations::Op;
use crash_model::promises::paths_copy;
use crash_model::steps::{Act, Step, Target};
use question_model::Places;
use std::alloc::{AllocError, Allocator};

/// The steps of a pool: those of which workloads are made, and the promises that each workload begins with.
#[derive(Drop)]
pub struct PoolSteps<A: Allocator> {
    pub places: Vec<Step, A>,
    pub keeps: Vec<Step, A>,
}

/// The steps as a pool, or the line of the first step that no pool has.
///
/// # Errors
///
/// There is not enough memory.
pub fn pool_of<A: Allocator + Copy>(
    alloc: A,
    steps: &[Step],
) -> Result<Result<PoolSteps<A>, usize>, AllocError>
    ensures pool { IfOk result (λ answer. IfOk answer (IsPoolOf steps.now)) }
    ensures none { IfOk result (λ answer. IfErr answer (IsNoPool steps.now)) }
{
    let mut places = Vec::new(alloc);
    let mut keeps = Vec::new(alloc);
    for step in steps {
        if is_place(&step.act) {
            places.push(step_copy(step))?;
        } else if is_keep(&step.act) {
            keeps.push(step_copy(step))?;
        } else {
            return Ok(Err(step.line));
        }
    }
    Ok(Ok(PoolSteps { places, keeps }))
}

/// Whether workloads are made of such acts.
fn is_place(act: &Act) -> bool
    ensures { result ≡ is_place act.now }
{
    match act {
        Act::Do(_) | Act::Sync | Act::Fsync(_) => true,
        Act::Keep(_) | Act::Hold(_) | Act::Spare(_, _) => false,
        Act::Group(_) | Act::End | Act::Depend(_, _) => false,
    }
}

/// Whether each workload begins with such promises.
fn is_keep(act: &Act) -> bool
    ensures { result ≡ is_keep act.now }
{
    match act {
        Act::Keep(_) => true,
        Act::Do(_) | Act::Sync | Act::Fsync(_) | Act::Hold(_) | Act::Spare(_, _) => false,
        Act::Group(_) | Act::End | Act::Depend(_, _) => false,
    }
}

/// Copies of the steps at these places of a pool. It fails only when out of memory.
pub fn steps_at<A: Allocator>(
    alloc: A,
    pool: &[Step],
    places: &Places,
) -> Result<Vec<Step, A>, AllocError>
    requires pool { All IsPlace pool.now }
    requires among { All (λ place. place < length pool.now) places.now.items }
    ensures { IfOk result (λ steps. steps.items ≡ steps_at pool.now places.now.items) }
{
    let mut steps = Vec::with_capacity(alloc, places.len())?;
    for place in places.as_slice() {
        steps.push(step_copy(&pool[*place]))?;
    }
    Ok(steps)
}

/// A copy of a step of a pool.
pub(crate) fn step_copy(step: &Step) -> Step
    requires { IsOfPool step.now }
    ensures { result ≡ step.now }
{
    let act = match &step.act {
        Act::Do(op) => Act::Do(op_copy(op)),
        Act::Sync => Act::Sync,
        Act::Fsync(target) => Act::Fsync(target_copy(target)),
        Act::Keep(paths) => Act::Keep(paths_copy(paths)),
        Act::Hold(_) | Act::Spare(_, _) => unreachable!(),
        Act::Group(_) | Act::End | Act::Depend(_, _) => unreachable!(),
    };
    Step {
        line: step.line,
        act,
    }
}

/// A copy of what an fsync names.
fn target_copy(target: &Target) -> Target
    ensures { result ≡ target.now }
{
    match target {
        Target::Root => Target::Root,
        Target::At(path) => Target::At(path.copy()),
    }
}

/// A copy of an operation.
fn op_copy(op: &Op) -> Op
    ensures { result ≡ op.now }
{
    match op {
        Op::Create(path) => Op::Create(path.copy()),
        Op::Write(path) => Op::Write(path.copy()),
        Op::Link(old, new) => Op::Link(old.copy(), new.copy()),
        Op::Unlink(path) => Op::Unlink(path.copy()),
        Op::Rename(old, new) => Op::Rename(old.copy(), new.copy()),
        Op::Mkdir(path) => Op::Mkdir(path.copy()),
        Op::Rmdir(path) => Op::Rmdir(path.copy()),
        Op::Overwrite(path, slot) => Op::Overwrite(path.copy(), *slot),
        Op::Truncate(path) => Op::Truncate(path.copy()),
        Op::Replace(old, new) => Op::Replace(old.copy(), new.copy()),
    }
}
