//! The sequences of one level, shared among workers.
ghost use Rattle.std.specs.Prelude.{◌≡◌, ◌*◌, ◌/◌, ◌%◌, ◌+◌, ◌<◌, ◌^◌, length, map, min, vec_len, IfOk};
ghost use Rattle.std.specs.List.{All};
ghost use Rattle.workload_search.specs.Tries.{IsBatch, IsExtendable, ArePartsOf, extensions, items_of};

use crate::batch::Batch;
use crate::judge::Judge;
use crate::trials::Trials;
use question_model::Places;
use std::alloc::{AllocError, Allocator};
use std::thread::Threads;
use thread_jobs::{Gate, PartJob, do_parts};

/// About how many parts of a level there are for each worker: enough that all are busy to the end.
const PARTS: usize = 64;

impl<J, A, G> Trials<'_, J, A, G>
where
    J: Judge + Sync,
    J::Prefix: Send,
    A: Allocator + Copy + Send + Sync,
    G: Gate + Sync,
{
    /// Tries each beginning, in order, followed by each operation of the pool. Workers draw small parts of the
    /// beginnings, one after another, and what they find is joined in order. One worker starts no thread.
    pub(crate) fn try_level<R: Threads + Sync>(
        &self,
        rt: &R,
        beginnings: &[Places],
        workers: usize,
    ) -> Result<Batch<A>, AllocError>
        requires some { 0 < workers }
        requires room { length beginnings.now * self.now.pool < 2 ^ 128 }
        requires short { All (IsExtendable (J.search self.now.judge.now) self.now.pool) beginnings.now }
        ensures { IfOk result (IsBatch (J.search self.now.judge.now) self.now.keeps
            (extensions self.now.pool (map items_of beginnings.now))) }
    {
        if workers == 1 {
            return self.try_beginnings(beginnings);
        }
        let size = beginnings.len() / PARTS / workers + 1;
        let parts = self.try_parts(rt, beginnings, size, workers)?;
        self.join_parts(beginnings, size, parts)
    }

    /// Tries each part of this number of beginnings, side by side. No more workers begin than there are parts.
    fn try_parts<R: Threads + Sync>(
        &self,
        rt: &R,
        beginnings: &[Places],
        size: usize,
        workers: usize,
    ) -> Result<Vec<Result<Batch<A>, AllocError>, A>, AllocError>
        requires size { 0 < size }
        requires room { length beginnings.now * self.now.pool < 2 ^ 128 }
        requires short { All (IsExtendable (J.search self.now.judge.now) self.now.pool) beginnings.now }
        ensures len { IfOk result (λ parts.
            vec_len parts ≡ length beginnings.now / size + min 1 (length beginnings.now % size)) }
        ensures each { IfOk result (λ parts. ArePartsOf (J.search self.now.judge.now) self.now.keeps self.now.pool
            beginnings.now size parts.items) }
    {
        let parts = beginnings.len().div_ceil(size);
        let level = Level {
            trials: self,
            beginnings,
            size,
        };
        do_parts(rt, self.alloc, &level, parts, workers.min(parts))
    }
}

impl<J: Judge, A: Allocator + Copy, G: Gate> Trials<'_, J, A, G> {
    /// What was found of all parts, joined in order.
    fn join_parts(
        &self,
        beginnings: &[Places],
        size: usize,
        parts: Vec<Result<Batch<A>, AllocError>, A>,
    ) -> Result<Batch<A>, AllocError>
        requires size { 0 < size }
        requires room { length beginnings.now * self.now.pool < 2 ^ 128 }
        requires len { vec_len parts ≡ length beginnings.now / size + min 1 (length beginnings.now % size) }
        requires each { ArePartsOf (J.search self.now.judge.now) self.now.keeps self.now.pool beginnings.now size
            parts.items }
        ensures { IfOk result (IsBatch (J.search self.now.judge.now) self.now.keeps
            (extensions self.now.pool (map items_of beginnings.now))) }
    {
        let mut joined = Batch::new(self.alloc)?;
        for part in parts {
            let part = part?;
            joined.join(part)?;
        }
        Ok(joined)
    }
}

/// The beginnings of a level, in parts of this number of them. The last part may have fewer.
#[derive(Drop)]
struct Level<'a, J: Judge, A: Allocator + Copy, G: Gate> {
    trials: &'a Trials<'a, J, A, G>,
    beginnings: &'a [Places],
    size: usize,
}

impl<'a, J: Judge, A: Allocator + Copy, G: Gate> PartJob for Level<'a, J, A, G> {
    type Part = Result<Batch<A>, AllocError>;

    ghost use Rattle.std.specs.Prelude.{◌*◌, ◌<◌, ◌^◌, length, map, IfOk};
    ghost use Rattle.std.specs.Fork.{slice_chunk};
    ghost use Rattle.std.specs.List.{All};
    ghost use Rattle.workload_search.specs.Tries.{IsBatch, IsExtendable, extensions, items_of};

    ghost may_do = { λ j n. (n * j.size < length j.beginnings.now)
        × (length j.beginnings.now * j.trials.now.pool < 2 ^ 128)
        × All (IsExtendable (J.search j.trials.now.judge.now) j.trials.now.pool) j.beginnings.now };

    ghost is_part = { λ j n part. IfOk part (IsBatch (J.search j.trials.now.judge.now) j.trials.now.keeps
        (extensions j.trials.now.pool (map items_of (slice_chunk j.beginnings.now j.size n)))) };

    fn do_part(&self, at: usize) -> Result<Batch<A>, AllocError> {
        let rest = &self.beginnings[at * self.size..];
        let part = &rest[..self.size.min(rest.len())];
        self.trials.try_beginnings(part)
    }
}
