//! Sequences that are tried one after another.
ghost use Rattle.std.specs.Prelude.{◌≡◌, ◌*◌, ◌<◌, ◌^◌, ◌++◌, ◌∷◌, List, ℕ, [], length, map, IfOk, OnOk};
ghost use Rattle.std.specs.List.{All};
ghost use Rattle.workload_search.specs.Tallies.{is_passing};
ghost use Rattle.workload_search.specs.Tries.{IsBatch, BatchHasRoom, IsExtendable, extensions_of, extensions};
ghost use Rattle.workload_search.specs.Tries.{items_of};

use crate::batch::Batch;
use crate::judge::Judge;
use crate::places::extended;
use question_model::{Places, Verdict};
use std::alloc::{AllocError, Allocator};
use thread_jobs::Gate;

/// A judge of sequences over a pool of this number of operations. Those that pass are kept if they will be made longer.
#[derive(Drop)]
pub(crate) struct Trials<'a, J: Judge, A: Allocator + Copy, G: Gate> {
    pub judge: &'a J,
    pub alloc: A,
    pub gate: &'a G,
    pub pool: usize,
    pub keeps: bool,
    ghost whole: { pool ≡ length (J.search judge.now).pool },
}

impl<J: Judge, A: Allocator + Copy, G: Gate> Trials<'_, J, A, G> {
    /// Tries each beginning, in order, followed by each operation of the pool.
    pub(crate) fn try_beginnings(&self, beginnings: &[Places]) -> Result<Batch<A>, AllocError>
        requires room { length beginnings.now * self.now.pool < 2 ^ 128 }
        requires short { All (IsExtendable (J.search self.now.judge.now) self.now.pool) beginnings.now }
        ensures { IfOk result (IsBatch (J.search self.now.judge.now) self.now.keeps
            (extensions self.now.pool (map items_of beginnings.now))) }
    {
        let mut batch = Batch::new(self.alloc)?;
        for beginning in beginnings {
            self.try_places(&mut batch, beginning)?;
        }
        Ok(batch)
    }

    /// Tries a beginning followed by each operation of the pool, in order. The judge begins once for all of them.
    fn try_places(&self, batch: &mut Batch<A>, beginning: &Places) -> Result<(), AllocError>
        requires room { BatchHasRoom (J.search self.now.judge.now) self.now.keeps self.now.pool batch.old }
        requires short { IsExtendable (J.search self.now.judge.now) self.now.pool beginning.now }
        ensures { (sequences : List (List ℕ))
            → IsBatch (J.search self.now.judge.now) self.now.keeps sequences batch.old
            → OnOk result (IsBatch (J.search self.now.judge.now) self.now.keeps
            (sequences ++ extensions_of self.now.pool beginning.now.items) batch.new) }
    {
        let prefix = self.judge.begin(beginning)?;
        for place in 0..self.pool {
            self.try_one(batch, beginning, &prefix, place)?;
        }
        Ok(())
    }

    /// Tries a beginning, of which this was made, followed by one operation.
    fn try_one(
        &self,
        batch: &mut Batch<A>,
        beginning: &Places,
        prefix: &J::Prefix,
        place: usize,
    ) -> Result<(), AllocError>
        requires room { BatchHasRoom (J.search self.now.judge.now) self.now.keeps 1 batch.old }
        requires short { length beginning.now.items < 8 }
        requires prefix { J.is_prefix self.now.judge.now beginning.now.items prefix.now }
        requires among { place < self.now.pool }
        ensures { (sequences : List (List ℕ))
            → IsBatch (J.search self.now.judge.now) self.now.keeps sequences batch.old
            → OnOk result (IsBatch (J.search self.now.judge.now) self.now.keeps
            (sequences ++ (beginning.now.items ++ place ∷ []) ∷ []) batch.new) }
    {
        let verdict = self.judge.judge_longer(prefix, place)?;
        self.note(&verdict);
        let places = extended(beginning, place);
        batch.tally.add(&places, &verdict);
        if self.keeps && passes(&verdict) {
            batch.passing.push(places)?;
        }
        Ok(())
    }

    /// Reports a workload to the gate, and whether it fails.
    fn note(&self, verdict: &Verdict) {
        match verdict {
            Verdict::Refused(_) => {}
            Verdict::Passes => self.gate.visited(1, 0),
            Verdict::Fails(_) => self.gate.visited(1, 1),
        }
    }
}

/// Whether the operations are accepted and no crash leaves a fault.
fn passes(verdict: &Verdict) -> bool
    ensures { result ≡ is_passing verdict.now }
{
    matches!(verdict, Verdict::Passes)
}
