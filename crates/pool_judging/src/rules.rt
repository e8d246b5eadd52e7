//! A judge of a pool's workloads, asked about the rules of its ordering.

use crate::PoolJudge;
use crate::traces::{blocking_in, fails_in, traced_of};
use question_model::Places;
use std::alloc::{AllocError, Allocator};
use workload_search::RuleJudge;

/// Judges sets of the rules of a pool's ordering by its workloads.
#[derive(Drop)]
pub struct PoolRules<'a, A: Allocator + Copy> {
    pub judge: &'a PoolJudge<'a, A>,
}

impl<A: Allocator + Copy> RuleJudge for PoolRules<'_, A> {
    ghost use Rattle.pool_judging.specs.Judging.{search_by};

    ghost search = { λ r. search_by r.judge.now };

    fn blocking(&self, places: &Places, set: u128) -> Result<Option<u128>, AllocError> {
        let steps = self.judge.workload_at(places)?;
        let traced = traced_of(self.judge, &steps)?;
        let demands = self.judge.demands(&steps)?;
        let found = blocking_in(self.judge, &traced, &demands, set)?;
        Ok(found)
    }

    fn fails_without(&self, places: &Places, group: u128) -> Result<bool, AllocError> {
        let steps = self.judge.workload_at(places)?;
        let traced = traced_of(self.judge, &steps)?;
        let demanded = self.judge.demands(&steps)?;
        let fails = fails_in(self.judge, &traced, &demanded, group)?;
        Ok(fails)
    }
}
