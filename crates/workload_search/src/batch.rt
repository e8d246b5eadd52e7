//! What is found of sequences that are tried one after another.
ghost use Rattle.std.specs.Prelude.{◌++◌, List, ℕ, Bool, [], IfOk, OnOk};
ghost use Rattle.question_model.specs.Workloads.{Search};
ghost use Rattle.workload_search.specs.Tries.{IsBatch, HaveRoomFor};

use crate::tally::SearchTally;
use question_model::Places;
use std::alloc::{AllocError, Allocator};

/// What is counted of the sequences, and those of them that pass, in order, if they will be made longer.
#[derive(Drop)]
pub(crate) struct Batch<A: Allocator> {
    pub tally: SearchTally<A>,
    pub passing: Vec<Places, A>,
}

impl<A: Allocator + Copy> Batch<A> {
    /// No sequence. It fails only when out of memory.
    pub(crate) fn new(alloc: A) -> Result<Self, AllocError>
        ensures { IfOk result (λ batch. (s : Search) (keeps : Bool) → IsBatch s keeps [] batch) }
    {
        Ok(Batch {
            tally: SearchTally::new(alloc)?,
            passing: Vec::new(alloc),
        })
    }

    /// Puts later sequences after these. It fails only when out of memory.
    pub(crate) fn join(&mut self, mut later: Batch<A>) -> Result<(), AllocError>
        requires { HaveRoomFor self.old later }
        ensures { (s : Search) (keeps : Bool) (sequences others : List (List ℕ)) → IsBatch s keeps sequences self.old
            → IsBatch s keeps others later → OnOk result (IsBatch s keeps (sequences ++ others) self.new) }
    {
        self.tally.join(&later.tally);
        self.passing.append(&mut later.passing)?;
        Ok(())
    }
}
