//! The sets that a crash can leave, as a space to explore.

ghost use Rattle.std.specs.Prelude.{◌≡◌, ◌<◌, ◌↔◌, IsTrue, IsOk, IfOk};
ghost use Rattle.std.specs.List.{All};
ghost use Rattle.patch_sets.specs.Closed.{IsClosed};
ghost use Rattle.crash_model.specs.Patches.{deps_of, AreUndo};
ghost use Rattle.crash_image.specs.Moves.{IsGood};

use crate::replayer::Replayer;
use disk_image::{Demands, Image};
use fs_check::is_clean_under;
use patch_graph::Graph;
use state_space::Space;
use std::alloc::{AllocError, Allocator};
use std::marker::Model;

/// The sets of a graph that a crash can leave on a base. Each leads to the sets with one ready patch more, and it is
/// good if its image is clean after replay, by what is demanded of it.
///
/// Contracts see the base, the patches and the demands.
#[derive(Drop)]
pub struct PatchSpace<'a, A: Allocator + Copy> {
    base: &'a Image<A>,
    pub(crate) graph: &'a Graph<A>,
    demands: &'a Demands<A>,
}

impl<'a, A: Allocator + Copy> Model for PatchSpace<'a, A> {
    ghost use Rattle.crash_image.specs.Moves.{Crashes, AreOver};

    ghost Value = { Crashes };

    ghost view = { λ s. record { base = s.base.now; patches = s.graph.now; demands = s.demands.now } };

    ghost invariant = { λ s. AreOver s.base.now s.graph.now };
}

/// What sets are judged in: the image after replay of the set that was judged last.
///
/// Contracts see its base, patches and demands.
#[derive(Drop)]
pub struct Scratch<'a, A: Allocator + Copy> {
    replayer: Replayer<'a, A>,
    demands: &'a Demands<A>,
}

impl<'a, A: Allocator + Copy> Model for Scratch<'a, A> {
    ghost use Rattle.crash_image.specs.Moves.{Crashes};

    ghost Value = { Crashes };

    ghost view = { λ s. record { base = s.replayer.base; patches = s.replayer.patches; demands = s.demands.now } };
}

impl<A: Allocator + Copy> Scratch<'_, A> {
    /// Whether the image of a set that a crash can leave is clean after replay. It takes no memory.
    fn is_good(&mut self, set: u128) -> bool
        requires { IsClosed (deps_of self.old.patches) set }
        ensures good { IsTrue result ↔ IsGood self.old set }
        ensures kept { self.new ≡ self.old }
    {
        self.replayer.move_to(set);
        is_clean_under(self.replayer.image(), set, self.demands)
    }
}

impl<'a, A: Allocator + Copy> PatchSpace<'a, A> {
    /// The space of a graph over a base, with what is demanded of each image after replay.
    ///
    /// The patches change blocks of the base, and their undo data are the bytes that they replace there.
    pub fn new(
        base: &'a Image<A>,
        graph: &'a Graph<A>,
        demands: &'a Demands<A>,
    ) -> PatchSpace<'a, A>
        requires fits { All (λ patch. patch.block < base.now.blocks) graph.now }
        requires undo { AreUndo base.now graph.now }
        ensures { result ≡ record { base = base.now; patches = graph.now; demands = demands.now } }
    {
        // For the proof: what holds of every image and every graph.
        let _blocks = base.blocks();
        let _len = graph.len();
        PatchSpace {
            base,
            graph,
            demands,
        }
    }
}

impl<'a, A: Allocator + Copy> Space for PatchSpace<'a, A> {
    ghost use Rattle.std.specs.Prelude.{◌≡◌, IsTrue, IfOk};
    ghost use Rattle.crash_image.specs.Moves.{IsGood};
    ghost use Rattle.crash_model.specs.Patches.{deps_of};
    ghost use Rattle.patch_graph.specs.Fronts.{Leaves};
    ghost use Rattle.patch_sets.specs.Closed.{IsClosed};
    ghost use Rattle.patch_sets.specs.Ready.{successors_of};
    ghost use Rattle.patch_sets.proofs.Successors.{empty_closed, successor_closed};

    type Scratch = Scratch<'a, A>;

    ghost is_lawful = { λ s. IsClosed (deps_of s.patches) };

    ghost initial = { λ s. 0 };

    ghost successors = { λ s. successors_of (deps_of s.patches) };

    ghost is_good = { IsGood };

    ghost is_own = { λ s scratch. scratch ≡ s };

    fn start(&self) -> u128 {
        0
    }

    fn scratch(&self) -> Result<Scratch<'a, A>, AllocError> {
        Ok(Scratch {
            replayer: Replayer::new(self.base.try_copy()?, self.base.try_copy()?, self.graph),
            demands: self.demands,
        })
    }

    fn degree(&self, word: u128) -> u32 {
        self.graph.degree(word)
    }

    fn next(&self, word: u128, k: u32) -> u128 {
        self.graph.next(word, k)
    }

    ghost is_ahead = { λ s. Leaves (deps_of s.patches) };

    fn ahead(&self, word: u128) -> u128 {
        self.graph.ahead(word)
    }

    fn advance(&self, word: u128, ahead: &mut u128) -> Option<u128> {
        self.graph.advance(word, ahead)
    }

    /// Whether the image of the set is clean after replay. It takes no memory, so its answer is Ok.
    fn judge(&self, scratch: &mut Scratch<'a, A>, word: u128) -> Result<bool, AllocError>
        requires closed { IsClosed (deps_of self.now.patches) word }
        requires own { scratch.old ≡ self.now }
        ensures ok { IsOk result }
        ensures good { IfOk result (λ good. IsTrue good ↔ IsGood self.now word) }
        ensures own { scratch.new ≡ self.now }
    {
        Ok(scratch.is_good(word))
    }

    ghost initial_lawful = { λ s. empty_closed (deps_of s.patches) };

    ghost successor_lawful = { λ s set after closed is. successor_closed (deps_of s.patches) set closed after is };
}
