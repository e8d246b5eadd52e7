//! Expanding what was claimed.
ghost use Rattle.std.specs.Prelude.{◌≡◌, ◌≢◌, ℕ, ◌+◌, ◌≤◌, length, IfOk, OnOk};
ghost use Rattle.std.specs.List.{Contains};
ghost use Rattle.board_rule.specs.Lists.{Has};
ghost use Rattle.seen_board.specs.Clauses.{HasClaim, HasPlace, SeesOn, word_at};
ghost use Rattle.seen_board.specs.Inserts.{IsSuccessor};
ghost use Rattle.seen_board.specs.Ended.{claims_made};
ghost use Rattle.explorers.specs.Ready.{Counts, IsFree, IsReady, Keeps, KnowsOver, PutsIn};
ghost use Rattle.explorers.specs.declared.exploration.Round.TheVariants as round;

use crate::exploration::{Exploration, Round};
use crate::tasks::Task;
use crate::worker::Worker;
use seen_board::{Place, Put};
use state_space::Space;
use std::alloc::{AllocError, Allocator};
use std::sync::Wait;
use thread_jobs::Gate;

impl<S: Space, G: Gate, A: Allocator + Copy> Exploration<'_, S, G, A> {
    /// Expands the entry of a task if the worker's seat has seen its place and can claim it. It makes at most one
    /// claim.
    pub(crate) fn take<R: Wait>(
        &self,
        rt: &R,
        mine: &mut Worker<S::Scratch, A>,
        place: Place,
    ) -> Result<Round, AllocError>
        requires ready { IsReady self.now.board.now self.now.space.now S.is_own mine.old }
        ensures ready { IsReady self.now.board.now self.now.space.now S.is_own mine.new }
        ensures one { claims_made mine.new.seat ≤ claims_made mine.old.seat + 1 }
        ensures share { mine.new.seat.share ≡ mine.old.seat.share }
        ensures over { KnowsOver result mine.new }
    {
        if !mine.seat.has_seen(place) {
            return Ok(Round::Within);
        }
        self.visit(rt, mine, place)
    }

    /// Expands the entry at a place if the worker's seat can claim it, and calls the gate first. So it makes at most
    /// one claim, and expands one entry for it. If memory is refused, it makes the others stop.
    pub(crate) fn visit<R: Wait>(
        &self,
        rt: &R,
        mine: &mut Worker<S::Scratch, A>,
        place: Place,
    ) -> Result<Round, AllocError>
        requires ready { IsReady self.now.board.now self.now.space.now S.is_own mine.old }
        requires seen { HasPlace mine.old.seat.seen place }
        ensures ready { IsReady self.now.board.now self.now.space.now S.is_own mine.new }
        ensures one { claims_made mine.new.seat ≤ claims_made mine.old.seat + 1 }
        ensures share { mine.new.seat.share ≡ mine.old.seat.share }
        ensures sees { SeesOn mine.old.seat.seen mine.new.seat.seen }
        ensures over { KnowsOver result mine.new }
    {
        if !self.board.claim(&mut mine.seat, place) {
            return Ok(Round::Within);
        }
        let word = self.board.at(&mut mine.seat, place);
        self.gate.claimed(mine.number, word);
        match self.expand(rt, mine, place) {
            Ok(round) => Ok(round),
            Err(refused) => {
                self.board.stop(&mut mine.seat);
                Err(refused)
            }
        }
    }

    /// Puts the successors of a claimed entry in, in the order of the list, judges it and settles it.
    ///
    /// The entry counts as expanded, and the worker must have expanded one for each claim before. So no entry is
    /// expanded twice under one claim.
    fn expand<R: Wait>(
        &self,
        rt: &R,
        mine: &mut Worker<S::Scratch, A>,
        place: Place,
    ) -> Result<Round, AllocError>
        requires free { IsFree self.now.board.now self.now.space.now S.is_own mine.old }
        requires claim { HasClaim mine.old.seat place × HasPlace mine.old.seat.seen place }
        requires counted { Counts mine.old.expanded (mine.old.seat.verdicts + length mine.old.seat.given_up) }
        ensures free { IsFree self.now.board.now self.now.space.now S.is_own mine.new }
        ensures counted { Counts mine.new.expanded (claims_made mine.new.seat) }
        ensures keeps { Keeps mine.old.seat mine.new.seat }
        ensures sees { SeesOn mine.old.seat.seen mine.new.seat.seen }
        ensures ended { OnOk result (mine.new.seat.claims ≡ 0) }
        ensures over { KnowsOver result mine.new }
    {
        mine.expanded = mine.expanded.saturating_add(1);
        let word = self.board.at(&mut mine.seat, place);
        let mut ahead = self.space.ahead(word);
        while let Some(next) = self.space.advance(word, &mut ahead) {
            if let Round::Over = self.put_in(rt, mine, next)? {
                return Ok(Round::Over);
            }
        }
        self.judge(mine, place, word)?;
        Ok(Round::Within)
    }

    /// Judges the word of a claimed entry, of which all successors are in, and settles the entry.
    fn judge(
        &self,
        mine: &mut Worker<S::Scratch, A>,
        place: Place,
        word: u128,
    ) -> Result<(), AllocError>
        requires free { IsFree self.now.board.now self.now.space.now S.is_own mine.old }
        requires claim { HasClaim mine.old.seat place × HasPlace mine.old.seat.seen place }
        requires word { word ≡ word_at mine.old.seat.seen place }
        requires lawful { S.is_lawful self.now.space.now word }
        requires successors { (next : ℕ) → Contains (S.successors self.now.space.now word) next
            → Has mine.old.seat.seen next }
        ensures free { IsFree self.now.board.now self.now.space.now S.is_own mine.new }
        ensures expanded { mine.new.expanded ≡ mine.old.expanded }
        ensures keeps { Keeps mine.old.seat mine.new.seat }
        ensures seen { mine.new.seat.seen ≡ mine.old.seat.seen }
        ensures ended { OnOk result (mine.new.seat.claims ≡ 0) }
    {
        let good = self.space.judge(&mut mine.scratch, word)?;
        self.board.settle(&mut mine.seat, place, good);
        Ok(())
    }

    /// Puts a successor of the claimed entry in unless it was met, and makes a task of it if it is new.
    fn put_in<R: Wait>(
        &self,
        rt: &R,
        mine: &mut Worker<S::Scratch, A>,
        word: u128,
    ) -> Result<Round, AllocError>
        requires free { IsFree self.now.board.now self.now.space.now S.is_own mine.old }
        requires successor { IsSuccessor (S.successors self.now.space.now) mine.old.seat word }
        ensures free { IsFree self.now.board.now self.now.space.now S.is_own mine.new }
        ensures expanded { mine.new.expanded ≡ mine.old.expanded }
        ensures keeps { Keeps mine.old.seat mine.new.seat }
        ensures sees { SeesOn mine.old.seat.seen mine.new.seat.seen }
        ensures within { IfOk result (λ t. t ≢ round.Over → PutsIn word mine.old.seat mine.new.seat) }
        ensures over { IfOk result (λ t. t ≡ round.Over → (mine.new.seat.claims ≡ 0) × (mine.new.seat.over ≡ 1)) }
    {
        if mine.recent.has(word) {
            return Ok(Round::Within);
        }
        let put = self.board.insert(rt, &mut mine.seat, word);
        if let Put::Over = put {
            return Ok(Round::Over);
        }
        mine.recent.keep(word);
        match put {
            Put::New(place) => match mine.tasks.push(Task { word, place }) {
                Ok(()) => Ok(Round::Within),
                Err(_) => Err(AllocError),
            },
            _ => Ok(Round::Within),
        }
    }
}
