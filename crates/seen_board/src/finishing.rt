//! Reading that all is finished, and making the others stop.
ghost use Rattle.std.specs.Prelude.{◌≡◌, true, false};
ghost use Rattle.seen_board.specs.Clauses.{IsOf, with_given_up};

use crate::board::Board;
use crate::layout::{PENDING, STOP};
use crate::seat::BoardSeat;
use crate::steps::{End, Peek, Stop};
use state_space::Space;
use std::alloc::Allocator;

impl<S: Space, A: Allocator> Board<S, A> {
    /// Whether pending was read as 0. Then the seat knows that all entries are settled, that no word is on its way, and
    /// that both stay true; `close` says what follows.
    pub fn finished(&self, seat: &mut BoardSeat) -> bool
        requires seat { IsOf self.now seat.old }
        ensures yes { result ≡ true → seat.new ≡ record seat.old { finished = 1 } }
        ensures no { result ≡ false → seat.new ≡ seat.old }
    {
        self.table.shared.load::<End>(&mut seat.seat, PENDING) == 0
    }

    /// Asks the other seats to stop, which is only a hint. The seat gives its claim up, and its entry stays claimed
    /// for good.
    pub fn stop(&self, seat: &mut BoardSeat)
        requires seat { IsOf self.now seat.old }
        ensures { seat.new ≡ with_given_up seat.old }
    {
        self.table.shared.store::<Stop>(&mut seat.seat, STOP, 1);
    }

    /// Whether a stop was read. No promise depends on it.
    pub fn stopped(&self, seat: &mut BoardSeat) -> bool
        requires seat { IsOf self.now seat.old }
        ensures { seat.new ≡ seat.old }
    {
        self.table.shared.load::<Peek>(&mut seat.seat, STOP) != 0
    }
}
