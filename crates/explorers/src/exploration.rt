//! What the workers of one exploration share.

use seen_board::Board;
use state_space::Space;
use std::alloc::Allocator;

/// A space that is explored over a board, and the gate that gets each claim.
#[derive(Drop)]
pub(crate) struct Exploration<'a, S: Space, G, A: Allocator + Copy> {
    pub board: &'a Board<S, A>,
    pub space: &'a S,
    pub gate: &'a G,
}

/// How a worker's round ends, if no memory was refused.
#[derive(Clone, Copy, Debug, PartialEq, Eq, Drop)]
pub(crate) enum Round {
    /// The worker goes on.
    Within,
    /// The board said that more words than the limit are reached.
    Over,
    /// The board is finished, or a stop was read.
    Ended,
}
