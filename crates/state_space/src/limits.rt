//! What bounds an exploration that keeps its words on a board.

/// The most words that a board has, so that a word's place fits in 16 bits.
pub const MAX_BOARD: usize = 32_768;
