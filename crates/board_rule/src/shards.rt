//! The shards of a board.

/// The number of shards of a board. A word belongs to the shard of its remainder by this number.
pub const SHARDS: usize = 13;
