//! What calls answer.

/// A place on a board: a shard, below `SHARDS`, and a number in the shard's row.
#[derive(Clone, Copy, Debug, PartialEq, Eq, Drop)]
pub struct Place {
    pub shard: u8,
    pub at: u16,
}

/// Whether a right was taken in one try.
#[derive(Clone, Copy, Debug, PartialEq, Eq, Drop)]
pub enum Got {
    Right,
    Busy,
}

/// What happened to a word that was to be put in.
#[derive(Clone, Copy, Debug, PartialEq, Eq, Drop)]
pub enum Put {
    /// It is an entry now, at this place.
    New(Place),
    /// It was an entry before, at this place.
    Known(Place),
    /// A right could not be taken, and the word was not put in.
    Busy,
    /// More words are reached than the board may have, or more of the word's shard than its row has places.
    Over,
}

/// What the index words of a word say under a right.
#[derive(Clone, Copy, Debug, PartialEq, Eq, Drop)]
pub(crate) enum Indexed {
    At(u16),
    Absent,
    /// None of them is zero, and none names the word's place.
    Full,
}

/// The result of a look under the read right.
#[derive(Clone, Copy, Debug, PartialEq, Eq, Drop)]
pub(crate) enum Looked {
    /// The right could not be taken.
    Taken,
    At(u16),
    Absent,
}
