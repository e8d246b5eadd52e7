//! Replay of a disk image's journal.
//!
//! The journal begins at block 4. A transaction there is a header, which names the blocks that the transaction
//! changes, followed by a copy of each. Replay copies those of committed transactions to their places.
#![tactic(auto)]

mod header;
mod journal;

pub use journal::replay;
