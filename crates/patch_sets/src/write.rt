//! Block writes.

/// One write of a block and the patches that it carries.
///
/// `block` is the block's number and `ids` the set of the patches, each of them a change of that block.
#[derive(Clone, Copy, Debug, PartialEq, Eq)]
pub struct BlockWrite {
    pub block: u8,
    pub ids: u128,
}
