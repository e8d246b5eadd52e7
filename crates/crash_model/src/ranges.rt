//! Ranges of bytes.

/// Some bytes of one block: `size` of them, from byte `offset` on.
#[derive(Clone, Copy, Debug, PartialEq, Eq, Default)]
pub struct Range {
    pub block: u8,
    pub offset: u8,
    pub size: u8,
}
