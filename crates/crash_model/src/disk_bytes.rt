//! The numbers of the disk's format: its sizes, where things are on it, and bytes with a meaning of their own.
//!
//! Definitions cite them, too.

/// Bytes of a block.
pub const BLOCK_SIZE: usize = 128;

/// Blocks of the smallest disk.
pub const LEAST_BLOCKS: usize = 16;

/// Blocks of the largest disk.
pub const MOST_BLOCKS: usize = 128;

/// The fewest blocks that a disk has besides its journal's: the superblock, the map, two of inodes, the root
/// directory's block, and one to spare.
pub const OTHER_BLOCKS: usize = 6;

/// Where the allocation map begins on the disk: it is block 1.
pub const MAP_AT: usize = BLOCK_SIZE;

/// The block of the allocation map.
pub const MAP_BLOCK: u8 = 1;

/// The first of the two blocks of inodes.
pub const INODE_BLOCK: u8 = 2;

/// The first block of the journal; the data area begins there if there is none.
pub const JOURNAL_AT: usize = 4;

/// How many inodes a disk has.
pub const INODES: u8 = 16;

/// How many inodes a block has.
pub const INODES_IN_BLOCK: u8 = 8;

/// Bytes of an inode.
pub const INODE_SIZE: usize = 16;

/// Where the kind of inode 0 is on the disk. Its link count is in the next byte.
pub const KINDS_AT: usize = 2 * BLOCK_SIZE;

/// Where the link count of inode 0 is on the disk.
pub const LINKS_AT: usize = KINDS_AT + 1;

/// Where the generation of inode 0 is on the disk.
pub const GENERATIONS_AT: usize = KINDS_AT + 2;

/// Where the first pointer of inode 0 is on the disk.
pub const POINTERS_AT: usize = KINDS_AT + 4;

/// Where an inode's first pointer is among its bytes.
pub const POINTERS_FROM: u8 = 4;

/// Where an inode's byte that an overwriting changes is among its bytes.
pub const TOUCHED_FROM: u8 = 8;

/// Where the byte that an overwriting changes is in a file's block.
pub const DATA_FROM: u8 = 3;

/// How many pointers an inode has.
pub const SLOTS: u8 = 4;

/// The most names that a file has.
pub const MOST_LINKS: u8 = 8;

/// How many entries a directory has.
pub const ENTRIES: u8 = 10;

/// Where entry 0 begins in a directory's block.
pub const ENTRIES_FROM: u8 = 8;

/// Bytes of an entry.
pub const ENTRY_SIZE: u8 = 12;

/// The most bytes of a name.
pub const LONGEST_NAME: usize = 10;

/// Bytes of a name in an entry: its length, and the name with zeros after it.
pub const SPELLING_SIZE: usize = LONGEST_NAME + 1;

/// The most changes that an operation makes.
pub const MOST_CHANGES: usize = 9;

/// The most blocks that the header of a transaction names.
pub const MOST_TARGETS: usize = 8;

/// How many bytes of a file's block a path shows: its mark, its inode and its counters.
pub const SHOWN_BYTES: usize = 4;

/// Byte 0 of an inode that is in no use: its kind.
pub const FREE_KIND: u8 = 0;

/// Byte 0 of the inode of a file: its kind.
pub const FILE_KIND: u8 = 1;

/// Byte 0 of the inode of a directory: its kind.
pub const DIRECTORY_KIND: u8 = 2;

/// Byte 0 of a file's block.
pub const FILE_MARK: u8 = 0x46;

/// Byte 0 of a directory's block.
pub const DIRECTORY_MARK: u8 = 0x44;

/// Byte 0 of the header of a transaction that is committed and may not be in place yet.
pub const COMMITTED_MARK: u8 = 0xC7;

/// Byte 0 of the header of a transaction that is in place.
pub const DONE_MARK: u8 = 0xC8;
