//! Sound disks, stated for tables: lemmas for the file system's operations, and no code that runs.
//!
//! The tables of a disk (`specs/Tables.antt`) are functions of numbers: the kind, the link count and the pointers of an
//! inode, what a block is marked as, whether it is in use, and where each entry of a directory leads. A change of bytes
//! is a change of one table at one number, so that what an operation does to a disk is proved without bytes and
//! offsets. Soundness falls into four groups (blocks, inodes, names, counts), each stated for the tables that it needs,
//! so that an operation keeps the groups whose tables it leaves alone.
//!
//! `proofs/` has, from the bytes up: what a change of bytes does to the tables (`Puts`, `OnTables`, `Steps`), that
//! tables and disk agree (`Views`, `ToTables`, `FromTables`), what a gained or lost entry, inode or block does to each
//! group (`Names`, `Counts`, `Inodes`, `Blocks`), and that operations on tables keep them sound (`Kept`) and have their
//! defined meaning (`Meant`).
#![tactic(auto)]

pub mod laws;
