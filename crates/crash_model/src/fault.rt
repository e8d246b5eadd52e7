//! What a checker can find wrong with an image.

ghost use Rattle.std.specs.Prelude.{◌≡◌, [], ◌∷◌};
ghost use Rattle.crash_model.specs.FaultOrder.{numbers_of};

use std::fmt;

/// A fault of an image. Its text is what a report shows of it.
///
/// `dir` and `inode` are inode numbers, `entry` a place in a directory from 0 to 9, `slot` a pointer's place from 0
/// to 3, `block` a block number, `entries` the number of directory entries that name the inode and `links` its link
/// count.
#[derive(Clone, Copy, PartialEq, Eq, Drop)]
pub enum Fault {
    /// A directory entry that names no live inode.
    Dangling { dir: u8, entry: u8, inode: u8 },
    /// A block that two pointers name.
    Twice { block: u8 },
    /// A pointer to a block that is not marked as the inode's.
    Unwritten { inode: u8, slot: u8, block: u8 },
    /// An inode that more entries name than its link count says.
    LowLinks { inode: u8, entries: u8, links: u8 },
    /// A pointer to a block that the allocation map has as free.
    MarkedFree { inode: u8, slot: u8, block: u8 },
    /// A pointer that names no block of the data area.
    Wild { inode: u8, slot: u8, block: u8 },
    /// An inode that the script keeps and that no entries lead to from inode 0.
    Lost { inode: u8 },
    /// A directory that is reached and has no block.
    NoBlock { inode: u8 },
    /// An image that shows the disk after no number of whole operations.
    HalfDone,
    /// A set of patches that breaks a promise of the script. `line` is the number of the promise's line.
    BrokenPromise { line: usize },
}

impl fmt::Display for Fault {
    ghost use Rattle.std.specs.Prelude.{Some};
    ghost use Rattle.crash_model.specs.Texts.{fault_text};

    ghost output = { λ f. Some (fault_text f) };

    #[tactic(auto, unfolding(crate::specs::Texts::fault_text))]
    fn fmt<W: fmt::Write>(&self, f: &mut fmt::Formatter<W>) -> fmt::Result {
        match *self {
            Fault::Dangling { dir, entry, inode } => write!(
                f,
                "1 dangling entry: directory {dir} entry {entry} inode {inode}"
            ),
            Fault::Twice { block } => write!(f, "2 block used twice: block {block}"),
            Fault::Unwritten { inode, slot, block } => write!(
                f,
                "3 unwritten pointer: inode {inode} slot {slot} block {block}"
            ),
            Fault::LowLinks {
                inode,
                entries,
                links,
            } => write!(
                f,
                "4 low link count: inode {inode} entries {entries} links {links}"
            ),
            Fault::MarkedFree { inode, slot, block } => write!(
                f,
                "5 used block marked free: inode {inode} slot {slot} block {block}"
            ),
            Fault::Wild { inode, slot, block } => {
                write!(f, "6 wild pointer: inode {inode} slot {slot} block {block}")
            }
            Fault::Lost { inode } => write!(f, "7 lost inode: inode {inode}"),
            Fault::NoBlock { inode } => write!(f, "8 directory without a block: inode {inode}"),
            Fault::HalfDone => write!(f, "9 half-done operation"),
            Fault::BrokenPromise { line } => write!(f, "10 broken promise: line {line}"),
        }
    }
}

impl fmt::Debug for Fault {
    fn fmt<W: fmt::Write>(&self, f: &mut fmt::Formatter<W>) -> fmt::Result {
        write!(f, "Fault({self})")
    }
}

impl Fault {
    /// The sort key of a fault: its number, then the numbers in its text, padded with zeros.
    pub fn numbers(self) -> [usize; 4]
        ensures { result ≡ numbers_of self }
    {
        match self {
            Fault::Dangling { dir, entry, inode } => numbers(1, dir, entry, inode),
            Fault::Twice { block } => numbers(2, block, 0, 0),
            Fault::Unwritten { inode, slot, block } => numbers(3, inode, slot, block),
            Fault::LowLinks {
                inode,
                entries,
                links,
            } => numbers(4, inode, entries, links),
            Fault::MarkedFree { inode, slot, block } => numbers(5, inode, slot, block),
            Fault::Wild { inode, slot, block } => numbers(6, inode, slot, block),
            Fault::Lost { inode } => numbers(7, inode, 0, 0),
            Fault::NoBlock { inode } => numbers(8, inode, 0, 0),
            Fault::HalfDone => numbers(9, 0, 0, 0),
            Fault::BrokenPromise { line } => [10, line, 0, 0],
        }
    }
}

/// Four small numbers.
fn numbers(kind: u8, first: u8, second: u8, third: u8) -> [usize; 4]
    ensures { result ≡ kind ∷ first ∷ second ∷ third ∷ [] }
{
    [
        usize::from(kind),
        usize::from(first),
        usize::from(second),
        usize::from(third),
    ]
}
