//! Changes that operations make.

ghost use Rattle.std.specs.Prelude.{◌≡◌};
ghost use Rattle.crash_model.specs.Rules.{role_text};

use crate::disk_bytes::{BLOCK_SIZE, MOST_CHANGES};
use arrayvec::ArrayVec;

/// What a change is for.
///
/// `InodeInit` and `InodeFree` write a whole inode, `EntrySet` and `EntryClear` a directory entry, `MapSet` and
/// `MapClear` a block's byte of the allocation map, `InitFile` and `InitDir` a new block, `Ptr` a block pointer,
/// `LinkUp` and `LinkDown` a link count, `PtrClear` all pointers of an inode, `NewData` the data of a block anew, and
/// `Touch` the inode of a file whose data are written anew.
#[derive(Clone, Copy, Debug, PartialEq, Eq, Default)]
pub enum Role {
    #[default]
    InodeInit,
    EntrySet,
    EntryClear,
    MapSet,
    MapClear,
    InitFile,
    InitDir,
    Ptr,
    LinkUp,
    LinkDown,
    InodeFree,
    PtrClear,
    NewData,
    Touch,
}

impl Role {
    /// Its name in rules and reports.
    pub fn name(self) -> &'static str
        ensures { result.now ≡ role_text self }
    {
        match self {
            Role::InodeInit => "InodeInit",
            Role::EntrySet => "EntrySet",
            Role::EntryClear => "EntryClear",
            Role::MapSet => "MapSet",
            Role::MapClear => "MapClear",
            Role::InitFile => "InitFile",
            Role::InitDir => "InitDir",
            Role::Ptr => "Ptr",
            Role::LinkUp => "LinkUp",
            Role::LinkDown => "LinkDown",
            Role::InodeFree => "InodeFree",
            Role::PtrClear => "PtrClear",
            Role::NewData => "NewData",
            Role::Touch => "Touch",
        }
    }
}

/// New bytes for a range of one block: those from byte `offset` of block `block` on.
#[derive(Default, Drop)]
pub struct Change {
    pub block: u8,
    pub offset: u8,
    pub new: ArrayVec<u8, BLOCK_SIZE>,
    pub role: Role,
}

/// The changes of an operation, in the order in which they are emitted.
pub type Plan = ArrayVec<Change, MOST_CHANGES>;
