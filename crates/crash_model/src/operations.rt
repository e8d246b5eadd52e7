//! Operations on the file system.

ghost use Rattle.std.specs.Prelude.{◌≡◌, ◌<◌, MatchOption};
ghost use Rattle.crash_model.specs.Slots.{slot_number, slot_text, IsSlotWord};

use crate::disk_bytes::SLOTS;
use crate::names::Path;
use std::fmt;

/// The place of one of an inode's four block pointers.
#[derive(Clone, Copy, Debug, PartialEq, Eq, Drop)]
pub enum Slot {
    Zero,
    One,
    Two,
    Three,
}

impl Slot {
    /// The slot that this word of a script names: `0`, `1`, `2` or `3`. `None` for any other text.
    pub fn read(text: &str) -> Option<Slot>
        ensures { MatchOption result (¬ (IsSlotWord text.now)) (λ slot. text.now ≡ slot_text slot) }
    {
        match text {
            "0" => Some(Slot::Zero),
            "1" => Some(Slot::One),
            "2" => Some(Slot::Two),
            "3" => Some(Slot::Three),
            _ => None,
        }
    }

    /// Its number, from 0.
    pub fn number(self) -> u8
        ensures value { result ≡ slot_number self }
        ensures range { result < SLOTS }
    {
        match self {
            Slot::Zero => 0,
            Slot::One => 1,
            Slot::Two => 2,
            Slot::Three => 3,
        }
    }

    /// Its word in a script.
    pub fn name(self) -> &'static str
        ensures { result.now ≡ slot_text self }
    {
        match self {
            Slot::Zero => "0",
            Slot::One => "1",
            Slot::Two => "2",
            Slot::Three => "3",
        }
    }
}

/// An operation on the file system.
///
/// In `Link`, `Rename` and `Replace` the first path is the old one; `Replace` renames onto a name that exists.
/// `Overwrite` writes the data of a file's block in one slot anew, or those of all its blocks; `Truncate` takes all its
/// blocks from a file.
#[derive(Drop)]
pub enum Op {
    Create(Path),
    Write(Path),
    Link(Path, Path),
    Unlink(Path),
    Rename(Path, Path),
    Mkdir(Path),
    Rmdir(Path),
    Overwrite(Path, Option<Slot>),
    Truncate(Path),
    Replace(Path, Path),
}

impl Op {
    ghost use Rattle.crash_model.specs.Script.{IsAct};
    ghost use Rattle.crash_model.specs.declared.steps.Act.TheVariants.{Do};

    /// Its paths are paths. This reads them, and changes nothing.
    pub fn has_paths(&self)
        ensures { IsAct (Do self.now) }
    {
        match self {
            Op::Create(path)
            | Op::Write(path)
            | Op::Unlink(path)
            | Op::Mkdir(path)
            | Op::Rmdir(path)
            | Op::Overwrite(path, _)
            | Op::Truncate(path) => path.has_names(),
            Op::Link(old, new) | Op::Rename(old, new) | Op::Replace(old, new) => {
                old.has_names();
                new.has_names();
            }
        }
    }
}

impl fmt::Display for Op {
    ghost use Rattle.std.specs.Prelude.{Some};
    ghost use Rattle.crash_model.specs.PatchTexts.{op_text};

    ghost output = { λ op. Some (op_text op) };

    fn fmt<W: fmt::Write>(&self, f: &mut fmt::Formatter<W>) -> fmt::Result {
        match self {
            Op::Create(path) => write!(f, "create {path}"),
            Op::Write(path) => write!(f, "write {path}"),
            Op::Link(old, new) => write!(f, "link {old} {new}"),
            Op::Unlink(path) => write!(f, "unlink {path}"),
            Op::Rename(old, new) => write!(f, "rename {old} {new}"),
            Op::Mkdir(path) => write!(f, "mkdir {path}"),
            Op::Rmdir(path) => write!(f, "rmdir {path}"),
            Op::Overwrite(path, None) => write!(f, "overwrite {path}"),
            Op::Overwrite(path, Some(slot)) => {
                let slot = slot.name();
                write!(f, "overwrite {path} {slot}")
            }
            Op::Truncate(path) => write!(f, "truncate {path}"),
            Op::Replace(old, new) => write!(f, "replace {old} {new}"),
        }
    }
}
