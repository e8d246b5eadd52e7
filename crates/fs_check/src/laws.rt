//! Laws of the definitions.

ghost use Rattle.std.specs.Prelude.{◌≡◌, ◌↔◌, ℕ, Bool, IsTrue};
ghost use Rattle.crash_model.specs.Disk.{Disk};
ghost use Rattle.crash_model.specs.Faults.{IsClean};
ghost use Rattle.crash_model.specs.declared.disk_bytes.TheConstants.{DIRECTORY_KIND};
ghost use Rattle.crash_model.specs.Layout.{kind_of, is_live};
ghost use Rattle.crash_model.specs.Strict.{has_entry_to, is_reached};
ghost use Rattle.fs_check.specs.Passed.{HasCleanPointers, HasCleanEntries};

/// An image is clean exactly if no test of a pointer, of a block, of an entry or of an inode finds a fault.
pub fn clean_is_faultless()
    ensures { (d : Disk) → (IsClean d ↔ (HasCleanPointers d × HasCleanEntries d)) }
{}

/// The inodes that are reached are the least set with inode 0, if it is a directory, and with each live inode that an
/// entry of one of its directories names.
pub fn reached_inodes_are_the_least_set()
    ensures root { (d : Disk) → kind_of d 0 ≡ DIRECTORY_KIND → IsTrue (is_reached d 0) }
    ensures step { (d : Disk) → (dir inode : ℕ) → IsTrue (is_reached d dir) → IsTrue (has_entry_to d dir inode)
        → IsTrue (is_live d inode) → IsTrue (is_reached d inode) }
    ensures least { (d : Disk) → (set : ℕ → Bool) → (kind_of d 0 ≡ DIRECTORY_KIND → IsTrue (set 0))
        → ((dir inode : ℕ) → IsTrue (set dir) → IsTrue (has_entry_to d dir inode) → IsTrue (is_live d inode)
        → IsTrue (set inode))
        → (inode : ℕ) → IsTrue (is_reached d inode) → IsTrue (set inode) }
{}
