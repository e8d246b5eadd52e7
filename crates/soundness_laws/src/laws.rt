//! What ties tables to disks, as functions that do nothing and promise the law.

ghost use Rattle.std.specs.Prelude.{◌↔◌};
ghost use Rattle.crash_model.specs.Disk.{Disk, IsDisk};
ghost use Rattle.crash_model.specs.Sound.{IsSound};
ghost use Rattle.crash_model.specs.View.{view_of};
ghost use Rattle.soundness_laws.specs.Tables.{tables_of, view, Sound, SameView};

/// A disk is sound exactly if its tables are.
pub fn sound_disks_have_sound_tables()
    ensures { (d : Disk) → IsDisk d → (IsSound d ↔ Sound (tables_of d)) }
{}

/// The view of a disk has the same members as that of its tables.
pub fn disks_and_tables_have_one_view()
    ensures { (d : Disk) → SameView (view_of d) (view (tables_of d)) }
{}
