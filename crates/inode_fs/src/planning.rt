//! The plan of each operation: its changes in the order in which they are emitted, or the first refusal.

ghost use Rattle.std.specs.Prelude.{ℕ, List, ◌≡◌, ◌<◌, ◌≤◌, ◌↔◌, ◌+◌, ◌∷◌, length, All, IfOk};
ghost use Rattle.std.specs.Prelude.{MatchResult, Ok, Err, Some};
ghost use Rattle.crash_model.specs.Names.{IsName};
ghost use Rattle.crash_model.specs.Layout.{links_of};
ghost use Rattle.crash_model.specs.Plan.{plan_of, relink_plan, free_entry, link_count, entry_set};
ghost use Rattle.crash_model.specs.Plan.{with_changes};
ghost use Rattle.crash_model.specs.declared.plans.Change.{Change};
ghost use Rattle.crash_model.specs.Sound.{IsSound};
ghost use Rattle.crash_model.specs.View.{view_of};
ghost use Rattle.crash_model.specs.Meaning.{IsRefused, Means};
ghost use Rattle.crash_model.specs.declared.refusals.FsFault.{FsFault};
ghost use Rattle.inode_fs.specs.Inside.{LiesInside, HasSameJournal, GivesName};
ghost use Rattle.crash_model.specs.declared.operations.Op.TheVariants.{Create, Write, Link, Unlink, Rename, Mkdir};
ghost use Rattle.crash_model.specs.declared.operations.Op.TheVariants.{Rmdir};
ghost use Rattle.crash_model.specs.declared.plans.Role.TheVariants.{LinkUp};

use crate::changes::{
    entry_clear, entry_set, init_block, inode_free, inode_init, link_count, map_set, pointer_set,
};
use crate::dropping::{add_map_clear, drop_name};
use crate::lookup::{Entry, find, free_block, free_inode, free_slot, has_entries, walk};
use crate::saving::{overwrite, replace, truncate};
use arrayvec::ArrayVec;
use crash_model::disk_bytes::{
    DIRECTORY_KIND, DIRECTORY_MARK, ENTRIES, FILE_KIND, FILE_MARK, INODES, MOST_CHANGES,
    MOST_LINKS, MOST_TARGETS,
};
use crash_model::names::Path;
use crash_model::operations::Op;
use crash_model::plans::{Plan, Role};
use crash_model::refusals::FsFault;
use disk_image::Image;
use path_lookup::entry_named;
use std::alloc::Allocator;

/// The changes of an operation, in the order in which they are emitted, or the first refusal, 10 to 19.
///
/// It is defined on every image, also on a damaged one; it changes nothing and takes no memory. An operation is
/// refused by the first of its tests that fails, and takes the lowest free inode, block, entry and slot. The changes
/// lie inside the image, and none of them in the journal.
///
/// On a sound image it is refused exactly as its tests say about the names, inodes, pointers and used blocks of the
/// image; the image after its changes is sound, and has gained and lost what the operation means.
pub fn plan<A: Allocator + Copy>(image: &Image<A>, op: &Op) -> Result<Plan, FsFault>
    ensures changes { MatchResult result (λ plan. plan_of image.now op.now ≡ Ok plan.items) (λ fault.
        plan_of image.now op.now ≡ Err fault) }
    ensures count { IfOk result (λ plan. (1 ≤ length plan.items) × (length plan.items ≤ MOST_CHANGES)) }
    ensures inside { IfOk result (λ plan. All (LiesInside image.now.blocks) plan.items) }
    ensures journal { IfOk result (λ plan. HasSameJournal image.now (with_changes image.now plan.items)) }
    ensures name { IfOk result (λ _. GivesName op.now) }
    ensures refused { IsSound image.now → (fault : FsFault)
        → ((result ≡ Err fault) ↔ IsRefused image.now.blocks image.now.journal (view_of image.now) op.now fault) }
    ensures sound { IsSound image.now → IfOk result (λ plan. IsSound (with_changes image.now plan.items)) }
    ensures means { IsSound image.now
        → IfOk result (λ plan.
        Means image.now.blocks image.now.journal (view_of image.now)
        (view_of (with_changes image.now plan.items)) op.now) }
{
    // For the proof: the image has the size of a disk.
    let _blocks = image.blocks();
    changes_of(image, op)
}

/// The changes of each operation.
fn changes_of<A: Allocator + Copy>(image: &Image<A>, op: &Op) -> Result<Plan, FsFault>
    ensures changes { MatchResult result (λ plan. plan_of image.now op.now ≡ Ok plan.items) (λ fault.
        plan_of image.now op.now ≡ Err fault) }
    ensures name { IfOk result (λ _. GivesName op.now) }
{
    match op {
        Op::Create(path) => create(image, path),
        Op::Write(path) => write(image, path),
        Op::Link(old, new) => link(image, old, new),
        Op::Unlink(path) => unlink(image, path),
        Op::Rename(old, new) => rename(image, old, new),
        Op::Mkdir(path) => mkdir(image, path),
        Op::Rmdir(path) => rmdir(image, path),
        Op::Overwrite(path, slot) => overwrite(image, path, *slot),
        Op::Truncate(path) => truncate(image, path),
        Op::Replace(old, new) => replace(image, old, new),
    }
}

/// A new file.
#[tactic(auto, unfolding(crash_model::specs::Plan::plan_of))]
fn create<A: Allocator + Copy>(image: &Image<A>, path: &Path) -> Result<Plan, FsFault>
    ensures changes { MatchResult result (λ plan. plan_of image.now (Create path.now) ≡ Ok plan.items) (λ fault.
        plan_of image.now (Create path.now) ≡ Err fault) }
    ensures name { IfOk result (λ _. IsName path.now.last) }
{
    let dir = walk(image, path)?;
    if entry_named(image, dir, &path.last).is_some() {
        return Err(FsFault::Exists);
    }
    let inode = free_inode(image).ok_or(FsFault::NoInode)?;
    let place = image.free_entry(dir).ok_or(FsFault::DirectoryFull)?;
    let mut plan = ArrayVec::new();
    plan.push(inode_init(image, inode, FILE_KIND));
    plan.push(entry_set(image, dir, place, inode, &path.last));
    Ok(plan)
}

/// One more block for a file.
#[tactic(auto, unfolding(crash_model::specs::Plan::plan_of))]
fn write<A: Allocator + Copy>(image: &Image<A>, path: &Path) -> Result<Plan, FsFault>
    ensures { MatchResult result (λ plan. plan_of image.now (Write path.now) ≡ Ok plan.items) (λ fault.
        plan_of image.now (Write path.now) ≡ Err fault) }
{
    let target = find(image, path)?.target;
    if image.kind(target) != FILE_KIND {
        return Err(FsFault::NotAFile);
    }
    let block = free_block(image).ok_or(FsFault::NoBlock)?;
    let slot = free_slot(image, target).ok_or(FsFault::FileFull)?;
    let mut plan = ArrayVec::new();
    plan.push(map_set(block));
    plan.push(init_block(image, Role::InitFile, block, FILE_MARK, target));
    plan.push(pointer_set(target, slot, block));
    Ok(plan)
}

/// What `link` and `rename` find: the old entry, the link count of its target, and the place of the new entry.
#[derive(Clone, Copy)]
struct FurtherName {
    old: Entry,
    links: u8,
    dir: u8,
    place: u8,
}

/// The tests that `link` and `rename` share.
fn further_name<A: Allocator + Copy>(
    image: &Image<A>,
    old: &Path,
    new: &Path,
) -> Result<FurtherName, FsFault>
    ensures found { MatchResult result
        (λ r. (more : ℕ → ℕ → ℕ → List Change) → relink_plan image.now old.now new.now more
        ≡ Ok (link_count LinkUp r.old.target (links_of image.now r.old.target + 1)
        ∷ entry_set image.now r.dir r.place r.old.target new.now.last
        ∷ more r.old.dir r.old.place r.old.target))
        (λ fault. (more : ℕ → ℕ → ℕ → List Change) → relink_plan image.now old.now new.now more ≡ Err fault) }
    ensures links { IfOk result (λ r. (r.links ≡ links_of image.now r.old.target) × (r.links < MOST_LINKS)) }
    ensures place { IfOk result (λ r. free_entry image.now r.dir ≡ Some r.place) }
    ensures within { IfOk result (λ r. (r.old.dir < INODES) × (r.old.place < ENTRIES) × (r.old.target < INODES)
        × (r.dir < INODES) × (r.place < ENTRIES)) }
{
    let old = find(image, old)?;
    let dir = walk(image, new)?;
    if entry_named(image, dir, &new.last).is_some() {
        return Err(FsFault::Exists);
    }
    if image.kind(old.target) != FILE_KIND {
        return Err(FsFault::NotAFile);
    }
    let place = image.free_entry(dir).ok_or(FsFault::DirectoryFull)?;
    let links = image.links(old.target);
    if links >= MOST_LINKS {
        return Err(FsFault::LinksFull);
    }
    Ok(FurtherName {
        old,
        links,
        dir,
        place,
    })
}

/// One more name for a file.
#[tactic(auto, unfolding(crash_model::specs::Plan::plan_of))]
fn link<A: Allocator + Copy>(image: &Image<A>, old: &Path, new: &Path) -> Result<Plan, FsFault>
    ensures changes { MatchResult result (λ plan. plan_of image.now (Link old.now new.now) ≡ Ok plan.items) (λ fault.
        plan_of image.now (Link old.now new.now) ≡ Err fault) }
    ensures name { IfOk result (λ _. IsName new.now.last) }
{
    let name = further_name(image, old, new)?;
    let mut plan = ArrayVec::new();
    plan.push(link_count(Role::LinkUp, name.old.target, name.links + 1));
    plan.push(entry_set(image, name.dir, name.place, name.old.target, &new.last));
    Ok(plan)
}

/// A name goes, and with its last one the file and its blocks.
#[tactic(auto, unfolding(crash_model::specs::Plan::plan_of))]
fn unlink<A: Allocator + Copy>(image: &Image<A>, path: &Path) -> Result<Plan, FsFault>
    ensures { MatchResult result (λ plan. plan_of image.now (Unlink path.now) ≡ Ok plan.items) (λ fault.
        plan_of image.now (Unlink path.now) ≡ Err fault) }
{
    let Entry { dir, place, target } = find(image, path)?;
    if image.kind(target) != FILE_KIND {
        return Err(FsFault::NotAFile);
    }
    let mut plan = ArrayVec::new();
    plan.push(entry_clear(image, dir, place));
    drop_name(image, target, &mut plan);
    Ok(plan)
}

/// A file's name becomes another: the new entry is there before the old one goes.
#[tactic(auto, unfolding(crash_model::specs::Plan::plan_of))]
fn rename<A: Allocator + Copy>(image: &Image<A>, old: &Path, new: &Path) -> Result<Plan, FsFault>
    ensures changes { MatchResult result (λ plan. plan_of image.now (Rename old.now new.now) ≡ Ok plan.items) (λ fault.
        plan_of image.now (Rename old.now new.now) ≡ Err fault) }
    ensures name { IfOk result (λ _. IsName new.now.last) }
{
    let found = further_name(image, old, new)?;
    let mut plan = ArrayVec::new();
    plan.push(link_count(Role::LinkUp, found.old.target, found.links + 1));
    plan.push(entry_set(image, found.dir, found.place, found.old.target, &new.last));
    plan.push(entry_clear(image, found.old.dir, found.old.place));
    plan.push(link_count(Role::LinkDown, found.old.target, found.links));
    Ok(plan)
}

/// A new directory, empty and with a block of its own.
#[tactic(auto, unfolding(crash_model::specs::Plan::plan_of))]
fn mkdir<A: Allocator + Copy>(image: &Image<A>, path: &Path) -> Result<Plan, FsFault>
    ensures changes { MatchResult result (λ plan. plan_of image.now (Mkdir path.now) ≡ Ok plan.items) (λ fault.
        plan_of image.now (Mkdir path.now) ≡ Err fault) }
    ensures name { IfOk result (λ _. IsName path.now.last) }
{
    let dir = walk(image, path)?;
    if entry_named(image, dir, &path.last).is_some() {
        return Err(FsFault::Exists);
    }
    let inode = free_inode(image).ok_or(FsFault::NoInode)?;
    let block = free_block(image).ok_or(FsFault::NoBlock)?;
    let place = image.free_entry(dir).ok_or(FsFault::DirectoryFull)?;
    let mut plan = ArrayVec::new();
    plan.push(inode_init(image, inode, DIRECTORY_KIND));
    plan.push(map_set(block));
    plan.push(init_block(image, Role::InitDir, block, DIRECTORY_MARK, inode));
    plan.push(pointer_set(inode, 0, block));
    plan.push(entry_set(image, dir, place, inode, &path.last));
    Ok(plan)
}

/// An empty directory goes with its block.
#[tactic(auto, unfolding(crash_model::specs::Plan::plan_of))]
fn rmdir<A: Allocator + Copy>(image: &Image<A>, path: &Path) -> Result<Plan, FsFault>
    ensures { MatchResult result (λ plan. plan_of image.now (Rmdir path.now) ≡ Ok plan.items) (λ fault.
        plan_of image.now (Rmdir path.now) ≡ Err fault) }
{
    let Entry { dir, place, target } = find(image, path)?;
    if image.kind(target) != DIRECTORY_KIND {
        return Err(FsFault::NotADirectory);
    }
    if has_entries(image, target) {
        return Err(FsFault::NotEmpty);
    }
    let mut plan = ArrayVec::new();
    plan.push(entry_clear(image, dir, place));
    plan.push(inode_free(image, target));
    add_map_clear(image, target, 0, &mut plan);
    Ok(plan)
}
