//! What paths show.

ghost use Rattle.std.specs.Prelude.{◌≡◌, ◌+◌, ◌*◌, ◌<◌, [], ◌∷◌, Some, slice_range, IsTrue, IfSome};
ghost use Rattle.crash_model.specs.Layout.{is_data};
ghost use Rattle.crash_model.specs.Paths.{slot_shown, file_shown, inode_shown, path_shows, names_of, end_of};
ghost use Rattle.crash_model.specs.Promises.{paths_show, way_shows};

use crate::lookup::{child, end_of};
use crash_model::disk_bytes::{DIRECTORY_KIND, INODES, SHOWN_BYTES, SLOTS};
use crash_model::names::{Name, Path};
use crash_model::promises::{Paths, Shows};
use crash_model::showing::{Shown, ShownSlot};
use disk_image::Image;
use std::alloc::Allocator;

/// What a path shows. It takes no memory.
#[tactic(auto, unfolding(crash_model::specs::Paths::path_shows, crash_model::specs::Paths::names_show))]
pub fn path_shows<A: Allocator + Copy>(image: &Image<A>, path: &Path) -> Shown
    ensures { result ≡ path_shows image.now path.now }
{
    inode_shows(image, end_of(image, path))
}

/// What several paths show, in their order. It takes no memory.
pub fn paths_show<A: Allocator + Copy>(image: &Image<A>, paths: &Paths) -> Shows
    ensures { result.items ≡ paths_show image.now paths.now.items }
{
    let mut shows = Shows::new();
    for path in paths.as_slice() {
        shows.push(path_shows(image, path));
    }
    shows
}

/// What the directories on the way of a path show, and the path itself, in the order of its names.
pub fn way_shows<A: Allocator + Copy>(image: &Image<A>, path: &Path) -> Shows
    ensures { result.items ≡ way_shows image.now (names_of path.now) }
{
    let mut shows = Shows::new();
    let mut inode = Some(0);
    for name in path.through.as_slice() {
        inode = after(image, inode, name);
        shows.push(inode_shows(image, inode));
    }
    shows.push(inode_shows(image, after(image, inode, &path.last)));
    shows
}

/// Where one more name leads.
fn after<A: Allocator + Copy>(image: &Image<A>, inode: Option<u8>, name: &Name) -> Option<u8>
    requires { IfSome inode (λ i. i < INODES) }
    ensures value { result ≡ end_of image.now inode (name.now ∷ []) }
    ensures within { IfSome result (λ i. i < INODES) }
{
    match inode {
        Some(dir) => child(image, dir, name),
        None => None,
    }
}

/// What is shown where names lead to a live inode, or nowhere.
fn inode_shows<A: Allocator + Copy>(image: &Image<A>, inode: Option<u8>) -> Shown
    requires { IfSome inode (λ i. i < INODES) }
    ensures { result ≡ inode_shown image.now inode }
{
    let Some(inode) = inode else {
        return Shown::Nothing;
    };
    if image.kind(inode) == DIRECTORY_KIND {
        if image.counts(inode) {
            Shown::Directory
        } else {
            Shown::Nothing
        }
    } else {
        file_shows(image, inode)
    }
}

/// What the slots of an inode show.
fn file_shows<A: Allocator + Copy>(image: &Image<A>, inode: u8) -> Shown
    requires { inode < INODES }
    ensures { result ≡ file_shown image.now inode }
{
    Shown::File([
        slot_shows(image, inode, 0),
        slot_shows(image, inode, 1),
        slot_shows(image, inode, 2),
        slot_shows(image, inode, 3),
    ])
}

/// What a slot of an inode shows.
fn slot_shows<A: Allocator + Copy>(image: &Image<A>, inode: u8, slot: u8) -> ShownSlot
    requires inode { inode < INODES }
    requires slot { slot < SLOTS }
    ensures { result ≡ slot_shown image.now inode slot }
{
    let block = image.pointer(inode, slot);
    if block == 0 {
        ShownSlot::Hole
    } else if image.is_data(block) {
        ShownSlot::Begins(first_bytes(image, block))
    } else {
        ShownSlot::Wild
    }
}

/// How a block begins.
fn first_bytes<A: Allocator + Copy>(image: &Image<A>, block: u8) -> [u8; SHOWN_BYTES]
    requires { IsTrue (is_data image.now block) }
    ensures { result ≡ slice_range image.now.bytes (128 * block) (128 * block + SHOWN_BYTES) }
{
    let bytes = image.block(usize::from(block));
    [bytes[0], bytes[1], bytes[2], bytes[3]]
}
