//! The changes that operations are made of, one by one: which bytes go where.

ghost use Rattle.std.specs.Prelude.{◌≡◌, ◌<◌, ◌≤◌, ◌+◌, ◌-◌, ◌*◌, ◌++◌, length, replicate};
ghost use Rattle.crash_model.specs.Names.{IsName};
ghost use Rattle.crash_model.specs.Plan.{at_inode, inode_init, inode_free, link_count, pointer_set, entry_set};
ghost use Rattle.crash_model.specs.Plan.{entry_clear, map_set, map_clear, init_block, new_data, touch, pointers_clear};
ghost use Rattle.crash_model.specs.Generations.{next_generation};

use arrayvec::ArrayVec;
use crash_model::disk_bytes::{
    BLOCK_SIZE, DATA_FROM, ENTRIES, ENTRY_SIZE, INODE_SIZE, INODES, POINTERS_FROM, SLOTS,
    TOUCHED_FROM,
};
use crash_model::names::Name;
use crash_model::plans::{Change, Role};
use disk_image::{Image, entry_offset, inode_place};
use std::alloc::Allocator;

fn add_all(bytes: &mut ArrayVec<u8, BLOCK_SIZE>, more: &[u8])
    requires { length bytes.old.items + length more.now ≤ BLOCK_SIZE }
    ensures { bytes.new.items ≡ bytes.old.items ++ more.now }
{
    for x in more {
        bytes.push(*x);
    }
}

fn add_zeros(bytes: &mut ArrayVec<u8, BLOCK_SIZE>, count: usize)
    requires { length bytes.old.items + count ≤ BLOCK_SIZE }
    ensures { bytes.new.items ≡ bytes.old.items ++ replicate count 0 }
{
    for _i in 0..count {
        bytes.push(0);
    }
}

/// The bytes, followed by `zeros` zeros.
fn with_zeros(bytes: &[u8], zeros: usize) -> ArrayVec<u8, BLOCK_SIZE>
    requires { length bytes.now + zeros ≤ BLOCK_SIZE }
    ensures { result.items ≡ bytes.now ++ replicate zeros 0 }
{
    let mut all = ArrayVec::new();
    add_all(&mut all, bytes);
    add_zeros(&mut all, zeros);
    all
}

/// New bytes of an inode, from its byte `from` on.
fn at_inode(role: Role, inode: u8, from: u8, new: ArrayVec<u8, BLOCK_SIZE>) -> Change
    requires inode { inode < INODES }
    requires from { from < INODE_SIZE }
    ensures { result ≡ at_inode role inode from new.items }
{
    let (block, offset) = inode_place(inode);
    Change {
        block,
        offset: offset + from,
        new,
        role,
    }
}

/// A new inode of a kind, with one link and no block. It keeps its generation.
pub fn inode_init<A: Allocator + Copy>(image: &Image<A>, inode: u8, kind: u8) -> Change
    requires { inode < INODES }
    ensures { result ≡ inode_init image.now inode kind }
{
    let first = [kind, 1, image.generation(inode)];
    at_inode(
        Role::InodeInit,
        inode,
        0,
        with_zeros(&first, INODE_SIZE - 3),
    )
}

/// An inode that is free again, of the next generation.
pub fn inode_free<A: Allocator + Copy>(image: &Image<A>, inode: u8) -> Change
    requires { inode < INODES }
    ensures { result ≡ inode_free image.now inode }
{
    let first = [0, 0, next_generation(image, inode)];
    at_inode(
        Role::InodeFree,
        inode,
        0,
        with_zeros(&first, INODE_SIZE - 3),
    )
}

/// The generation after that of an inode; 0 on a disk without generations.
#[tactic(auto, unfolding(crash_model::specs::Generations::next_generation))]
fn next_generation<A: Allocator + Copy>(image: &Image<A>, inode: u8) -> u8
    requires { inode < INODES }
    ensures { result ≡ next_generation image.now inode }
{
    if !image.has_generations() {
        return 0;
    }
    image.generation(inode).wrapping_add(1)
}

/// Another link count, for the role `LinkUp` or `LinkDown`.
pub fn link_count(role: Role, inode: u8, links: u8) -> Change
    requires { inode < INODES }
    ensures { result ≡ link_count role inode links }
{
    at_inode(role, inode, 1, with_zeros(&[links], 0))
}

/// A slot of an inode that names a block.
pub fn pointer_set(inode: u8, slot: u8, block: u8) -> Change
    requires inode { inode < INODES }
    requires slot { slot < SLOTS }
    ensures { result ≡ pointer_set inode slot block }
{
    at_inode(
        Role::Ptr,
        inode,
        POINTERS_FROM + slot,
        with_zeros(&[block], 0),
    )
}

/// Entry `k` of a directory with a name that leads to an inode.
pub fn entry_set<A: Allocator + Copy>(
    image: &Image<A>,
    dir: u8,
    k: u8,
    inode: u8,
    name: &Name,
) -> Change
    requires dir { dir < INODES }
    requires k { k < ENTRIES }
    requires inode { inode < INODES }
    ensures change { result ≡ entry_set image.now dir k inode name.now }
    ensures name { IsName name.now }
{
    let mut new = with_zeros(&[inode + 1], 0);
    add_all(&mut new, name.spelled().as_slice());
    Change {
        block: image.pointer(dir, 0),
        offset: entry_offset(k),
        new,
        role: Role::EntrySet,
    }
}

/// Entry `k` of a directory, free again.
pub fn entry_clear<A: Allocator + Copy>(image: &Image<A>, dir: u8, k: u8) -> Change
    requires dir { dir < INODES }
    requires k { k < ENTRIES }
    ensures { result ≡ entry_clear image.now dir k }
{
    Change {
        block: image.pointer(dir, 0),
        offset: entry_offset(k),
        new: with_zeros(&[], ENTRY_SIZE as usize),
        role: Role::EntryClear,
    }
}

/// A block that the allocation map has as in use.
pub fn map_set(block: u8) -> Change
    ensures { result ≡ map_set block }
{
    Change {
        block: 1,
        offset: block,
        new: with_zeros(&[1], 0),
        role: Role::MapSet,
    }
}

/// A block that the allocation map has as free.
pub fn map_clear(block: u8) -> Change
    ensures { result ≡ map_clear block }
{
    Change {
        block: 1,
        offset: block,
        new: with_zeros(&[0], 0),
        role: Role::MapClear,
    }
}

/// A whole block with nothing but its mark, its owner and the owner's generation, for the role `InitFile` or `InitDir`.
pub fn init_block<A: Allocator + Copy>(
    image: &Image<A>,
    role: Role,
    block: u8,
    mark: u8,
    inode: u8,
) -> Change
    requires { inode < INODES }
    ensures { result ≡ init_block image.now role block mark inode }
{
    let first = [mark, inode, image.generation(inode)];
    Change {
        block,
        offset: 0,
        new: with_zeros(&first, BLOCK_SIZE - 3),
        role,
    }
}

/// The data of a block anew: one of its bytes stands for them, and is one more.
pub fn new_data<A: Allocator + Copy>(image: &Image<A>, block: u8) -> Change
    requires { block < image.now.blocks }
    ensures { result ≡ new_data image.now block }
{
    let data = image.byte(block as usize, DATA_FROM as usize);
    Change {
        block,
        offset: DATA_FROM,
        new: with_zeros(&[data.wrapping_add(1)], 0),
        role: Role::NewData,
    }
}

/// An inode whose file's data are written anew: one of its bytes is one more.
pub fn touch<A: Allocator + Copy>(image: &Image<A>, inode: u8) -> Change
    requires { inode < INODES }
    ensures { result ≡ touch image.now inode }
{
    let touched = image.touched(inode);
    at_inode(
        Role::Touch,
        inode,
        TOUCHED_FROM,
        with_zeros(&[touched.wrapping_add(1)], 0),
    )
}

/// An inode with no pointer.
pub fn pointers_clear(inode: u8) -> Change
    requires { inode < INODES }
    ensures { result ≡ pointers_clear inode }
{
    at_inode(
        Role::PtrClear,
        inode,
        POINTERS_FROM,
        with_zeros(&[], SLOTS as usize),
    )
}
