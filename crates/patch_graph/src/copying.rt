//! Copies of patches.

ghost use Rattle.std.specs.Prelude.{◌≡◌, IfOk};

use arrayvec::ArrayVec;
use crash_model::disk_bytes::BLOCK_SIZE;
use crash_model::patches::Patch;
use std::alloc::{AllocError, Allocator};

/// The same patches in memory of their own. It fails only when out of memory.
pub(crate) fn patches_copy<A: Allocator>(
    alloc: A,
    patches: &[Patch],
) -> Result<Vec<Patch, A>, AllocError>
    ensures { IfOk result (λ copy. copy.items ≡ patches.now) }
{
    let mut copy = Vec::with_capacity(alloc, patches.len())?;
    for patch in patches {
        copy.push(patch_copy(patch))?;
    }
    Ok(copy)
}

/// A copy of a patch.
fn patch_copy(patch: &Patch) -> Patch
    ensures { result ≡ patch.now }
{
    Patch {
        block: patch.block,
        offset: patch.offset,
        new: bytes_copy(&patch.new),
        undo: bytes_copy(&patch.undo),
        deps: patch.deps,
    }
}

/// A copy of bytes of a block.
fn bytes_copy(bytes: &ArrayVec<u8, BLOCK_SIZE>) -> ArrayVec<u8, BLOCK_SIZE>
    ensures { result ≡ bytes.now }
{
    let mut copy = ArrayVec::new();
    let Ok(()) = copy.try_extend_from_slice(bytes.as_slice()) else {
        unreachable!();
    };
    copy
}
