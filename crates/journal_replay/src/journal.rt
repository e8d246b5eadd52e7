//! The walk over the headers.

ghost use Rattle.std.specs.Prelude.{◌≡◌, ℕ, ◌+◌, ◌<◌, ◌≤◌, length, slice_index};
ghost use Rattle.std.specs.List.{All};
ghost use Rattle.patch_sets.specs.Sets.{Has, IsSubset};
ghost use Rattle.crash_model.specs.Disk.{block_of, IsDisk};
ghost use Rattle.crash_model.specs.Replay.{image_after_replay};
ghost use Rattle.journal_replay.specs.Changed.{DifferAtMost};
ghost use Rattle.journal_replay.specs.Walk.{with_copies};

use crate::header::header_at;
use crash_model::disk_bytes::{JOURNAL_AT, MOST_BLOCKS};
use disk_image::Image;
use patch_sets::set::with;
use std::alloc::Allocator;

/// Replays the journal: each block becomes its last committed copy that is not known to be in place, if it has one.
///
/// It is defined on every image, takes no memory, and writes no block of the journal. The result has the numbers of
/// the blocks that it wrote, as a set of patches has ids: all others are as they were.
pub fn replay<A: Allocator + Copy>(image: &mut Image<A>) -> u128
    ensures replayed { image.new ≡ image_after_replay image.old }
    ensures journal { (block : ℕ) → JOURNAL_AT ≤ block → block < JOURNAL_AT + image.old.journal
        → block_of image.new block ≡ block_of image.old block }
    ensures others { DifferAtMost result image.old image.new }
{
    let mut at = JOURNAL_AT;
    let mut transaction = 1;
    let mut written = 0;
    let _journal = image.journal();
    while let Some(header) = header_at(image, at, transaction) {
        let targets = header.targets();
        if header.is_committed() {
            copy_blocks(image, at + 1, targets);
            written = with_all(written, targets);
        }
        at += 1 + targets.len();
        transaction += 1;
    }
    written
}

/// A set with more blocks.
fn with_all(set: u128, blocks: &[u8]) -> u128
    requires { All (λ block. block < 128) blocks.now }
    ensures old { IsSubset set result }
    ensures more { (k : ℕ) → k < length blocks.now → Has result (slice_index blocks.now k) }
{
    let mut all = set;
    for block in blocks {
        all = with(all, usize::from(*block));
    }
    all
}

/// Copies the blocks from `first` on over the targets, in order.
fn copy_blocks<A: Allocator + Copy>(image: &mut Image<A>, first: usize, targets: &[u8])
    requires few { image.old.blocks ≤ MOST_BLOCKS }
    requires from { first + length targets.now ≤ image.old.blocks }
    requires to { All (λ target. target < image.old.blocks) targets.now }
    ensures { image.new ≡ with_copies image.old first targets.now }
{
    for (m, target) in targets.iter().enumerate() {
        image.copy_block(first + m, usize::from(*target));
    }
}
