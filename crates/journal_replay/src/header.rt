//! Headers of transactions.

ghost use Rattle.std.specs.Prelude.{◌≡◌, ◌<◌, length, false, MatchOption};
ghost use Rattle.std.specs.List.{list_all};
ghost use Rattle.crash_model.specs.Disk.{block_of};
ghost use Rattle.crash_model.specs.Replay.{is_ascending, is_header, is_target};
ghost use Rattle.journal_replay.specs.Header.{IsHeaderAt};

use crash_model::disk_bytes::{BLOCK_SIZE, COMMITTED_MARK, DONE_MARK, JOURNAL_AT, MOST_TARGETS};
use disk_image::Image;
use std::alloc::Allocator;
use std::marker::Model;

/// The header of a transaction. Contracts see whether it is committed, and its targets.
#[derive(Drop)]
pub struct Header {
    committed: bool,
    count: usize,
    /// The eight bytes after the count, of which the first are the targets. All of them are copied at once, which is
    /// faster than copying only the targets.
    numbers: [u8; MOST_TARGETS],
}

impl Model for Header {
    ghost use Rattle.std.specs.Prelude.{◌≤◌, take};
    ghost use Rattle.crash_model.specs.declared.disk_bytes.TheConstants.{MOST_TARGETS};
    ghost use Rattle.journal_replay.specs.Header.{Head};

    ghost Value = { Head };

    ghost view = { λ h. record { committed = h.committed; targets = take h.count h.numbers } };

    ghost invariant = { λ h. h.count ≤ MOST_TARGETS };
}

impl Header {
    /// Whether the copies may not be in place yet.
    pub fn is_committed(&self) -> bool
        ensures { result ≡ self.now.committed }
    {
        self.committed
    }

    /// The blocks that have copies after the header, ascending.
    pub fn targets(&self) -> &[u8]
        ensures { result.now ≡ self.now.targets }
    {
        &self.numbers[..self.count]
    }
}

/// The header of the transaction with this number in journal block `at`, if the block's bytes are one.
pub fn header_at<A: Allocator + Copy>(
    image: &Image<A>,
    at: usize,
    transaction: usize,
) -> Option<Header>
    requires { at < image.now.blocks }
    ensures { MatchOption result
        (is_header image.now at transaction (block_of image.now at) ≡ false)
        (IsHeaderAt image.now at transaction) }
{
    let row = image.block(at);
    if !is_header(image, row, at, transaction) {
        return None;
    }
    let mut numbers = [0; MOST_TARGETS];
    numbers.copy_from_slice(&row[3..3 + MOST_TARGETS]);
    Some(Header {
        committed: row[0] == COMMITTED_MARK,
        count: usize::from(row[2]),
        numbers,
    })
}

/// Whether a block's bytes make it the header of the transaction with this number in journal block `at`.
fn is_header<A: Allocator + Copy>(
    image: &Image<A>,
    row: &[u8],
    at: usize,
    transaction: usize,
) -> bool
    requires block { length row.now ≡ BLOCK_SIZE }
    requires inside { at < image.now.blocks }
    ensures { result ≡ is_header image.now at transaction row.now }
{
    let count = usize::from(row[2]);
    at < JOURNAL_AT + image.journal()
        && (row[0] == COMMITTED_MARK || row[0] == DONE_MARK)
        && usize::from(row[1]) == transaction
        && 1 <= count
        && count <= MOST_TARGETS
        && at + count <= 3 + image.journal()
        && is_ascending(&row[3..3 + count])
        && are_targets(image, &row[3..3 + count])
}

/// Whether each number is greater than the one before it.
fn is_ascending(numbers: &[u8]) -> bool
    ensures { result ≡ is_ascending numbers.now }
{
    for i in 1..numbers.len() {
        if numbers[i - 1] >= numbers[i] {
            return false;
        }
    }
    true
}

/// Whether a transaction may change all of the blocks.
fn are_targets<A: Allocator + Copy>(image: &Image<A>, blocks: &[u8]) -> bool
    ensures { result ≡ list_all (is_target image.now) blocks.now }
{
    blocks.iter().all(|block| is_target(image, *block))
}

/// Whether a transaction may change the block: one with the map or inodes, or one of the data area.
fn is_target<A: Allocator + Copy>(image: &Image<A>, block: u8) -> bool
    ensures { result ≡ is_target image.now block }
{
    1 <= block && block <= 3 || image.is_data(block)
}
