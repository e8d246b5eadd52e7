//! Where replay finds each block, by bytes that the images of a family share.

ghost use Rattle.std.specs.Prelude.{◌≡◌, ◌≢◌, ◌⊎◌, ℕ, ◌+◌, ◌<◌, ◌≤◌, ◌↔◌, length, slice_index, true, false, IfOk};
ghost use Rattle.std.specs.Prelude.{IfErr, Ok, Err};
ghost use Rattle.std.specs.List.{All};
ghost use Rattle.known_bytes.specs.Family.{IsUndecided};
ghost use Rattle.known_bytes.specs.Reading.{AreHomes};
ghost use Rattle.known_bytes.specs.Headers.{AreSet, AreAdded, AreNoted, IsAmong};

use crate::answers::both;
use crate::bytes::KnownBytes;
use crate::headers::may_have;
use crash_model::disk_bytes::{COMMITTED_MARK, JOURNAL_AT};
use patch_sets::set::with;
use std::alloc::Allocator;

/// For each block the ones of the image where it may be read.
#[derive(Drop)]
pub(crate) struct Homes {
    /// For each block one of them.
    pub(crate) blocks: [u8; 128],
    /// For each block the others; none if it is known.
    pub(crate) others: [u128; 128],
    /// For each block with others, an undecided patch on which its place depends.
    pub(crate) asks: [u8; 128],
}

impl Homes {
    /// Each block is read at its own place.
    pub(crate) fn own() -> Homes
        ensures own { (block : ℕ) → block < 128 → slice_index result.blocks block ≡ block }
        ensures settled { (block : ℕ) → slice_index result.others block ≡ 0 }
    {
        Homes {
            blocks: own_blocks(),
            others: [0; 128],
            asks: [0; 128],
        }
    }

    /// Has the targets of a header read from the blocks from `first` on, if replay copies them. If that is not known,
    /// they may be read there too, and the place depends on the patch.
    fn note(&mut self, first: usize, targets: &[u8], copied: Result<bool, usize>)
        requires few { first + length targets.now ≤ 128 }
        requires known { All (λ target. target < 128) targets.now }
        requires patch { IfErr copied (λ id. id < 128) }
        ensures noted { AreNoted copied self.old.blocks self.old.others self.new.blocks self.new.others first
            targets.now }
        ensures asks { (block : ℕ) → slice_index self.new.others block ≢ 0
            → ((slice_index self.old.others block ≢ 0)
            × (slice_index self.new.asks block ≡ slice_index self.old.asks block))
            ⊎ (copied ≡ Err (slice_index self.new.asks block)) }
    {
        match copied {
            Ok(true) => {
                set_homes(&mut self.blocks, first, targets);
                settle(&mut self.others, targets);
            }
            Ok(false) => {}
            Err(id) => {
                add_homes(&mut self.others, first, targets);
                ask(&mut self.asks, targets, id as u8);
            }
        }
    }
}

impl<'a, A: Allocator + Copy> KnownBytes<'a, A> {
    /// For each block the ones where replay may find it: its last committed copy, copies that may or may not be the
    /// last one, and the block itself if it may have none.
    ///
    /// Each header is asked whether it is there; none need be known. Of a block whose home depends on several patches
    /// the first of these is named: of its last transaction the commit, then the commits before it, the earliest first,
    /// and then whether it is done. An error is a patch on which a header depends.
    pub(crate) fn homes(&self) -> Result<Homes, usize>
        ensures ok { IfOk result (λ homes. AreHomes (record { family = self.now; replayed = true })
            homes.blocks homes.others homes.asks) }
        ensures err { IfErr result (IsUndecided self.now) }
    {
        let end = JOURNAL_AT + self.base().journal();
        let mut homes = Homes::own();
        let mut at = 4;
        let mut transaction = 1;
        let mut comes = Ok(true);
        while at < end {
            let Some(targets) = self.targets(at)? else {
                return Ok(homes);
            };
            if !may_have(self.base(), at, &targets) {
                return Ok(homes);
            }
            let is_there = self.has_header(at, transaction, &targets);
            if is_there == Ok(false) {
                return Ok(homes);
            }
            let is_read = both(is_there, comes);
            let copied = both(is_read, self.byte_is(at, 0, COMMITTED_MARK));
            homes.note(at + 1, &targets, copied);
            comes = both(comes, is_there);
            at += 1 + targets.len();
            transaction += 1;
        }
        Ok(homes)
    }
}

/// Each block by its number.
fn own_blocks() -> [u8; 128]
    ensures { (block : ℕ) → block < 128 → slice_index result block ≡ block }
{
    let mut blocks = [0; 128];
    for block in 0..128u8 {
        blocks[usize::from(block)] = block;
    }
    blocks
}

/// Has the targets read from the blocks from `first` on.
fn set_homes(homes: &mut [u8; 128], first: usize, targets: &[u8])
    requires few { first + length targets.now ≤ 128 }
    requires known { All (λ target. target < 128) targets.now }
    ensures { AreSet homes.old homes.new first targets.now }
{
    let mut m = targets.len();
    while m > 0 {
        m -= 1;
        homes[usize::from(targets[m])] = (first + m) as u8;
    }
}

/// Leaves the targets no other homes.
fn settle(others: &mut [u128; 128], targets: &[u8])
    requires { All (λ target. target < 128) targets.now }
    ensures settled { (block : ℕ) → IsAmong targets.now (length targets.now) block → slice_index others.new block ≡ 0 }
    ensures kept { (block : ℕ) → IsAmong targets.now (length targets.now) block
        ⊎ (slice_index others.new block ≡ slice_index others.old block) }
{
    for block in targets {
        others[usize::from(*block)] = 0;
    }
}

/// Gives each target another home, from the block `first` on.
fn add_homes(others: &mut [u128; 128], first: usize, targets: &[u8])
    requires few { first + length targets.now ≤ 128 }
    requires known { All (λ target. target < 128) targets.now }
    ensures { AreAdded others.old others.new first targets.now (length targets.now) }
{
    for m in 0..targets.len() {
        let block = usize::from(targets[m]);
        others[block] = with(others[block], first + m);
    }
}

/// Notes that the place of each of the blocks depends on a patch.
fn ask(asks: &mut [u8; 128], blocks: &[u8], id: u8)
    requires { All (λ block. block < 128) blocks.now }
    ensures new { (block : ℕ) → IsAmong blocks.now (length blocks.now) block → slice_index asks.new block ≡ id }
    ensures kept { (block : ℕ) → IsAmong blocks.now (length blocks.now) block
        ⊎ (slice_index asks.new block ≡ slice_index asks.old block) }
{
    for block in blocks {
        asks[usize::from(*block)] = id;
    }
}
