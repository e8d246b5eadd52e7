//! The patches of an operation, by its ordering.

ghost use Rattle.std.specs.Prelude.{◌≡◌, ◌+◌, ◌<◌, ◌≤◌, ◌==◌, [], ◌∷◌, length, map, OnOk};
ghost use Rattle.std.specs.List.{All, list_any};
ghost use Rattle.crash_model.specs.declared.disk_bytes.TheConstants.{COMMITTED_MARK, DONE_MARK};
ghost use Rattle.crash_model.specs.Trace.{in_place_patch, part_of, copies, data_part};
ghost use Rattle.crash_model.specs.declared.rules.Part.TheVariants as part;
ghost use Rattle.inode_fs.specs.Inside.{LiesInside};
ghost use Rattle.traced_patches.specs.Labels.{origin_by};
ghost use Rattle.order_modules.specs.Log.{Adds, Keeps};
ghost use Rattle.order_modules.specs.Transactions.{is_ahead, changes_ahead, changes_in_place, file_data};
ghost use Rattle.order_modules.specs.Transactions.{targets_of, transaction_of};

use crate::log::PatchLog;
use arrayvec::ArrayVec;
use crash_model::disk_bytes::{BLOCK_SIZE, COMMITTED_MARK, DONE_MARK, MOST_BLOCKS};
use crash_model::modules::Module;
use crash_model::plans::{Change, Role};
use crash_model::rules::Part;
use disk_image::Image;
use patch_graph::MAX_PATCHES;
use std::alloc::{AllocError, Allocator};
use traced_patches::{Label, Origin};

/// Whether a change is file data, which the metadata journal writes ahead of the transaction.
pub fn is_ahead(module: Module, change: &Change) -> bool
    ensures { result ≡ is_ahead «module» change.now }
{
    module == Module::Meta && matches!(change.role, Role::InitFile | Role::NewData)
}

/// What the patch of file data is that goes ahead of its transaction.
fn data_part(role: Role) -> Part
    ensures { result ≡ data_part role }
{
    match role {
        Role::NewData => Part::NewData,
        _ => Part::FileData,
    }
}

/// The blocks that a transaction has copies of, ascending: those that its changes in place touch.
pub fn touched(module: Module, blocks: usize, changes: &[Change]) -> ArrayVec<u8, BLOCK_SIZE>
    requires { blocks ≤ MOST_BLOCKS }
    ensures { result.items ≡ targets_of «module» blocks changes.now }
{
    let mut targets = ArrayVec::new();
    for block in 0..blocks {
        if is_touched(module, block, changes) {
            targets.push(block as u8);
        }
    }
    targets
}

/// Whether a change in place is in the block.
fn is_touched(module: Module, block: usize, changes: &[Change]) -> bool
    ensures { result ≡ list_any (λ c. c.block == block) (changes_in_place «module» changes.now) }
{
    for change in changes {
        if usize::from(change.block) == block && !is_ahead(module, change) {
            return true;
        }
    }
    false
}

/// A transaction of the journal: the number of its operation, from 1, where that comes from, and the journal block of
/// its header.
#[derive(Clone, Copy)]
pub struct Transaction<'a> {
    pub op_number: usize,
    pub origin: Origin<'a>,
    pub header: u8,
}

impl<'a> Transaction<'a> {
    /// The label of one of its patches.
    fn label(&self, part: Part) -> Label<'a>
        ensures { result ≡ record { part = part; op_number = self.now.op_number; origin = self.now.origin } }
    {
        Label {
            part,
            op_number: self.op_number,
            origin: self.origin,
        }
    }
}

impl<'a, A: Allocator + Copy> PatchLog<'a, A> {
    /// Adds the patches of a transaction; `after` is the disk after it.
    ///
    /// They are its file data, the copies of the targets, the commit, the changes in place, and done.
    pub fn emit_transaction(
        &mut self,
        transaction: Transaction<'a>,
        after: &Image<A>,
        targets: &[u8],
        changes: &[Change],
    ) -> Result<(), AllocError>
        requires op_number { transaction.op_number < 256 }
        requires few { self.old.base.blocks ≤ MOST_BLOCKS }
        requires inside { All (LiesInside self.old.base.blocks) changes.now }
        requires journal { transaction.header + 1 + length targets.now ≤ self.old.base.blocks }
        requires known { All (λ target. target < after.now.blocks) targets.now }
        requires room { length self.old.emitted + (length changes.now + length targets.now + 2) ≤ MAX_PATCHES }
        ensures ok { OnOk result (Adds self.old self.new
            (transaction_of self.old.kind after.now transaction.entry.op_number transaction.entry.header
            (origin_by transaction.entry.origin) targets.now changes.now)) }
        ensures kept { Keeps self.old self.new }
    {
        let Transaction {
            op_number,
            origin,
            ..
        } = transaction;
        self.emit_file_data(op_number, origin, changes)?;
        self.emit_copies(transaction, after, targets)?;
        self.emit_commit(transaction, targets)?;
        self.emit_in_place(op_number, origin, changes)?;
        self.emit_done(transaction)
    }

    /// Adds the file data that go ahead of a transaction.
    fn emit_file_data(
        &mut self,
        op_number: usize,
        origin: Origin<'a>,
        changes: &[Change],
    ) -> Result<(), AllocError>
        requires inside { All (LiesInside self.old.base.blocks) changes.now }
        requires room { length self.old.emitted + length (changes_ahead self.old.kind changes.now) ≤ MAX_PATCHES }
        ensures ok { OnOk result (Adds self.old self.new
            (map (file_data op_number (origin_by origin.entry)) (changes_ahead self.old.kind changes.now))) }
        ensures kept { Keeps self.old self.new }
    {
        for change in changes {
            if is_ahead(self.module(), change) {
                let label = Label {
                    part: data_part(change.role),
                    op_number,
                    origin,
                };
                self.emit(label, change.block, change.offset, change.new.as_slice())?;
            }
        }
        Ok(())
    }

    /// Adds the copies of the targets, in the journal blocks after the header.
    fn emit_copies(
        &mut self,
        transaction: Transaction<'a>,
        after: &Image<A>,
        targets: &[u8],
    ) -> Result<(), AllocError>
        requires few { self.old.base.blocks ≤ MOST_BLOCKS }
        requires journal { transaction.header + 1 + length targets.now ≤ self.old.base.blocks }
        requires known { All (λ target. target < after.now.blocks) targets.now }
        requires room { length self.old.emitted + length targets.now ≤ MAX_PATCHES }
        ensures ok { OnOk result (Adds self.old self.new
            (copies after.now transaction.entry.op_number (transaction.entry.header + 1)
            (origin_by transaction.entry.origin) targets.now)) }
        ensures kept { Keeps self.old self.new }
    {
        let mut block = transaction.header + 1;
        for target in targets {
            let label = transaction.label(Part::Copy);
            self.emit(label, block, 0, after.block(usize::from(*target)))?;
            block += 1;
        }
        Ok(())
    }

    /// Adds the header that commits the transaction.
    fn emit_commit(
        &mut self,
        transaction: Transaction<'a>,
        targets: &[u8],
    ) -> Result<(), AllocError>
        requires op_number { transaction.op_number < 256 }
        requires block { transaction.header < self.old.base.blocks }
        requires fits { length targets.now ≤ 125 }
        requires room { length self.old.emitted < MAX_PATCHES }
        ensures ok { OnOk result (Adds self.old self.new
            (part_of transaction.entry.op_number
            (origin_by transaction.entry.origin) part.Commit transaction.entry.header 0
            (COMMITTED_MARK ∷ transaction.entry.op_number ∷ length targets.now ∷ targets.now) ∷ [])) }
        ensures kept { Keeps self.old self.new }
    {
        let mut bytes: ArrayVec<u8, BLOCK_SIZE> = ArrayVec::new();
        bytes.push(COMMITTED_MARK);
        bytes.push(transaction.op_number as u8);
        bytes.push(targets.len() as u8);
        for target in targets {
            bytes.push(*target);
        }
        self.emit(
            transaction.label(Part::Commit),
            transaction.header,
            0,
            bytes.as_slice(),
        )
    }

    /// Adds the changes in place, except file data that went ahead.
    pub fn emit_in_place(
        &mut self,
        op_number: usize,
        origin: Origin<'a>,
        changes: &[Change],
    ) -> Result<(), AllocError>
        requires inside { All (LiesInside self.old.base.blocks) changes.now }
        requires room { length self.old.emitted + length (changes_in_place self.old.kind changes.now) ≤ MAX_PATCHES }
        ensures ok { OnOk result (Adds self.old self.new
            (map (in_place_patch op_number (origin_by origin.entry)) (changes_in_place self.old.kind changes.now))) }
        ensures kept { Keeps self.old self.new }
    {
        for change in changes {
            if !is_ahead(self.module(), change) {
                let label = Label {
                    part: Part::InPlace(change.role),
                    op_number,
                    origin,
                };
                self.emit(label, change.block, change.offset, change.new.as_slice())?;
            }
        }
        Ok(())
    }

    /// Adds the mark that all is in place.
    fn emit_done(&mut self, transaction: Transaction<'a>) -> Result<(), AllocError>
        requires block { transaction.header < self.old.base.blocks }
        requires room { length self.old.emitted < MAX_PATCHES }
        ensures ok { OnOk result (Adds self.old self.new
            (part_of transaction.entry.op_number (origin_by transaction.entry.origin) part.Done transaction.entry.header
            0
            (DONE_MARK ∷ []) ∷ [])) }
        ensures kept { Keeps self.old self.new }
    {
        self.emit(
            transaction.label(Part::Done),
            transaction.header,
            0,
            &[DONE_MARK],
        )
    }
}
