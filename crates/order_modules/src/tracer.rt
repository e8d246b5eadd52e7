//! The trace of a script: its operations, in order, turned into patches.

ghost use Rattle.std.specs.Prelude.{◌≡◌, ◌<◌, ◌^◌, Ok, IfOk, OnOk, All};
ghost use Rattle.crash_model.specs.Trace.{trace_of_plan, trace_from, IsGraphOf};
ghost use Rattle.crash_model.specs.Tracing.{Tracing, trace_start};
ghost use Rattle.crash_model.specs.Disk.{IsDisk};
ghost use Rattle.crash_model.specs.Plan.{plan_of};
ghost use Rattle.inode_fs.specs.Inside.{LiesInside, GivesName};
ghost use Rattle.order_modules.specs.Tracer.{GivesNames, Moves, RefusesAs, IsOrdered, IsJournaled};
ghost use Rattle.order_modules.specs.Transactions.{targets_of};

use crate::log::PatchLog;
use crate::transactions::{Transaction, touched};
use arrayvec::ArrayVec;
use crash_model::disk_bytes::{BLOCK_SIZE, JOURNAL_AT};
use crash_model::modules::Module;
use crash_model::names::GroupName;
use crash_model::operations::Op;
use crash_model::orderings::Ordering;
use crash_model::plans::Plan;
use crash_model::refusals::TraceFault;
use crash_model::steps::Step;
use disk_image::Image;
use inode_fs::{apply, plan};
use std::alloc::{AllocError, Allocator};
use std::marker::Model;
use traced_patches::{Origin, Traced, Wait};

/// The patches of the steps, over this image, under an ordering; or the first refused step.
///
/// Each operation is planned on the image after those before it. Its patches carry as undo data the bytes that they
/// replace, in the image after all patches before them. They depend on each earlier patch of an overlapping range, on
/// the patches of groups by the script's `depend` lines, and on those that a rule of the ordering names; if the
/// ordering writes blocks whole, they also depend on each earlier patch of their block. A step is refused by the
/// operation itself, by a full journal, by too many patches (the graph holds 124), or by the rules of groups: a group
/// is opened once and only while none is open, `depend b a` takes an ended group a and a group b, not a, that has no
/// patch. It also fails when out of memory.
///
/// Under the full journal with all its rules, and with any others put in, from a sound image whose journal is zero,
/// replay recovers from every crash: `what_is_traced_is_safe` of `full_journal_laws`.
pub fn trace<'a, A: Allocator + Copy>(
    alloc: A,
    image: &'a Image<A>,
    steps: &'a [Step],
    ordering: &'a Ordering,
) -> Result<Traced<'a, A>, TraceFault>
    ensures ok { IfOk result (λ t. (s : Tracing)
        × (trace_from ordering.now.«module» (trace_start ordering.now.whole_blocks image.now) steps.now ≡ Ok s)
        × IsGraphOf ordering.now.rules.items image.now s t.patches × (t.emitted ≡ s.emitted) × (t.links ≡ s.links)
        × (t.whole ≡ s.whole) × (t.waits ≡ s.waits)) }
    ensures rules { IfOk result (λ t. t.rules ≡ ordering.now.rules.items) }
    ensures whole { IfOk result (λ t. t.whole ≡ ordering.now.whole_blocks) }
    ensures refused { RefusesAs result
        (trace_from ordering.now.«module» (trace_start ordering.now.whole_blocks image.now) steps.now) }
    ensures fits { IfOk result (λ t. All (λ patch. patch.block < image.now.blocks) t.patches) }
    ensures names { IfOk result (λ _. All GivesNames steps.now) }
{
    let mut tracer = Tracer::new(alloc, image, ordering)?;
    for step in steps {
        tracer.step(step)?;
    }
    Ok(tracer.into_traced())
}

/// A trace under way: the patches of some steps, to which those of later steps can be added.
#[derive(Drop)]
pub struct Tracer<'a, A: Allocator + Copy> {
    /// The image after the operations so far; the journal is as at the beginning.
    pub(crate) disk: Image<A>,
    pub(crate) log: PatchLog<'a, A>,
    /// The number of the next operation, from 1, and the next free journal block.
    pub(crate) op_number: usize,
    pub(crate) next: usize,
    /// The open group, the groups that were opened, and those that have ended.
    pub(crate) current: Option<&'a GroupName>,
    pub(crate) opened: Vec<&'a GroupName, A>,
    pub(crate) ended: Vec<&'a GroupName, A>,
    /// The ids that lines so far wait for, as a set.
    pub(crate) forced: u128,
    /// The lines that wait.
    pub(crate) waits: Vec<Wait<'a>, A>,
}

impl<'a, A: Allocator + Copy> Model for Tracer<'a, A> {
    ghost use Rattle.order_modules.specs.Tracer.{Trace, IsTrace, names_by, trace_of};
    ghost use Rattle.traced_patches.specs.Labels.{group_by, waits_by};

    ghost Value = { Trace };

    ghost view = { λ t.
        trace_of t.log t.disk t.op_number t.next (group_by t.current) (names_by t.opened.items) (names_by t.ended.items)
        t.forced (waits_by t.waits.items) };

    ghost invariant = { λ t.
        IsTrace (trace_of t.log t.disk t.op_number t.next (group_by t.current) (names_by t.opened.items)
        (names_by t.ended.items) t.forced (waits_by t.waits.items)) };
}

impl<'a, A: Allocator + Copy> Tracer<'a, A> {
    /// Nothing traced yet.
    pub fn new(
        alloc: A,
        base: &'a Image<A>,
        ordering: &'a Ordering,
    ) -> Result<Tracer<'a, A>, AllocError>
        ensures started { IfOk result (λ t. (t.tracing ≡ trace_start ordering.now.whole_blocks base.now)
            × (t.log.base ≡ base.now)) }
        ensures ordering { IfOk result (λ t. (t.log.kind ≡ ordering.now.«module»)
            × (t.log.rules ≡ ordering.now.rules.items) × (t.log.whole ≡ ordering.now.whole_blocks)) }
        ensures disk { IfOk result (λ _. IsDisk base.now) }
    {
        Ok(Tracer {
            disk: base.try_copy()?,
            log: PatchLog::new(alloc, base, ordering)?,
            op_number: 1,
            next: JOURNAL_AT,
            current: None,
            opened: Vec::new(alloc),
            ended: Vec::new(alloc),
            forced: 0,
            waits: Vec::new(alloc),
        })
    }

    /// The same trace in memory of its own. It fails only when out of memory.
    pub fn try_copy(&self) -> Result<Tracer<'a, A>, AllocError>
        ensures { IfOk result (λ copy. copy ≡ self.now) }
    {
        Ok(Tracer {
            disk: self.disk.try_copy()?,
            log: self.log.try_copy()?,
            op_number: self.op_number,
            next: self.next,
            current: self.current,
            opened: self.opened.clone()?,
            ended: self.ended.clone()?,
            forced: self.forced,
            waits: self.waits.clone()?,
        })
    }

    /// The patches of what was traced.
    pub fn into_traced(self) -> Traced<'a, A>
        ensures graph { IsGraphOf self.entry.log.rules self.entry.log.base self.entry.tracing result.patches }
        ensures emitted { result.emitted ≡ self.entry.tracing.emitted }
        ensures links { result.links ≡ self.entry.tracing.links }
        ensures rules { result.rules ≡ self.entry.log.rules }
        ensures whole { result.whole ≡ self.entry.log.whole }
        ensures traced { result.whole ≡ self.entry.tracing.whole }
        ensures waits { result.waits ≡ self.entry.tracing.waits }
        ensures fits { All (λ patch. patch.block < self.entry.log.base.blocks) result.patches }
    {
        let waits = self.waits;
        self.log.into_traced().with_waits(waits)
    }

    /// Does an operation: plans it, and adds its patches by the ordering module.
    pub(crate) fn operate(&mut self, line: usize, op: &'a Op) -> Result<(), TraceFault>
        requires { self.old.tracing.op_number < 2 ^ 63 }
        ensures ok { OnOk result (Moves self.old self.new
            (trace_of_plan self.old.log.kind line op.now self.old.tracing (plan_of self.old.tracing.disk op.now))) }
        ensures name { OnOk result (GivesName op.now) }
        ensures refused { RefusesAs result
            (trace_of_plan self.old.log.kind line op.now self.old.tracing (plan_of self.old.tracing.disk op.now)) }
    {
        let plan = match plan(&self.disk, op) {
            Ok(plan) => plan,
            Err(fault) => return Err(fault.at_line(line)),
        };
        self.write(line, op, &plan)
    }

    /// A copy of the trace with an operation more. An operation that cannot be planned takes no memory.
    pub(crate) fn with_operation(
        &self,
        line: usize,
        op: &'a Op,
    ) -> Result<Tracer<'a, A>, TraceFault>
        requires { self.now.tracing.op_number < 2 ^ 63 }
        ensures ok { IfOk result (λ longer. Moves self.now longer
            (trace_of_plan self.now.log.kind line op.now self.now.tracing (plan_of self.now.tracing.disk op.now))) }
        ensures name { IfOk result (λ _. GivesName op.now) }
        ensures refused { RefusesAs result
            (trace_of_plan self.now.log.kind line op.now self.now.tracing (plan_of self.now.tracing.disk op.now)) }
    {
        let plan = match plan(&self.disk, op) {
            Ok(plan) => plan,
            Err(fault) => return Err(fault.at_line(line)),
        };
        let mut longer = self.try_copy()?;
        longer.write(line, op, &plan)?;
        Ok(longer)
    }

    /// Adds the changes of an operation by the ordering module.
    fn write(&mut self, line: usize, op: &'a Op, plan: &Plan) -> Result<(), TraceFault>
        requires few { self.old.tracing.op_number < 2 ^ 63 }
        requires inside { All (LiesInside self.old.tracing.disk.blocks) plan.now.items }
        ensures ok { OnOk result (Moves self.old self.new
            (trace_of_plan self.old.log.kind line op.now self.old.tracing (Ok plan.now.items))) }
        ensures refused { RefusesAs result
            (trace_of_plan self.old.log.kind line op.now self.old.tracing (Ok plan.now.items)) }
    {
        match self.log.module() {
            Module::Async | Module::Soft => self.write_in_place(line, op, plan),
            Module::Meta | Module::Full => self.write_journaled(line, op, plan),
        }
    }

    /// Adds the changes of an operation where they belong.
    fn write_in_place(&mut self, line: usize, op: &'a Op, plan: &Plan) -> Result<(), TraceFault>
        requires order { IsOrdered self.old.log.kind }
        requires few { self.old.tracing.op_number < 2 ^ 63 }
        requires inside { All (LiesInside self.old.tracing.disk.blocks) plan.now.items }
        ensures ok { OnOk result (Moves self.old self.new
            (trace_of_plan self.old.log.kind line op.now self.old.tracing (Ok plan.now.items))) }
        ensures refused { RefusesAs result
            (trace_of_plan self.old.log.kind line op.now self.old.tracing (Ok plan.now.items)) }
    {
        if !self.log.has_room(plan.len()) {
            return Err(TraceFault::TooManyPatches { line });
        }
        let origin = Origin {
            line,
            op,
            group: self.current,
            waits_for: self.forced,
        };
        apply(&mut self.disk, plan);
        self.log
            .emit_in_place(self.op_number, origin, plan.as_slice())?;
        self.op_number += 1;
        Ok(())
    }

    /// The blocks that a transaction of the plan has copies of, ascending.
    fn touched_by(&self, plan: &Plan) -> ArrayVec<u8, BLOCK_SIZE>
        ensures { result.items ≡ targets_of self.now.log.kind self.now.tracing.disk.blocks plan.now.items }
    {
        touched(self.log.module(), self.disk.blocks(), plan.as_slice())
    }

    /// Adds the changes of an operation as a transaction of the journal.
    fn write_journaled(&mut self, line: usize, op: &'a Op, plan: &Plan) -> Result<(), TraceFault>
        requires order { IsJournaled self.old.log.kind }
        requires few { self.old.tracing.op_number < 2 ^ 63 }
        requires inside { All (LiesInside self.old.tracing.disk.blocks) plan.now.items }
        ensures ok { OnOk result (Moves self.old self.new
            (trace_of_plan self.old.log.kind line op.now self.old.tracing (Ok plan.now.items))) }
        ensures refused { RefusesAs result
            (trace_of_plan self.old.log.kind line op.now self.old.tracing (Ok plan.now.items)) }
    {
        let targets = self.touched_by(plan);
        let next = self.next + 1 + targets.len();
        if next > JOURNAL_AT + self.disk.journal() {
            return Err(TraceFault::JournalFull { line });
        }
        if !self.log.has_room(plan.len() + targets.len() + 2) {
            return Err(TraceFault::TooManyPatches { line });
        }
        let origin = Origin {
            line,
            op,
            group: self.current,
            waits_for: self.forced,
        };
        apply(&mut self.disk, plan);
        let transaction = Transaction {
            op_number: self.op_number,
            origin,
            header: self.next as u8,
        };
        self.log.emit_transaction(transaction, &self.disk, targets.as_slice(), plan.as_slice())?;
        self.op_number += 1;
        self.next = next;
        Ok(())
    }
}
