//! What is explained of patches, of lines that wait and of promises.

ghost use Rattle.std.specs.Prelude.{◌≡◌, string_bytes, OnOk};
ghost use Rattle.crash_model.specs.Patches.{place};
ghost use Rattle.traced_patches.specs.Labels.{emitted_at};
ghost use Rattle.report.specs.Explained.{after_text, patch_line, promise_line, promise_word};
ghost use Rattle.report.specs.Written.{Adds};

use crate::fields::{
    begin_object, end_object, write_bytes, write_list, write_number, write_set, write_text,
    write_word_field, write_words,
};
use crate::part::{Done, Form, Part, Word, write_all};
use crate::text::{write_ids, write_joined, write_lines, write_spaced};
use arrayvec::ArrayVec;
use crash_model::names::Path;
use crash_model::operations::Op;
use crash_model::orderings::MAX_RULES;
use crash_model::patches::Patch;
use crash_model::promises::{Allowance, Spare};
use crash_model::steps::Act;
use disk_image::Promise;
use json::Writer;
use std::alloc::Allocator;
use std::marker::Model;
use traced_patches::{Label, Reason, Wait};

/// The most reasons that there can be: an overlap, a block, a group, a line that waits, and each rule.
const MAX_REASONS: usize = MAX_RULES + 4;

impl Word for Reason {
    ghost use Rattle.traced_patches.specs.Reasons.{reason_text};

    ghost word = { reason_text };

    fn write_word(&self, out: &mut String) -> Done {
        write!(out, "{self}")
    }
}

impl Word for Op {
    ghost use Rattle.crash_model.specs.PatchTexts.{op_text};

    ghost word = { op_text };

    fn write_word(&self, out: &mut String) -> Done {
        write!(out, "{self}")
    }
}

impl Word for Act {
    ghost use Rattle.crash_model.specs.PatchTexts.{act_text};

    ghost word = { act_text };

    fn write_word(&self, out: &mut String) -> Done {
        write!(out, "{self}")
    }
}

impl Word for Path {
    ghost use Rattle.crash_model.specs.PathTexts.{path_text};

    ghost word = { path_text };

    fn write_word(&self, out: &mut String) -> Done {
        write!(out, "{self}")
    }
}

impl Word for Allowance {
    ghost use Rattle.report.specs.Explained.{allowed_text};

    ghost word = { allowed_text };

    fn write_word(&self, out: &mut String) -> Done {
        write_joined(out, " | ", self.shows.as_slice())
    }
}

impl Word for Spare {
    ghost use Rattle.report.specs.Explained.{spare_text};

    ghost word = { spare_text };

    fn write_word(&self, out: &mut String) -> Done {
        let (path, shows) = (&self.path, self.shows);
        write!(out, "{path} {shows}")
    }
}

/// An earlier patch that a patch depends on, and why.
#[derive(Drop)]
pub struct Dependency {
    pub id: usize,
    pub reasons: ArrayVec<Reason, MAX_REASONS>,
}

impl Model for Dependency {
    ghost use Rattle.std.specs.Prelude.{map};
    ghost use Rattle.crash_model.specs.Reasons.{Dependency as Listed};
    ghost use Rattle.traced_patches.specs.Reasons.{reason_text};

    ghost Value = { Listed };

    ghost view = { λ w. record { id = w.id; reasons = map reason_text w.reasons.items } };
}

impl Part for Dependency {
    ghost use Rattle.report.specs.Explained.{dependency_text, dependency_json};

    ghost text = { dependency_text };

    ghost json = { dependency_json };

    fn write(&self, out: &mut String) -> Done {
        let id = self.id;
        write!(out, "after {id}: ")?;
        write_joined(out, ", ", self.reasons.as_slice())?;
        out.push_str("\n")
    }

    fn write_json(&self, out: &mut Writer, form: Form) -> Done {
        begin_object(out)?;
        write_number(out, "patch", self.id as u128)?;
        write_words(out, "why", self.reasons.as_slice(), form)?;
        end_object(out)
    }
}

/// A patch: its id, what it is of its operation, and the earlier patches that it depends on.
#[derive(Drop)]
pub struct ExplainedPatch<'found, 'steps> {
    pub id: usize,
    pub label: &'found Label<'steps>,
    pub patch: &'found Patch,
    pub after: Vec<Dependency>,
}

impl<'found, 'steps> Model for ExplainedPatch<'found, 'steps> {
    ghost use Rattle.crash_model.specs.Patches.{place};
    ghost use Rattle.crash_model.specs.Reasons.{ExplainedPatch as Listed};
    ghost use Rattle.traced_patches.specs.Labels.{emitted_at};

    ghost Value = { Listed };

    ghost view = { λ t. record {
      id = t.id;
      emitted = emitted_at (place t.patch.now.block t.patch.now.offset t.patch.now.new.items) t.label.now;
      undo = t.patch.now.undo.items;
      after = t.after.items;
    } };
}

/// Adds the line of what a patch is.
#[tactic(auto, unfolding(crate::specs::Explained::patch_line))]
fn write_patch_line(out: &mut String, id: usize, label: &Label<'_>, patch: &Patch) -> Done
    ensures { OnOk result (Adds (string_bytes out.old) (string_bytes out.new)
        (patch_line id (emitted_at (place patch.now.block patch.now.offset patch.now.new.items) label.now))) }
{
    let (line, op, part) = (label.origin.line, label.origin.op, label.part.name());
    let (block, offset, length) = (patch.block, patch.offset, patch.new.len());
    write!(out, "patch {id} line {line} {op}: ")?;
    write!(
        out,
        "{part} block {block} offset {offset} length {length}\n"
    )
}

impl Part for ExplainedPatch<'_, '_> {
    ghost use Rattle.report.specs.Explained.{patch_text, patch_json};

    ghost text = { patch_text };

    ghost json = { patch_json };

    fn write(&self, out: &mut String) -> Done {
        write_patch_line(out, self.id, self.label, self.patch)?;
        write_all(out, self.after.as_slice())
    }

    fn write_json(&self, out: &mut Writer, form: Form) -> Done {
        let (label, patch, after) = (self.label, self.patch, self.after.as_slice());
        begin_object(out)?;
        write_list(out, "after", after, form)?;
        write_number(out, "block", u128::from(patch.block))?;
        write_number(out, "line", label.origin.line as u128)?;
        write_bytes(out, "new", patch.new.as_slice(), form)?;
        write_number(out, "offset", u128::from(patch.offset))?;
        write_text(out, "part", label.part.name())?;
        write_word_field(out, "step", label.origin.op, form)?;
        write_bytes(out, "undo", patch.undo.as_slice(), form)?;
        end_object(out)
    }
}

impl Part for Wait<'_> {
    ghost use Rattle.report.specs.Explained.{wait_text, wait_json};
    ghost use Rattle.traced_patches.specs.Labels.{wait_by};

    ghost text = { λ wait. wait_text (wait_by wait) };

    ghost json = { λ numbers wait. wait_json numbers (wait_by wait) };

    fn write(&self, out: &mut String) -> Done {
        let (line, act) = (self.step.line, &self.step.act);
        write!(out, "wait line {line} {act}:")?;
        write_ids(out, self.ids)?;
        out.push_str("\n")
    }

    fn write_json(&self, out: &mut Writer, form: Form) -> Done {
        begin_object(out)?;
        write_set(out, "ids", self.ids)?;
        write_number(out, "line", self.step.line as u128)?;
        write_word_field(out, "step", &self.step.act, form)?;
        end_object(out)
    }
}

impl<A: Allocator> Part for Promise<A> {
    ghost use Rattle.report.specs.Explained.{promise_text, promise_json};

    ghost text = { promise_text };

    ghost json = { promise_json };

    fn write(&self, out: &mut String) -> Done {
        write_promise_line(out, self)?;
        write_after(out, self.after)?;
        write_lines(out, "shows", self.allowed.as_slice())?;
        write_lines(out, "spare", self.spares.as_slice())
    }

    fn write_json(&self, out: &mut Writer, form: Form) -> Done {
        let word = word_of(self);
        begin_object(out)?;
        write_set(out, "after", self.after)?;
        write_words(out, word, self.paths.as_slice(), form)?;
        write_number(out, "line", self.line as u128)?;
        write_words(out, "shows", self.allowed.as_slice(), form)?;
        write_words(out, "spares", self.spares.as_slice(), form)?;
        end_object(out)
    }
}

/// The first word of the line of a promise.
fn word_of<A: Allocator>(promise: &Promise<A>) -> &'static str
    ensures { result.now ≡ promise_word promise.now }
{
    if promise.keeps { "keep" } else { "hold" }
}

/// Adds the line of a promise: its first word, and its paths.
#[tactic(auto, unfolding(crate::specs::Explained::promise_line))]
fn write_promise_line<A: Allocator>(out: &mut String, promise: &Promise<A>) -> Done
    ensures { OnOk result (Adds (string_bytes out.old) (string_bytes out.new) (promise_line promise.now)) }
{
    let (line, word) = (promise.line, word_of(promise));
    write!(out, "promise line {line} {word}")?;
    write_spaced(out, promise.paths.as_slice())?;
    out.push_str("\n")
}

/// Adds the line of the ids that a promise follows, if there are some.
#[tactic(auto, unfolding(crate::specs::Explained::after_text, crate::specs::Texts::line_if))]
fn write_after(out: &mut String, after: u128) -> Done
    ensures { OnOk result (Adds (string_bytes out.old) (string_bytes out.new) (after_text after)) }
{
    if after != 0 {
        out.push_str("after")?;
        write_ids(out, after)?;
        out.push_str("\n")?;
    }
    Ok(())
}
