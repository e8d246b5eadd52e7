//! Kinds of faults that workloads show.

use crate::crash::Section;
use crate::fields::{begin_object, end_object, write_number, write_text, write_words_if_any};
use crate::part::{Done, Form, Part};
use crate::text::{write_count, write_lines};
use crash_model::steps::Step;
use json::Writer;
use question_model::ShownKind;
use std::marker::Model;

/// A kind of fault that workloads show, the steps of the first that does, and the first crash of that one.
#[derive(Drop)]
pub struct Kind<'a> {
    pub shown: &'a ShownKind,
    pub steps: Vec<Step>,
    pub section: Section,
}

impl<'a> Model for Kind<'a> {
    ghost use Rattle.report.specs.Found.{Kind as Reported};

    ghost Value = { Reported };

    ghost view = { λ k. record {
      shown = k.shown.now;
      steps = k.steps.items;
      section = k.section;
    } };
}

impl Kind<'_> {
    ghost use Rattle.std.specs.Prelude.{string_bytes, OnOk};
    ghost use Rattle.report.specs.Searches.{kind_line};
    ghost use Rattle.report.specs.Written.{Adds};

    /// Adds the line of the kind.
    #[tactic(auto, unfolding(crate::specs::Searches::kind_line))]
    fn write_kind(&self, out: &mut String) -> Done
        ensures { OnOk result (Adds (string_bytes out.old) (string_bytes out.new) (kind_line self.now.shown.kind)) }
    {
        let (number, name) = (self.shown.kind.number(), self.shown.kind.name());
        write!(out, "kind {number} {name}\n")
    }
}

impl Part for Kind<'_> {
    ghost use Rattle.report.specs.Searches.{kind_text, kind_json};

    ghost text = { kind_text };

    ghost json = { kind_json };

    fn write(&self, out: &mut String) -> Done {
        self.write_kind(out)?;
        write_count(out, "workloads", self.shown.workloads)?;
        write_lines(out, "step", self.steps.as_slice())?;
        self.section.write(out)
    }

    fn write_json(&self, out: &mut Writer, form: Form) -> Done {
        let (number, name) = (self.shown.kind.number(), self.shown.kind.name());
        let section = &self.section;
        begin_object(out)?;
        section.write_faults_fields(out, form)?;
        write_number(out, "kind", number as u128)?;
        write_text(out, "name", name)?;
        section.crash.write_replay_field(out, form)?;
        section
            .crash
            .write_set_fields(out, section.faults.as_slice(), form)?;
        write_words_if_any(out, "steps", self.steps.as_slice(), form)?;
        write_number(out, "workloads", self.shown.workloads)?;
        section.crash.write_writes_field(out, form)?;
        end_object(out)
    }
}
