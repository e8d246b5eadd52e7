//! Choices of which one is needed.

use crate::choices::Choices;
use crate::crash::FirstCrash;
use crate::fields::{begin_object, end_object, write_part, write_words_if_any};
use crate::found::write_fault_numbers;
use crate::part::{Done, Form, Part};
use crate::text::write_lines;
use crash_model::steps::Step;
use json::Writer;
use std::marker::Model;
use std::slice;

/// A group of choices of which one is needed: their places among all choices, as a set, the choices themselves, the
/// steps of a workload that needs one of them if workloads are searched for, and the first crash without the group.
///
/// The places are not written.
#[derive(Drop)]
pub struct Need {
    pub group: u128,
    pub choices: Choices,
    pub steps: Vec<Step>,
    pub first: FirstCrash,
}

impl Model for Need {
    ghost use Rattle.report.specs.Found.{Need as Reported};

    ghost Value = { Reported };

    ghost view = { λ n. record {
      group = n.group;
      choices = n.choices;
      steps = n.steps.items;
      first = n.first;
    } };
}

impl Need {
    ghost use Rattle.std.specs.Prelude.{string_bytes, OnOk};
    ghost use Rattle.report.specs.Choices.{need_line};
    ghost use Rattle.report.specs.Written.{Adds};

    /// Adds the line of the choices.
    #[tactic(auto, unfolding(crate::specs::Choices::need_line))]
    fn write_choices(&self, out: &mut String) -> Done
        ensures { OnOk result (Adds (string_bytes out.old) (string_bytes out.new) (need_line self.now.choices)) }
    {
        out.push_str("needs")?;
        self.choices.write_words(out)?;
        out.push_str("\n")
    }
}

impl Part for Need {
    ghost use Rattle.report.specs.Choices.{need_text, need_json};

    ghost text = { need_text };

    ghost json = { need_json };

    fn write(&self, out: &mut String) -> Done {
        self.write_choices(out)?;
        write_lines(out, "step", self.steps.as_slice())?;
        self.first.write(out)
    }

    fn write_json(&self, out: &mut Writer, form: Form) -> Done {
        let first = &self.first;
        begin_object(out)?;
        write_part(out, "fault", &first.fault, form)?;
        write_fault_numbers(out, first.fault.fault, form)?;
        first.crash.write_replay_field(out, form)?;
        self.choices.write_rules_field(out, form)?;
        first
            .crash
            .write_set_fields(out, slice::from_ref(&first.fault), form)?;
        write_words_if_any(out, "steps", self.steps.as_slice(), form)?;
        self.choices.write_lines_field(out, form)?;
        first.crash.write_writes_field(out, form)?;
        end_object(out)
    }
}
