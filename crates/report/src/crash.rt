//! Crashes and what they leave.

use crate::fields::{begin_object, end_object, write_list, write_list_if, write_part, write_set};
use crate::found::{FoundFault, write_all_numbers, write_all_shows, write_fault_numbers};
use crate::part::{Done, Form, Part, write_all};
use crate::replayed::ReplayedBlock;
use crate::text::write_ids;
use json::Writer;
use patch_sets::write::BlockWrite;
use std::marker::Model;
use std::slice;

/// A crash: the set that it leaves, block writes that lead to it, what replay changes if that is explained, and whether
/// that is explained, and what the paths of broken promises show.
#[derive(Drop)]
pub struct Crash {
    pub set: u128,
    pub writes: Vec<BlockWrite>,
    pub replay: Vec<ReplayedBlock>,
    pub explained: bool,
    pub shows: bool,
}

impl Model for Crash {
    ghost use Rattle.report.specs.Parts.{Crash as Reported};

    ghost Value = { Reported };

    ghost view = { λ c. record {
      set = c.set;
      writes = c.writes.items;
      replay = c.replay.items;
      explained = c.explained;
      shows = c.shows;
    } };
}

impl Crash {
    ghost use Rattle.std.specs.Prelude.{string_bytes, OnOk};
    ghost use Rattle.report.specs.Crashes.{crash_text};
    ghost use Rattle.report.specs.CrashesJson.{replay_field, set_fields, writes_field};
    ghost use Rattle.report.specs.Written.{Adds, AddsFields};

    /// Adds its lines to a text.
    pub(crate) fn write(&self, out: &mut String) -> Done
        ensures { OnOk result (Adds (string_bytes out.old) (string_bytes out.new) (crash_text self.now)) }
    {
        out.push_str("set")?;
        write_ids(out, self.set)?;
        out.push_str("\n")?;
        write_all(out, &self.writes)?;
        write_all(out, &self.replay)
    }

    /// The field of what replay changes, if that is explained.
    pub(crate) fn write_replay_field(&self, out: &mut Writer, form: Form) -> Done
        ensures { OnOk result (AddsFields out.old out.new (replay_field form.numbers self.now)) }
    {
        write_list_if(out, "replay", self.explained, &self.replay, form)
    }

    /// The fields of the set, and of what is shown where these faults say that promises are broken.
    pub(crate) fn write_set_fields(
        &self,
        out: &mut Writer,
        found: &[FoundFault],
        form: Form,
    ) -> Done
        ensures { OnOk result (AddsFields out.old out.new (set_fields self.now found.now)) }
    {
        write_set(out, "set", self.set)?;
        write_all_shows(out, found, self.shows, form)
    }

    /// The field of the block writes.
    pub(crate) fn write_writes_field(&self, out: &mut Writer, form: Form) -> Done
        ensures { OnOk result (AddsFields out.old out.new (writes_field form.numbers self.now)) }
    {
        write_list(out, "writes", &self.writes, form)
    }
}

/// A crash, and the faults of its image after replay.
#[derive(Drop)]
pub struct Section {
    pub crash: Crash,
    pub faults: Vec<FoundFault>,
}

impl Model for Section {
    ghost use Rattle.report.specs.Parts.{Section as Reported};

    ghost Value = { Reported };

    ghost view = { λ s. record { crash = s.crash; faults = s.faults.items } };
}

impl Section {
    ghost use Rattle.std.specs.Prelude.{OnOk};
    ghost use Rattle.report.specs.CrashesJson.{faults_fields};
    ghost use Rattle.report.specs.Written.{AddsFields};

    /// The fields of the faults.
    pub(crate) fn write_faults_fields(&self, out: &mut Writer, form: Form) -> Done
        ensures { OnOk result (AddsFields out.old out.new (faults_fields form.numbers self.now.faults)) }
    {
        let faults = self.faults.as_slice();
        write_all_numbers(out, faults, form)?;
        write_list(out, "faults", faults, form)
    }
}

impl Part for Section {
    ghost use Rattle.report.specs.Crashes.{section_text};
    ghost use Rattle.report.specs.CrashesJson.{section_json};

    ghost text = { section_text };

    ghost json = { section_json };

    fn write(&self, out: &mut String) -> Done {
        self.crash.write(out)?;
        write_all(out, &self.faults)
    }

    fn write_json(&self, out: &mut Writer, form: Form) -> Done {
        begin_object(out)?;
        self.write_faults_fields(out, form)?;
        self.crash.write_replay_field(out, form)?;
        self.crash
            .write_set_fields(out, self.faults.as_slice(), form)?;
        self.crash.write_writes_field(out, form)?;
        end_object(out)
    }
}

/// A fault, and the first crash that leaves it.
#[derive(Drop)]
pub struct FirstCrash {
    pub fault: FoundFault,
    pub crash: Crash,
}

impl Model for FirstCrash {
    ghost use Rattle.report.specs.Found.{FirstCrash as Reported};

    ghost Value = { Reported };

    ghost view = { λ f. record { fault = f.fault; crash = f.crash } };
}

impl Part for FirstCrash {
    ghost use Rattle.report.specs.FirstCrashes.{first_text};
    ghost use Rattle.report.specs.CrashesJson.{first_json};

    ghost text = { first_text };

    ghost json = { first_json };

    fn write(&self, out: &mut String) -> Done {
        self.fault.write(out)?;
        self.crash.write(out)
    }

    fn write_json(&self, out: &mut Writer, form: Form) -> Done {
        begin_object(out)?;
        write_part(out, "fault", &self.fault, form)?;
        write_fault_numbers(out, self.fault.fault, form)?;
        self.crash.write_replay_field(out, form)?;
        self.crash
            .write_set_fields(out, slice::from_ref(&self.fault), form)?;
        self.crash.write_writes_field(out, form)?;
        end_object(out)
    }
}
