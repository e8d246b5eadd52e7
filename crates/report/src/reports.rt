//! The reports on failing sets and on the faults that a crash can leave.

use crate::crash::{FirstCrash, Section};
use crate::fields::{begin_object, end_object, write_digits, write_list, write_number};
use crate::graph::Head;
use crate::head::{write_checker_fields, write_disk_fields, write_module_field};
use crate::part::{Done, Form, Part, write_all};
use crate::text::write_count;
use json::Writer;
use std::alloc::Allocator;

/// A report of the failing sets.
#[derive(Drop)]
pub struct FailingSets<'a, 'steps, A: Allocator + Copy> {
    pub head: Head<'a, 'steps, A>,
    pub sections: &'a [Section],
}

impl<A: Allocator + Copy> Part for FailingSets<'_, '_, A> {
    ghost use Rattle.report.specs.Structs.{sets_of};
    ghost use Rattle.report.specs.Reports.{sets_text};
    ghost use Rattle.report.specs.ReportsJson.{sets_json};

    ghost text = { λ r. sets_text (sets_of r) };

    ghost json = { λ numbers r. sets_json numbers (sets_of r) };

    fn write(&self, out: &mut String) -> Done {
        self.head.write(out)?;
        write_count(out, "failing", self.sections.len() as u128)?;
        self.head.write_explained(out)?;
        write_all(out, self.sections)
    }

    fn write_json(&self, out: &mut Writer, form: Form) -> Done {
        let settings = self.head.settings;
        begin_object(out)?;
        self.head.write_first_fields(out, form)?;
        write_number(out, "closed", self.head.closed)?;
        write_checker_fields(out, settings)?;
        write_list(out, "failing", self.sections, form)?;
        write_disk_fields(out, settings, form)?;
        write_module_field(out, settings)?;
        self.head.write_last_fields(out, form)?;
        end_object(out)
    }
}

/// A report of the faults that a crash can leave, each with the first crash that leaves it.
#[derive(Drop)]
pub struct Decision<'a, 'steps, A: Allocator + Copy> {
    pub head: Head<'a, 'steps, A>,
    pub faults: &'a [FirstCrash],
}

impl<A: Allocator + Copy> Part for Decision<'_, '_, A> {
    ghost use Rattle.report.specs.Decisions.{decision_of, decision_text, decision_json};

    ghost text = { λ r. decision_text (decision_of r) };

    ghost json = { λ numbers r. decision_json numbers (decision_of r) };

    fn write(&self, out: &mut String) -> Done {
        self.head.write(out)?;
        self.head.write_explained(out)?;
        write_all(out, self.faults)
    }

    fn write_json(&self, out: &mut Writer, form: Form) -> Done {
        let settings = self.head.settings;
        begin_object(out)?;
        self.head.write_first_fields(out, form)?;
        write_digits(out, "closed", self.head.closed)?;
        write_checker_fields(out, settings)?;
        write_list(out, "faults", self.faults, form)?;
        write_disk_fields(out, settings, form)?;
        write_module_field(out, settings)?;
        self.head.write_last_fields(out, form)?;
        end_object(out)
    }
}
