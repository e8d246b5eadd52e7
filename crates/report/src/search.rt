//! Reports of searches.

ghost use Rattle.std.specs.Prelude.{string_bytes, OnOk};
ghost use Rattle.report.specs.Searches.{search_first, search_last, search_of, search_text};
ghost use Rattle.report.specs.Written.{Adds, AddsFields};

use crate::choices::Choices;
use crate::fields::{begin_object, end_object, write_flag, write_list, write_number, write_text};
use crate::head::{
    write_checker_fields, write_disk_fields, write_module_field, write_rules_fields, write_settings,
};
use crate::kind::Kind;
use crate::need::Need;
use crate::part::{Done, Form, Part, write_all};
use crate::text::write_count;
use crash_model::settings::Settings;
use json::Writer;
use question_model::{RefusedCount, SearchCounts};

impl Part for RefusedCount {
    ghost use Rattle.report.specs.Searches.{refused_text, refused_json};

    ghost text = { refused_text };

    ghost json = { refused_json };

    fn write(&self, out: &mut String) -> Done {
        let (number, text, count) = (self.reason.number(), self.reason.text(), self.count);
        write!(out, "refused {number} {text}: {count}\n")
    }

    fn write_json(&self, out: &mut Writer, _form: Form) -> Done {
        let (number, text) = (self.reason.number(), self.reason.text());
        begin_object(out)?;
        write_number(out, "count", self.count)?;
        write_number(out, "number", number as u128)?;
        write_text(out, "text", text)?;
        end_object(out)
    }
}

/// What each report of a search says: the settings, the most operations of a workload, how many lines the pool has, and
/// what is counted.
#[derive(Drop)]
pub struct SearchHead<'a> {
    pub settings: &'a Settings,
    pub most: usize,
    pub pool: usize,
    pub found: &'a SearchCounts,
}

impl SearchHead<'_> {
    /// Adds the lines before the first kind or set of rules.
    fn write(&self, out: &mut String) -> Done
        ensures { OnOk result (Adds (string_bytes out.old) (string_bytes out.new) (search_text (search_of self.now))) }
    {
        write_settings(out, self.settings)?;
        write_count(out, "search", self.most as u128)?;
        write_count(out, "pool", self.pool as u128)?;
        write_count(out, "workloads", self.found.workloads)?;
        write_count(out, "failing", self.found.failing)?;
        write_all(out, self.found.refused.as_slice())
    }

    /// The fields up to those of the checker.
    fn write_first_fields(&self, out: &mut Writer) -> Done
        ensures { OnOk result (AddsFields out.old out.new (search_first (search_of self.now))) }
    {
        write_flag(out, "atomic", self.settings.atomic)?;
        write_checker_fields(out, self.settings)
    }

    /// The fields from the pool on.
    fn write_last_fields(&self, out: &mut Writer, form: Form) -> Done
        ensures { OnOk result (AddsFields out.old out.new (search_last form.numbers (search_of self.now))) }
    {
        write_number(out, "pool", self.pool as u128)?;
        write_list(out, "refused", self.found.refused.as_slice(), form)?;
        write_number(out, "search", self.most as u128)?;
        write_flag(out, "strict", self.settings.strict)?;
        write_rules_fields(out, self.settings, form)?;
        write_number(out, "workloads", self.found.workloads)
    }
}

/// A report of the kinds of faults that the workloads of a pool show.
#[derive(Drop)]
pub struct FoundKinds<'a> {
    pub head: SearchHead<'a>,
    pub kinds: &'a [Kind<'a>],
}

impl Part for FoundKinds<'_> {
    ghost use Rattle.report.specs.Searches.{kinds_of, kinds_text, kinds_json};

    ghost text = { λ r. kinds_text (kinds_of r) };

    ghost json = { λ numbers r. kinds_json numbers (kinds_of r) };

    fn write(&self, out: &mut String) -> Done {
        self.head.write(out)?;
        write_all(out, self.kinds)
    }

    fn write_json(&self, out: &mut Writer, form: Form) -> Done {
        let (settings, found) = (self.head.settings, self.head.found);
        begin_object(out)?;
        self.head.write_first_fields(out)?;
        write_number(out, "failing", found.failing)?;
        write_disk_fields(out, settings, form)?;
        write_list(out, "kinds", self.kinds, form)?;
        write_module_field(out, settings)?;
        self.head.write_last_fields(out, form)?;
        end_object(out)
    }
}

/// A report of the rules that are enough for all workloads of a pool: the minimal sets of them, and the minimal groups
/// of which one is needed.
#[derive(Drop)]
pub struct FoundRules<'a> {
    pub head: SearchHead<'a>,
    pub enough: &'a [Choices],
    pub needs: &'a [Need],
}

impl Part for FoundRules<'_> {
    ghost use Rattle.report.specs.Searches.{rules_of, rules_text, rules_json};

    ghost text = { λ r. rules_text (rules_of r) };

    ghost json = { λ numbers r. rules_json numbers (rules_of r) };

    fn write(&self, out: &mut String) -> Done {
        self.head.write(out)?;
        write_count(out, "enough", self.enough.len() as u128)?;
        write_all(out, self.enough)?;
        write_all(out, self.needs)
    }

    fn write_json(&self, out: &mut Writer, form: Form) -> Done {
        let (settings, found) = (self.head.settings, self.head.found);
        begin_object(out)?;
        self.head.write_first_fields(out)?;
        write_list(out, "enough", self.enough, form)?;
        write_number(out, "failing", found.failing)?;
        write_disk_fields(out, settings, form)?;
        write_module_field(out, settings)?;
        write_list(out, "needs", self.needs, form)?;
        self.head.write_last_fields(out, form)?;
        end_object(out)
    }
}
