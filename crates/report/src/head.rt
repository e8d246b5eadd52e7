//! What a report says of the settings of its run.

ghost use Rattle.std.specs.Prelude.{string_bytes, OnOk};
ghost use Rattle.report.specs.HeadJson.{checker_fields, disk_fields, module_field, rules_fields};
ghost use Rattle.report.specs.Head.{counted_text, module_line, settings_text};
ghost use Rattle.report.specs.Written.{Adds, AddsFields};

use crate::fields::{
    write_flag, write_key, write_number, write_numbers, write_set, write_text, write_words_if_any,
};
use crate::part::{Done, Form, Word};
use crate::text::{self, write_ids, write_lines};
use crash_model::rules::Rule;
use crash_model::settings::Settings;
use json::Writer;

/// The number of the form of reports. It goes up if a key changes what it says or is left out.
const FORMAT: u128 = 1;

impl Word for Rule {
    ghost use Rattle.crash_model.specs.RuleTexts.{rule_text};

    ghost word = { rule_text };

    fn write_word(&self, out: &mut String) -> Done {
        write!(out, "{self}")
    }
}

/// Adds the lines of the ordering, the disk and the checker.
#[tactic(auto, unfolding(crate::specs::Head::settings_text))]
pub(crate) fn write_settings(out: &mut String, settings: &Settings) -> Done
    ensures { OnOk result (Adds (string_bytes out.old) (string_bytes out.new) (settings_text settings.now)) }
{
    write_module(out, settings)?;
    write_lines(out, "without", settings.taken_out().as_slice())?;
    write_lines(out, "with", settings.put_in().as_slice())?;
    text::write_flag(out, "generations", settings.generations)?;
    text::write_flag(out, "whole blocks", settings.whole_blocks)?;
    text::write_flag(out, "strict", settings.strict)?;
    text::write_flag(out, "atomic", settings.atomic)?;
    text::write_flag(out, "durable", settings.durable)?;
    write_counted(out, settings.counted)
}

/// Adds the line of the module.
#[tactic(auto, unfolding(crate::specs::Head::module_line))]
fn write_module(out: &mut String, settings: &Settings) -> Done
    ensures { OnOk result (Adds (string_bytes out.old) (string_bytes out.new) (module_line settings.now)) }
{
    let name = settings.module.name();
    write!(out, "module {name}\n")
}

/// Adds the line of the numbers of the faults that count, if not all do.
#[tactic(auto, unfolding(crate::specs::Head::counted_text))]
fn write_counted(out: &mut String, counted: Option<u16>) -> Done
    ensures { OnOk result (Adds (string_bytes out.old) (string_bytes out.new) (counted_text counted)) }
{
    if let Some(counted) = counted {
        out.push_str("faults")?;
        write_ids(out, u128::from(counted))?;
        out.push_str("\n")?;
    }
    Ok(())
}

/// Which faults count, if not all do, and whether fsyncs promise.
pub(crate) fn write_checker_fields(out: &mut Writer, settings: &Settings) -> Done
    ensures { OnOk result (AddsFields out.old out.new (checker_fields settings.now)) }
{
    if let Some(counted) = settings.counted {
        write_set(out, "counted", u128::from(counted))?;
    }
    write_flag(out, "durable", settings.durable)
}

/// The form of reports and the size of the disk, if numbers are asked for, and whether inodes have generations.
pub(crate) fn write_disk_fields(out: &mut Writer, settings: &Settings, form: Form) -> Done
    ensures { OnOk result (AddsFields out.old out.new (disk_fields form.numbers settings.now)) }
{
    if !form.numbers {
        return write_flag(out, "generations", settings.generations);
    }
    let geometry = [
        ("block_size", 128),
        ("blocks", settings.blocks as u128),
        ("journal", settings.journal as u128),
    ];
    write_number(out, "format", FORMAT)?;
    write_flag(out, "generations", settings.generations)?;
    write_key(out, "geometry")?;
    write_numbers(out, &geometry)
}

/// The field of the module.
#[tactic(auto, unfolding(crate::specs::HeadJson::module_field))]
pub(crate) fn write_module_field(out: &mut Writer, settings: &Settings) -> Done
    ensures { OnOk result (AddsFields out.old out.new (module_field settings.now)) }
{
    let name = settings.module.name();
    write_text(out, "module", name)
}

/// Whether blocks are written whole, and the rules that are put in and taken out.
pub(crate) fn write_rules_fields(out: &mut Writer, settings: &Settings, form: Form) -> Done
    ensures { OnOk result (AddsFields out.old out.new (rules_fields settings.now)) }
{
    write_flag(out, "whole_blocks", settings.whole_blocks)?;
    write_words_if_any(out, "with", settings.put_in().as_slice(), form)?;
    write_words_if_any(out, "without", settings.taken_out().as_slice(), form)
}
