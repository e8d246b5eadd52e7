//! What each report on the graph of a script says of it.

ghost use Rattle.std.specs.Prelude.{codes, string_bytes, OnOk};
ghost use Rattle.crash_model.specs.Reasons.{blocks_of};
ghost use Rattle.report.specs.Fields.{field, fields_if, hex_json, list_of};
ghost use Rattle.report.specs.Reports.{explained_text, head_text};
ghost use Rattle.report.specs.ReportsJson.{first_fields, last_fields};
ghost use Rattle.report.specs.Structs.{head_of};
ghost use Rattle.report.specs.Written.{Adds, AddsFields};

use crate::explained::ExplainedPatch;
use crate::fields::{write_flag, write_hex, write_key, write_list_if, write_number};
use crate::head::{write_rules_fields, write_settings};
use crate::part::{Done, Form, write_all};
use crate::text::write_count;
use crash_model::settings::Settings;
use disk_image::{Image, Promise};
use json::Writer;
use std::alloc::Allocator;
use traced_patches::Wait;

/// What each report on the graph of a script says: the settings, and how many patches and closed sets there are.
///
/// If patches are explained, it also has the image that they were traced over, what they are, which lines wait, and the
/// promises. `promising` says whether a line waits or promises then.
#[derive(Drop)]
pub struct Head<'a, 'steps, A: Allocator + Copy> {
    pub settings: &'a Settings,
    pub patches: usize,
    pub closed: u128,
    pub base: &'a Image<A>,
    pub trace: &'a [ExplainedPatch<'a, 'steps>],
    pub waits: &'a [Wait<'steps>],
    pub promises: &'a [Promise<A>],
    pub promising: bool,
}

impl<A: Allocator + Copy> Head<'_, '_, A> {
    /// Adds the lines of the settings, and of the numbers of patches and closed sets.
    pub(crate) fn write(&self, out: &mut String) -> Done
        ensures { OnOk result (Adds (string_bytes out.old) (string_bytes out.new) (head_text (head_of self.now))) }
    {
        write_settings(out, self.settings)?;
        write_count(out, "patches", self.patches as u128)?;
        write_count(out, "closed", self.closed)
    }

    /// Adds the lines of what is explained.
    pub(crate) fn write_explained(&self, out: &mut String) -> Done
        ensures { OnOk result (Adds (string_bytes out.old) (string_bytes out.new)
            (explained_text (head_of self.now))) }
    {
        write_all(out, self.trace)?;
        write_all(out, self.waits)?;
        write_all(out, self.promises)
    }

    /// The fields before the number of closed sets.
    pub(crate) fn write_first_fields(&self, out: &mut Writer, form: Form) -> Done
        ensures { OnOk result (AddsFields out.old out.new (first_fields (head_of self.now))) }
    {
        write_flag(out, "atomic", self.settings.atomic)?;
        write_base_field(out, self.settings.explain, self.base, form)
    }

    /// The fields from the number of patches on.
    pub(crate) fn write_last_fields(&self, out: &mut Writer, form: Form) -> Done
        ensures { OnOk result (AddsFields out.old out.new (last_fields form.numbers (head_of self.now))) }
    {
        write_number(out, "patches", self.patches as u128)?;
        write_list_if(out, "promises", self.promising, self.promises, form)?;
        write_flag(out, "strict", self.settings.strict)?;
        write_list_if(out, "trace", self.settings.explain, self.trace, form)?;
        write_list_if(out, "waits", self.promising, self.waits, form)?;
        write_rules_fields(out, self.settings, form)
    }
}

/// The field of the bytes of each block of the base, if patches are explained.
fn write_base_field<A: Allocator + Copy>(
    out: &mut Writer,
    explain: bool,
    base: &Image<A>,
    form: Form,
) -> Done
    ensures { OnOk result (AddsFields out.old out.new
        (fields_if explain (field (codes "base") (list_of hex_json (blocks_of base.now))))) }
{
    if !explain {
        return Ok(());
    }
    write_key(out, "base")?;
    out.begin_array()?;
    for block in 0..base.blocks() {
        write_hex(out, base.block(block), form)?;
    }
    out.end_array()
}
