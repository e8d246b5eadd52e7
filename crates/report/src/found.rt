//! Faults that are found of a set.

ghost use Rattle.std.specs.Prelude.{codes, string_bytes, OnOk};
ghost use Rattle.std.specs.List.{flat_map};
ghost use Rattle.report.specs.FaultsJson.{all_numbers, all_shows, entry_numbers, fault_json, pointer_numbers};
ghost use Rattle.report.specs.FaultsJson.{shows_json};
ghost use Rattle.report.specs.Explained.{shows_if};
ghost use Rattle.report.specs.Fields.{field, fields_if, numbers_json};
ghost use Rattle.report.specs.Written.{Adds, AddsFields, AddsJson, AddsTokens, tokens_of};

use crate::fields::{write_key, write_numbers, write_word};
use crate::part::{Done, Form, Part, Word};
use crate::text::write_joined;
use crash_model::fault::Fault;
use crash_model::promises::Shows;
use crash_model::showing::Shown;
use json::Writer;

impl Word for Shown {
    ghost use Rattle.crash_model.specs.ShownTexts.{shown_text};

    ghost word = { shown_text };

    fn write_word(&self, out: &mut String) -> Done {
        write!(out, "{self}")
    }
}

impl Word for Fault {
    ghost use Rattle.crash_model.specs.Texts.{fault_text};

    ghost word = { fault_text };

    fn write_word(&self, out: &mut String) -> Done {
        write!(out, "{self}")
    }
}

/// A fault, and what the paths of the promise show that it says is broken, if it says so and that is explained.
#[derive(Drop)]
pub struct FoundFault {
    pub fault: Fault,
    pub shows: Option<Shows>,
}

impl Part for FoundFault {
    ghost use Rattle.report.specs.Faults.{found_text};
    ghost use Rattle.report.specs.FaultsJson.{found_json};

    ghost text = { found_text };

    ghost json = { found_json };

    fn write(&self, out: &mut String) -> Done {
        let fault = self.fault;
        write!(out, "fault {fault}\n")?;
        self.write_shows(out)
    }

    fn write_json(&self, out: &mut Writer, form: Form) -> Done {
        write_word(out, &self.fault, form)
    }
}

impl FoundFault {
    /// Adds the line of what is shown, if that is explained.
    #[tactic(auto, unfolding(crate::specs::Explained::shows_if))]
    fn write_shows(&self, out: &mut String) -> Done
        ensures { OnOk result (Adds (string_bytes out.old) (string_bytes out.new) (shows_if self.now.shows)) }
    {
        let Some(shows) = &self.shows else {
            return Ok(());
        };
        out.push_str("shows ")?;
        write_joined(out, " | ", shows.as_slice())?;
        out.push_str("\n")
    }

    /// What is shown, if that is explained.
    fn write_shows_json(&self, out: &mut Writer, form: Form) -> Done
        ensures { OnOk result (AddsTokens out.old out.new (flat_map tokens_of (shows_json self.now))) }
    {
        let Some(shows) = &self.shows else {
            return Ok(());
        };
        let mut text = String::new(form.alloc);
        write_joined(&mut text, " | ", shows.as_slice())?;
        out.string(text.as_str())
    }
}

/// The field of the numbers of each fault, if they are asked for.
pub(crate) fn write_all_numbers(out: &mut Writer, found: &[FoundFault], form: Form) -> Done
    ensures { OnOk result (AddsFields out.old out.new
        (fields_if form.numbers (field (codes "fault_numbers") (all_numbers found.now)))) }
{
    if !form.numbers {
        return Ok(());
    }
    write_key(out, "fault_numbers")?;
    out.begin_array()?;
    for one in found {
        write_fault(out, one.fault)?;
    }
    out.end_array()
}

/// The field of the numbers of a fault, if they are asked for.
pub(crate) fn write_fault_numbers(out: &mut Writer, fault: Fault, form: Form) -> Done
    ensures { OnOk result (AddsFields out.old out.new
        (fields_if form.numbers (field (codes "fault_numbers") (fault_json fault)))) }
{
    if form.numbers {
        write_key(out, "fault_numbers")?;
        write_fault(out, fault)?;
    }
    Ok(())
}

/// The object of the number of a fault's kind, and of those in its text by name.
#[tactic(auto, unfolding(crate::specs::FaultsJson::fault_json))]
fn write_fault(out: &mut Writer, fault: Fault) -> Done
    ensures { OnOk result (AddsJson out.old out.new (fault_json fault)) }
{
    match fault {
        Fault::Dangling { dir, entry, inode } => write_entry(out, dir, entry, inode),
        Fault::Twice { block } => write_numbers(out, &[("block", u128::from(block)), ("kind", 2)]),
        Fault::Unwritten { inode, slot, block } => write_pointer(out, 3, inode, slot, block),
        Fault::LowLinks {
            inode,
            entries,
            links,
        } => write_numbers(
            out,
            &[
                ("entries", u128::from(entries)),
                ("inode", u128::from(inode)),
                ("kind", 4),
                ("links", u128::from(links)),
            ],
        ),
        Fault::MarkedFree { inode, slot, block } => write_pointer(out, 5, inode, slot, block),
        Fault::Wild { inode, slot, block } => write_pointer(out, 6, inode, slot, block),
        Fault::Lost { inode } => write_numbers(out, &[("inode", u128::from(inode)), ("kind", 7)]),
        Fault::NoBlock { inode } => write_numbers(
            out,
            &[("inode", u128::from(inode)), ("kind", 8)],
        ),
        Fault::HalfDone => write_numbers(out, &[("kind", 9)]),
        Fault::BrokenPromise { line } => write_numbers(
            out,
            &[("kind", 10), ("line", line as u128)],
        ),
    }
}

/// The numbers of an entry, and of the fault's kind.
fn write_entry(out: &mut Writer, dir: u8, entry: u8, inode: u8) -> Done
    ensures { OnOk result (AddsJson out.old out.new (numbers_json (entry_numbers dir entry inode))) }
{
    write_numbers(
        out,
        &[
            ("directory", u128::from(dir)),
            ("entry", u128::from(entry)),
            ("inode", u128::from(inode)),
            ("kind", 1),
        ],
    )
}

/// The numbers of a pointer, and of the fault's kind.
fn write_pointer(out: &mut Writer, kind: u128, inode: u8, slot: u8, block: u8) -> Done
    ensures { OnOk result (AddsJson out.old out.new (numbers_json (pointer_numbers kind inode slot block))) }
{
    write_numbers(
        out,
        &[
            ("block", u128::from(block)),
            ("inode", u128::from(inode)),
            ("kind", kind),
            ("slot", u128::from(slot)),
        ],
    )
}

/// The field of what is shown where promises are broken, if that is explained.
pub(crate) fn write_all_shows(
    out: &mut Writer,
    found: &[FoundFault],
    listed: bool,
    form: Form,
) -> Done
    ensures { OnOk result (AddsFields out.old out.new
        (fields_if listed (field (codes "shows") (all_shows found.now)))) }
{
    if !listed {
        return Ok(());
    }
    write_key(out, "shows")?;
    out.begin_array()?;
    for one in found {
        one.write_shows_json(out, form)?;
    }
    out.end_array()
}
