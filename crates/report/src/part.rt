//! Parts of reports.

ghost use Rattle.std.specs.Prelude.{◌≡◌, ℕ, List, Bool, ◌++◌, if◌then◌else◌, codes, string_bytes, IfOk, OnOk};
ghost use Rattle.std.specs.List.{flat_map};
ghost use Rattle.serde_json.specs.Data.{Data};
ghost use Rattle.serde_json.specs.Written.{compact_text};
ghost use Rattle.report.specs.Fields.{list_of};
ghost use Rattle.report.specs.Written.{Adds, AddsJson};

use json::Writer;
use std::alloc::{AllocError, Global};

/// What a call that writes gives. It fails only when out of memory.
pub type Done = Result<(), AllocError>;

/// How JSON is written: where its texts are made, and whether the numbers of faults are asked for.
#[derive(Clone, Copy)]
pub struct Form {
    pub alloc: Global,
    pub numbers: bool,
}

/// What a report says of something, as text and as JSON.
pub trait Part {
    /// How it is written as text.
    ghost text: { Self → List ℕ };

    /// The JSON value that it has, with the numbers of faults if they are asked for.
    ghost json: { Bool → Self → Data };

    /// Adds it to a text.
    fn write(&self, out: &mut String) -> Done
        ensures { OnOk result (Adds (string_bytes out.old) (string_bytes out.new) (text self.now)) };

    /// Writes its JSON in this form.
    fn write_json(&self, out: &mut Writer, form: Form) -> Done
        ensures { OnOk result (AddsJson out.old out.new (json form.numbers self.now)) };
}

/// What is written in the same way as text and as a string of JSON.
pub trait Word {
    /// How it is written.
    ghost word: { Self → List ℕ };

    /// Adds it to a text.
    fn write_word(&self, out: &mut String) -> Done
        ensures { OnOk result (Adds (string_bytes out.old) (string_bytes out.new) (word self.now)) };
}

/// Adds each of the parts to a text.
pub(crate) fn write_all<P: Part>(out: &mut String, parts: &[P]) -> Done
    ensures { OnOk result (Adds (string_bytes out.old) (string_bytes out.new) (flat_map P.text parts.now)) }
{
    for part in parts {
        part.write(out)?;
    }
    Ok(())
}

/// Writes the array of the parts.
pub(crate) fn write_array<P: Part>(out: &mut Writer, parts: &[P], form: Form) -> Done
    ensures { OnOk result (AddsJson out.old out.new (list_of (P.json form.numbers) parts.now)) }
{
    out.begin_array()?;
    for part in parts {
        part.write_json(out, form)?;
    }
    out.end_array()
}

/// The bytes of a whole report: its text, or its JSON without spaces and with a line feed. It fails only when out of
/// memory.
pub fn written<P: Part>(
    alloc: Global,
    report: &P,
    json: bool,
    numbers: bool,
) -> Result<String, AllocError>
    ensures { IfOk result (λ bytes. string_bytes bytes
        ≡ (if json then compact_text (P.json numbers report.now) ++ codes "\n" else P.text report.now)) }
{
    if json {
        return json_written(alloc, report, numbers);
    }
    let mut out = String::new(alloc);
    report.write(&mut out)?;
    Ok(out)
}

/// The JSON of a whole report, without spaces and with a line feed.
fn json_written<P: Part>(alloc: Global, report: &P, numbers: bool) -> Result<String, AllocError>
    ensures { IfOk result (λ bytes. string_bytes bytes ≡ compact_text (P.json numbers report.now) ++ codes "\n") }
{
    let mut out = Writer::new(Vec::new(alloc));
    report.write_json(&mut out, Form { alloc, numbers })?;
    let Ok(mut text) = String::from_utf8(out.into_inner()) else {
        unreachable!();
    };
    text.push_str("\n")?;
    Ok(text)
}
