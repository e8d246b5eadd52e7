//! What is reported of the rules that are enough, and of the lines that wait that are enough.

ghost use Rattle.std.specs.Prelude.{◌≡◌, ◌≤◌, length, map, string_bytes, IfOk, OnOk};
ghost use Rattle.traced_patches.specs.Labels.{waits_by};
ghost use Rattle.report.specs.OnChoices.{lines_at, rules_at};
ghost use Rattle.report.specs.Choices.{choices_name, choices_words, lines_field, rules_field};
ghost use Rattle.report.specs.Written.{Adds, AddsFields};

use crate::crash::FirstCrash;
use crate::fields::{
    begin_object, end_object, write_array_of_words, write_digits, write_list, write_natural,
    write_part, write_words,
};
use crate::graph::Head;
use crate::head::{write_checker_fields, write_disk_fields, write_module_field};
use crate::need::Need;
use crate::part::{Done, Form, Part, Word, write_all, write_array};
use crate::text::{write_count, write_spaced};
use arrayvec::ArrayVec;
use chosen_rules::rules_in;
use crash_model::orderings::{MAX_RULES, Ordering};
use crash_model::rules::Rule;
use crash_model::steps::Step;
use json::Writer;
use patch_sets::set::has;
use question_model::MAX_SYNCS;
use std::alloc::{AllocError, Allocator, Global};
use traced_patches::Wait;

/// The number of a line.
impl Word for usize {
    ghost use Rattle.std.specs.Prelude.{decimal};

    ghost word = { decimal };

    fn write_word(&self, out: &mut String) -> Done {
        write!(out, "{self}")
    }
}

impl Part for usize {
    ghost use Rattle.std.specs.Prelude.{decimal};
    ghost use Rattle.report.specs.Fields.{natural};

    ghost text = { decimal };

    ghost json = { λ numbers n. natural n };

    fn write(&self, out: &mut String) -> Done {
        write!(out, "{self}")
    }

    fn write_json(&self, out: &mut Writer, _form: Form) -> Done {
        write_natural(out, *self as u128)
    }
}

/// Some rules of an ordering, or the numbers of some lines that wait.
#[derive(Drop)]
pub enum Choices {
    Rules(ArrayVec<Rule, MAX_RULES>),
    Lines(ArrayVec<usize, MAX_SYNCS>),
}

/// The rules at these places of an ordering.
pub(crate) fn rules_at(ordering: &Ordering, places: u128) -> Choices
    ensures { result ≡ rules_at ordering.now.rules.items places }
{
    Choices::Rules(rules_in(ordering, places).rules)
}

/// The numbers of the lines at these places among those that wait.
pub(crate) fn lines_at(waits: &[Wait<'_>], places: u128) -> Choices
    requires { length waits.now ≤ MAX_SYNCS }
    ensures { result ≡ lines_at (waits_by waits.now) places }
{
    let mut lines = ArrayVec::new();
    for place in 0..waits.len() {
        if has(places, place) {
            lines.push(waits[place].step.line);
        }
    }
    Choices::Lines(lines)
}

/// The rules at the places of each of these sets. It fails only when out of memory.
pub fn sets_of_rules(
    heap: Global,
    ordering: &Ordering,
    sets: &[u128],
) -> Result<Vec<Choices>, AllocError>
    ensures { IfOk result (λ all. all.items ≡ map (rules_at ordering.now.rules.items) sets.now) }
{
    let mut all = Vec::with_capacity(heap, sets.len())?;
    for places in sets {
        all.push(rules_at(ordering, *places))?;
    }
    Ok(all)
}

/// The lines at the places of each of these sets. It fails only when out of memory.
pub fn sets_of_lines(
    heap: Global,
    waits: &[Wait<'_>],
    sets: &[u128],
) -> Result<Vec<Choices>, AllocError>
    requires { length waits.now ≤ MAX_SYNCS }
    ensures { IfOk result (λ all. all.items ≡ map (lines_at (waits_by waits.now)) sets.now) }
{
    let mut all = Vec::with_capacity(heap, sets.len())?;
    for places in sets {
        all.push(lines_at(waits, *places))?;
    }
    Ok(all)
}

impl Choices {
    /// The word for them.
    fn name(&self) -> &'static str
        ensures { result.now ≡ choices_name self.now }
    {
        match self {
            Choices::Rules(_) => "rules",
            Choices::Lines(_) => "syncs",
        }
    }

    /// Adds each after a space.
    pub(crate) fn write_words(&self, out: &mut String) -> Done
        ensures { OnOk result (Adds (string_bytes out.old) (string_bytes out.new) (choices_words self.now)) }
    {
        match self {
            Choices::Rules(rules) => write_spaced(out, rules.as_slice()),
            Choices::Lines(lines) => write_spaced(out, lines.as_slice()),
        }
    }

    /// The field of rules.
    pub(crate) fn write_rules_field(&self, out: &mut Writer, form: Form) -> Done
        ensures { OnOk result (AddsFields out.old out.new (rules_field form.numbers self.now)) }
    {
        match self {
            Choices::Rules(rules) => write_words(out, "rules", rules.as_slice(), form),
            Choices::Lines(_) => Ok(()),
        }
    }

    /// The field of lines.
    pub(crate) fn write_lines_field(&self, out: &mut Writer, form: Form) -> Done
        ensures { OnOk result (AddsFields out.old out.new (lines_field form.numbers self.now)) }
    {
        match self {
            Choices::Rules(_) => Ok(()),
            Choices::Lines(lines) => write_list(out, "syncs", lines.as_slice(), form),
        }
    }
}

impl Part for Choices {
    ghost use Rattle.report.specs.Choices.{choices_text, choices_json};

    ghost text = { choices_text };

    ghost json = { choices_json };

    fn write(&self, out: &mut String) -> Done {
        out.push_str(self.name())?;
        self.write_words(out)?;
        out.push_str("\n")
    }

    fn write_json(&self, out: &mut Writer, form: Form) -> Done {
        match self {
            Choices::Rules(rules) => write_array_of_words(out, rules.as_slice(), form),
            Choices::Lines(lines) => write_array(out, lines.as_slice(), form),
        }
    }
}

impl Word for Step {
    ghost use Rattle.report.specs.Choices.{step_text};

    ghost word = { step_text };

    fn write_word(&self, out: &mut String) -> Done {
        self.act.write_word(out)
    }
}

/// A report of the choices that are enough: the minimal sets of them, the minimal groups of which one is needed, and
/// the first crash of all choices, if they are not enough.
#[derive(Drop)]
pub struct Enough<'a, 'steps, A: Allocator + Copy> {
    pub head: Head<'a, 'steps, A>,
    pub enough: &'a [Choices],
    pub needs: &'a [Need],
    pub first: Option<&'a FirstCrash>,
}

impl<A: Allocator + Copy> Part for Enough<'_, '_, A> {
    ghost use Rattle.report.specs.Choices.{enough_of, enough_text, enough_json};

    ghost text = { λ r. enough_text (enough_of r) };

    ghost json = { λ numbers r. enough_json numbers (enough_of r) };

    fn write(&self, out: &mut String) -> Done {
        self.head.write(out)?;
        self.head.write_explained(out)?;
        write_count(out, "enough", self.enough.len() as u128)?;
        write_all(out, self.enough)?;
        write_all(out, self.needs)?;
        match self.first {
            Some(first) => first.write(out),
            None => Ok(()),
        }
    }

    fn write_json(&self, out: &mut Writer, form: Form) -> Done {
        let settings = self.head.settings;
        begin_object(out)?;
        self.head.write_first_fields(out, form)?;
        write_digits(out, "closed", self.head.closed)?;
        write_checker_fields(out, settings)?;
        write_list(out, "enough", self.enough, form)?;
        if let Some(first) = self.first {
            write_part(out, "first", first, form)?;
        }
        write_disk_fields(out, settings, form)?;
        write_module_field(out, settings)?;
        write_list(out, "needs", self.needs, form)?;
        self.head.write_last_fields(out, form)?;
        end_object(out)
    }
}
