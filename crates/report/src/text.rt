//! Pieces of text.

ghost use Rattle.std.specs.Prelude.{string_bytes, map, OnOk};
ghost use Rattle.report.specs.Texts.{count_line, ids_text, joined, line_if, lines_of, spaced};
ghost use Rattle.report.specs.Written.{Adds};

use crate::part::{Done, Word};
use itoa::Buffer;
use patch_sets::iter::Ids;

/// The most ids that a set can have.
pub(crate) const MOST_IDS: usize = 128;

/// Adds each id of a set after a space.
pub(crate) fn write_ids(out: &mut String, set: u128) -> Done
    ensures { OnOk result (Adds (string_bytes out.old) (string_bytes out.new) (ids_text set)) }
{
    let mut digits = Buffer::new();
    for id in Ids::below(set, MOST_IDS) {
        out.push_str(" ")?;
        out.push_str(digits.format(id))?;
    }
    Ok(())
}

/// Adds a line of the word and a number.
#[tactic(auto, unfolding(crate::specs::Texts::count_line))]
pub(crate) fn write_count(out: &mut String, name: &str, n: u128) -> Done
    ensures { OnOk result (Adds (string_bytes out.old) (string_bytes out.new) (count_line name.now n)) }
{
    write!(out, "{name} {n}\n")
}

/// Adds a line of the word if something holds.
#[tactic(auto, unfolding(crate::specs::Texts::line_if))]
pub(crate) fn write_flag(out: &mut String, name: &str, holds: bool) -> Done
    ensures { OnOk result (Adds (string_bytes out.old) (string_bytes out.new) (line_if holds name.now)) }
{
    if holds {
        write!(out, "{name}\n")?;
    }
    Ok(())
}

/// Adds each of the words after a space.
pub(crate) fn write_spaced<W: Word>(out: &mut String, words: &[W]) -> Done
    ensures { OnOk result (Adds (string_bytes out.old) (string_bytes out.new) (spaced W.word words.now)) }
{
    for word in words {
        out.push_str(" ")?;
        word.write_word(out)?;
    }
    Ok(())
}

/// Adds the words with something between each two.
pub(crate) fn write_joined<W: Word>(out: &mut String, between: &str, words: &[W]) -> Done
    ensures { OnOk result (Adds (string_bytes out.old) (string_bytes out.new)
        (joined between.now (map W.word words.now))) }
{
    for (at, word) in words.iter().enumerate() {
        if at > 0 {
            out.push_str(between)?;
        }
        word.write_word(out)?;
    }
    Ok(())
}

/// Adds a line for each of the words, with the name and a space before it.
#[tactic(auto, unfolding(crate::specs::Texts::lines_of))]
pub(crate) fn write_lines<W: Word>(out: &mut String, name: &str, words: &[W]) -> Done
    ensures { OnOk result (Adds (string_bytes out.old) (string_bytes out.new) (lines_of name.now W.word words.now)) }
{
    for word in words {
        write!(out, "{name} ")?;
        word.write_word(out)?;
        out.push_str("\n")?;
    }
    Ok(())
}
