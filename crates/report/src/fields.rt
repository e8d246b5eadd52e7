//! Fields of JSON objects.

ghost use Rattle.std.specs.Prelude.{◌∷◌, [], map, OnOk, decimal};
ghost use Rattle.json.specs.Token.{begin_object as object_begins, end_object as object_ends, key as token_key};
ghost use Rattle.serde_json.specs.Data.{string};
ghost use Rattle.report.specs.Fields.{field, fields_if, flag, hex_json, ids_json, list_of, natural};
ghost use Rattle.report.specs.Fields.{numbers_json, words_if_any, words_json};
ghost use Rattle.report.specs.Written.{AddsFields, AddsJson, AddsTokens};

use crate::part::{Done, Form, Part, Word, write_array};
use crate::text::MOST_IDS;
use itoa::Buffer;
use json::Writer;
use patch_sets::iter::Ids;

/// Begins an object.
pub(crate) fn begin_object(out: &mut Writer) -> Done
    ensures { OnOk result (AddsTokens out.old out.new (object_begins ∷ [])) }
{
    out.begin_object()
}

/// Ends an object.
pub(crate) fn end_object(out: &mut Writer) -> Done
    ensures { OnOk result (AddsTokens out.old out.new (object_ends ∷ [])) }
{
    out.end_object()
}

/// A key.
pub(crate) fn write_key(out: &mut Writer, key: &str) -> Done
    ensures { OnOk result (AddsTokens out.old out.new (token_key key.now ∷ [])) }
{
    out.key(key)
}

/// A string.
pub(crate) fn write_word<W: Word>(out: &mut Writer, word: &W, form: Form) -> Done
    ensures { OnOk result (AddsJson out.old out.new (string (W.word word.now))) }
{
    let mut text = String::new(form.alloc);
    word.write_word(&mut text)?;
    out.string(text.as_str())
}

/// The array of the words.
pub(crate) fn write_array_of_words<W: Word>(out: &mut Writer, words: &[W], form: Form) -> Done
    ensures { OnOk result (AddsJson out.old out.new (words_json W.word words.now)) }
{
    out.begin_array()?;
    for word in words {
        write_word(out, word, form)?;
    }
    out.end_array()
}

/// A field that is `true`, if something holds.
pub(crate) fn write_flag(out: &mut Writer, key: &str, holds: bool) -> Done
    ensures { OnOk result (AddsFields out.old out.new (flag key.now holds)) }
{
    if holds {
        write_key(out, key)?;
        out.boolean(true)?;
    }
    Ok(())
}

/// A number.
pub(crate) fn write_natural(out: &mut Writer, n: u128) -> Done
    ensures { OnOk result (AddsJson out.old out.new (natural n)) }
{
    let mut digits = Buffer::new();
    out.number(digits.format(n))
}

/// A field with a number.
pub(crate) fn write_number(out: &mut Writer, key: &str, n: u128) -> Done
    ensures { OnOk result (AddsFields out.old out.new (field key.now (natural n))) }
{
    write_key(out, key)?;
    write_natural(out, n)
}

/// A field with the digits of a number as a text.
pub(crate) fn write_digits(out: &mut Writer, key: &str, n: u128) -> Done
    ensures { OnOk result (AddsFields out.old out.new (field key.now (string (decimal n)))) }
{
    let mut digits = Buffer::new();
    write_key(out, key)?;
    out.string(digits.format(n))
}

/// A field with a text.
pub(crate) fn write_text(out: &mut Writer, key: &str, text: &str) -> Done
    ensures { OnOk result (AddsFields out.old out.new (field key.now (string text.now))) }
{
    write_key(out, key)?;
    out.string(text)
}

/// A field with a word.
pub(crate) fn write_word_field<W: Word>(out: &mut Writer, key: &str, word: &W, form: Form) -> Done
    ensures { OnOk result (AddsFields out.old out.new (field key.now (string (W.word word.now)))) }
{
    write_key(out, key)?;
    write_word(out, word, form)
}

/// Bytes, two hexadecimal digits each.
pub(crate) fn write_hex(out: &mut Writer, bytes: &[u8], form: Form) -> Done
    ensures { OnOk result (AddsJson out.old out.new (hex_json bytes.now)) }
{
    let digits = hex::encode(form.alloc, bytes)?;
    out.string(digits.as_str())
}

/// A field with bytes, two hexadecimal digits each.
pub(crate) fn write_bytes(out: &mut Writer, key: &str, bytes: &[u8], form: Form) -> Done
    ensures { OnOk result (AddsFields out.old out.new (field key.now (hex_json bytes.now))) }
{
    write_key(out, key)?;
    write_hex(out, bytes, form)
}

/// A field with the array of the ids of a set.
pub(crate) fn write_set(out: &mut Writer, key: &str, set: u128) -> Done
    ensures { OnOk result (AddsFields out.old out.new (field key.now (ids_json set))) }
{
    write_key(out, key)?;
    out.begin_array()?;
    for id in Ids::below(set, MOST_IDS) {
        out.u64(id as u64)?;
    }
    out.end_array()
}

/// A field with a part.
pub(crate) fn write_part<P: Part>(out: &mut Writer, key: &str, part: &P, form: Form) -> Done
    ensures { OnOk result (AddsFields out.old out.new (field key.now (P.json form.numbers part.now))) }
{
    write_key(out, key)?;
    part.write_json(out, form)
}

/// A field with an array of parts.
pub(crate) fn write_list<P: Part>(out: &mut Writer, key: &str, parts: &[P], form: Form) -> Done
    ensures { OnOk result (AddsFields out.old out.new (field key.now (list_of (P.json form.numbers) parts.now))) }
{
    write_key(out, key)?;
    write_array(out, parts, form)
}

/// A field with an array of parts, if something holds.
pub(crate) fn write_list_if<P: Part>(
    out: &mut Writer,
    key: &str,
    holds: bool,
    parts: &[P],
    form: Form,
) -> Done
    ensures { OnOk result (AddsFields out.old out.new
        (fields_if holds (field key.now (list_of (P.json form.numbers) parts.now)))) }
{
    if holds {
        write_list(out, key, parts, form)?;
    }
    Ok(())
}

/// A field with an array of words.
pub(crate) fn write_words<W: Word>(out: &mut Writer, key: &str, words: &[W], form: Form) -> Done
    ensures { OnOk result (AddsFields out.old out.new (field key.now (words_json W.word words.now))) }
{
    write_key(out, key)?;
    write_array_of_words(out, words, form)
}

/// A field with an array of words, unless there are none.
pub(crate) fn write_words_if_any<W: Word>(
    out: &mut Writer,
    key: &str,
    words: &[W],
    form: Form,
) -> Done
    ensures { OnOk result (AddsFields out.old out.new (words_if_any key.now W.word words.now)) }
{
    if words.is_empty() {
        return Ok(());
    }
    write_words(out, key, words, form)
}

/// An object of numbers.
pub(crate) fn write_numbers(out: &mut Writer, numbers: &[(&str, u128)]) -> Done
    ensures { OnOk result (AddsJson out.old out.new (numbers_json (map (λ n. (n.0.now, n.1)) numbers.now))) }
{
    begin_object(out)?;
    for (key, number) in numbers {
        write_number(out, key, *number)?;
    }
    end_object(out)
}
