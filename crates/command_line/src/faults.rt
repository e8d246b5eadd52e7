//! Words that `clap` takes and the program does not.

use crash_model::rules::Rule;
use std::fmt;

/// A value of an option that is refused, and why.
#[derive(Clone, Copy)]
pub(crate) struct WordFault<'a> {
    pub option: &'a str,
    pub value: Value<'a>,
    pub why: &'a str,
}

/// A value that is refused.
#[derive(Clone, Copy)]
pub(crate) enum Value<'a> {
    Word(&'a str),
    Rule(Rule),
}

impl fmt::Display for WordFault<'_> {
    fn fmt<W: fmt::Write>(&self, f: &mut fmt::Formatter<W>) -> fmt::Result {
        f.write_str("invalid value '")?;
        match self.value {
            Value::Word(word) => f.write_str(word)?,
            Value::Rule(rule) => write!(f, "{rule}")?,
        }
        let symbol = match self.option {
            "faults" => "K,..",
            _ => "RULE",
        };
        write!(f, "' for '--{} <{symbol}>': {}", self.option, self.why)
    }
}
