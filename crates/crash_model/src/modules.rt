//! Ordering modules.

ghost use Rattle.std.specs.Prelude.{◌≡◌};
ghost use Rattle.crash_model.specs.Texts.{module_text};

/// What orders the patches of an operation.
///
/// `Async` adds no order, `Soft` the rules of soft updates (Ganger and Patt, 1994), `Meta` a journal of metadata
/// with file data written ahead (ordered mode), `Full` a journal of metadata and file data.
#[derive(Clone, Copy, Debug, PartialEq, Eq)]
pub enum Module {
    Async,
    Soft,
    Meta,
    Full,
}

impl Module {
    /// Its name in reports and on the command line.
    pub fn name(self) -> &'static str
        ensures { result.now ≡ module_text self }
    {
        match self {
            Module::Async => "async",
            Module::Soft => "soft",
            Module::Meta => "meta",
            Module::Full => "full",
        }
    }
}
