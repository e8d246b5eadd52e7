//! Rules that order patches.

ghost use Rattle.std.specs.Prelude.{◌≡◌, ◌++◌, MatchOption, bytes_eq};
ghost use Rattle.crash_model.specs.Rules.{has_part, are_scoped};
ghost use Rattle.crash_model.specs.PatchTexts.{part_text};
ghost use Rattle.crash_model.specs.RuleTexts.{rule_part_text, scope_text};
ghost use Rattle.crash_model.specs.ChosenRules.{is_same_rule};
ghost use Rattle.crash_model.specs.RuleFacts.{IsNoRulePart, HasNoScope};
ghost use Rattle.crash_model.specs.declared.rules.Scope.TheVariants.{Same};

use crate::plans::Role;
use std::fmt;

/// The part that a patch plays in its operation.
///
/// `InPlace` is one of the operation's changes where it belongs. The others are parts of a transaction of the
/// journal: `FileData` is a new file's block, written ahead of the transaction, `NewData` are data of a block that are
/// written anew and stay out of the journal, `Copy` is the image of a block in the journal, `Commit` the header that
/// commits the transaction, and `Done` the header's mark that all is in place.
#[derive(Clone, Copy, Debug, PartialEq, Eq, Default)]
pub enum Part {
    InPlace(Role),
    FileData,
    NewData,
    Copy,
    #[default]
    Commit,
    Done,
}

impl Part {
    /// Its name in reports. That of a change in place is the name of its role.
    pub fn name(self) -> &'static str
        ensures { result.now ≡ part_text self }
    {
        match self {
            Part::InPlace(role) => role.name(),
            Part::FileData => "FileData",
            Part::NewData => "NewData",
            Part::Copy => "Copy",
            Part::Commit => "Commit",
            Part::Done => "Done",
        }
    }
}

/// The patches that a rule is about: changes of one role, changes in place of any role, or one of the other parts of a
/// transaction.
#[derive(Clone, Copy, Debug, PartialEq, Eq, Default)]
pub enum RulePart {
    Change(Role),
    #[default]
    InPlace,
    FileData,
    Copy,
    Commit,
    Done,
}

impl RulePart {
    /// The part of a rule with this spelling, if there is one.
    pub fn read(text: &str) -> Option<RulePart>
        ensures { MatchOption result (IsNoRulePart text.now) (λ part. text.now ≡ rule_part_text part) }
    {
        match text {
            "InodeInit" => Some(RulePart::Change(Role::InodeInit)),
            "EntrySet" => Some(RulePart::Change(Role::EntrySet)),
            "EntryClear" => Some(RulePart::Change(Role::EntryClear)),
            "MapSet" => Some(RulePart::Change(Role::MapSet)),
            "MapClear" => Some(RulePart::Change(Role::MapClear)),
            "InitFile" => Some(RulePart::Change(Role::InitFile)),
            "InitDir" => Some(RulePart::Change(Role::InitDir)),
            "Ptr" => Some(RulePart::Change(Role::Ptr)),
            "LinkUp" => Some(RulePart::Change(Role::LinkUp)),
            "LinkDown" => Some(RulePart::Change(Role::LinkDown)),
            "InodeFree" => Some(RulePart::Change(Role::InodeFree)),
            "PtrClear" => Some(RulePart::Change(Role::PtrClear)),
            "NewData" => Some(RulePart::Change(Role::NewData)),
            "Touch" => Some(RulePart::Change(Role::Touch)),
            "InPlace" => Some(RulePart::InPlace),
            "FileData" => Some(RulePart::FileData),
            "Copy" => Some(RulePart::Copy),
            "Commit" => Some(RulePart::Commit),
            "Done" => Some(RulePart::Done),
            _ => None,
        }
    }

    /// Its name in rules.
    pub fn name(self) -> &'static str
        ensures { result.now ≡ rule_part_text self }
    {
        match self {
            RulePart::Change(role) => role.name(),
            RulePart::InPlace => "InPlace",
            RulePart::FileData => "FileData",
            RulePart::Copy => "Copy",
            RulePart::Commit => "Commit",
            RulePart::Done => "Done",
        }
    }

    /// Whether it is the same part.
    fn same(self, other: RulePart) -> bool
        ensures { result ≡ bytes_eq (rule_part_text self) (rule_part_text other) }
    {
        self == other
    }

    /// Whether a rule with it is about patches with this part.
    pub fn has(self, part: Part) -> bool
        ensures { result ≡ has_part self part }
    {
        match (self, part) {
            (RulePart::Change(role), Part::InPlace(other)) => role == other,
            (RulePart::Change(Role::NewData), Part::NewData)
            | (RulePart::InPlace, Part::InPlace(_))
            | (RulePart::FileData, Part::FileData)
            | (RulePart::Copy, Part::Copy)
            | (RulePart::Commit, Part::Commit)
            | (RulePart::Done, Part::Done) => true,
            _ => false,
        }
    }
}

/// Which operation the earlier patch belongs to: the later patch's own, the one right before it, or any one before it.
#[derive(Clone, Copy, Debug, PartialEq, Eq, Default)]
pub enum Scope {
    #[default]
    Same,
    Previous,
    Before,
}

impl Scope {
    /// The scope that a text begins with, and the text after it.
    fn read(text: &str) -> (Scope, &str)
        ensures scope { text.now ≡ scope_text result.0 ++ result.1.now }
        ensures same { (result.0 ≡ Same) → HasNoScope text.now }
    {
        if let Some(rest) = text.strip_prefix("previous-") {
            return (Scope::Previous, rest);
        }
        if let Some(rest) = text.strip_prefix("before-") {
            return (Scope::Before, rest);
        }
        (Scope::Same, text)
    }

    /// Whether it is the same scope.
    fn same(self, other: Scope) -> bool
        ensures { result ≡ bytes_eq (scope_text self) (scope_text other) }
    {
        self == other
    }

    /// Whether the operations with these numbers are placed as the scope says.
    pub fn has(self, later: usize, earlier: usize) -> bool
        ensures { result ≡ are_scoped self later earlier }
    {
        match self {
            Scope::Same => later == earlier,
            Scope::Previous => later > earlier && later - earlier == 1,
            Scope::Before => later > earlier,
        }
    }
}

/// A rule of an ordering: a patch with the part `later` waits for each earlier one with the part `earlier` whose
/// operation is placed as the scope says.
#[derive(Clone, Copy, Debug, PartialEq, Eq, Default)]
pub struct Rule {
    pub later: RulePart,
    pub earlier: RulePart,
    pub scope: Scope,
}

impl Rule {
    ghost use Rattle.crash_model.specs.RuleTexts.{rule_text};
    ghost use Rattle.crash_model.specs.RuleFacts.{IsNoRule};

    /// The rule that this text writes, as `LATER:EARLIER`, `LATER:previous-EARLIER` or `LATER:before-EARLIER`. `None`
    /// for any other text.
    pub fn read(text: &str) -> Option<Rule>
        ensures { MatchOption result (IsNoRule text.now) (λ rule. text.now ≡ rule_text rule) }
    {
        let (later, rest) = text.split_once(":")?;
        let (scope, earlier) = Scope::read(rest);
        Some(Rule {
            later: RulePart::read(later)?,
            earlier: RulePart::read(earlier)?,
            scope,
        })
    }

    /// Whether it is the same rule.
    pub fn same(self, other: Rule) -> bool
        ensures { result ≡ is_same_rule self other }
    {
        self.later.same(other.later)
            && self.earlier.same(other.earlier)
            && self.scope.same(other.scope)
    }
}

impl fmt::Display for Rule {
    ghost use Rattle.std.specs.Prelude.{Some};
    ghost use Rattle.crash_model.specs.RuleTexts.{rule_text};

    ghost output = { λ rule. Some (rule_text rule) };

    fn fmt<W: fmt::Write>(&self, f: &mut fmt::Formatter<W>) -> fmt::Result {
        let (later, earlier) = (self.later.name(), self.earlier.name());
        match self.scope {
            Scope::Same => write!(f, "{later}:{earlier}"),
            Scope::Previous => write!(f, "{later}:previous-{earlier}"),
            Scope::Before => write!(f, "{later}:before-{earlier}"),
        }
    }
}
