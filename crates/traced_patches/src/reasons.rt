//! Why a patch depends on an earlier one.

ghost use Rattle.std.specs.Prelude.{◌≡◌, ℕ, ◌==◌, not, map, length};
ghost use Rattle.crash_model.specs.Reasons.{reasons};
ghost use Rattle.crash_model.specs.Trace.{Emitted, depends};
ghost use Rattle.traced_patches.specs.Traced.{TracedPatches, AreReasons};
ghost use Rattle.traced_patches.specs.Reasons.{reason_text};

use arrayvec::ArrayVec;
use crash_model::orderings::MAX_RULES;
use crash_model::rules::Rule;
use std::fmt;

/// The reasons that there can be: an overlap, a block that is written whole, a link of groups, a line that waits, and
/// each rule.
const MAX_REASONS: usize = MAX_RULES + 4;

/// Why a patch depends on an earlier one: they overlap, they change a block that is written whole, their groups are
/// linked, a line between them waits, or these rules apply to them.
#[derive(Drop)]
pub struct Reasons {
    pub overlap: bool,
    pub block: bool,
    pub group: bool,
    pub wait: bool,
    pub rules: ArrayVec<Rule, MAX_RULES>,
}

/// One reason.
#[derive(Clone, Copy, Debug, PartialEq, Eq, Default)]
pub enum Reason {
    #[default]
    Overlap,
    Block,
    Group,
    Wait,
    Rule(Rule),
}

impl fmt::Display for Reason {
    ghost use Rattle.std.specs.Prelude.{Some};
    ghost use Rattle.traced_patches.specs.Reasons.{reason_text};

    ghost output = { λ reason. Some (reason_text reason) };

    fn fmt<W: fmt::Write>(&self, f: &mut fmt::Formatter<W>) -> fmt::Result {
        match *self {
            Reason::Overlap => write!(f, "overlap"),
            Reason::Block => write!(f, "block"),
            Reason::Group => write!(f, "group"),
            Reason::Wait => write!(f, "wait"),
            Reason::Rule(rule) => write!(f, "{rule}"),
        }
    }
}

impl Reasons {
    /// The reasons one by one, in the order of the report. There is one exactly if the patch depends on
    /// the earlier one.
    pub fn list(&self) -> ArrayVec<Reason, MAX_REASONS>
        ensures texts { (t : TracedPatches) (q : Emitted) (id : ℕ) (p : Emitted) → AreReasons t q id p self.now
            → map reason_text result.items ≡ reasons t.rules t.whole t.links q id p }
        ensures some { (t : TracedPatches) (q : Emitted) (id : ℕ) (p : Emitted) → AreReasons t q id p self.now
            → depends t.rules t.whole t.links q id p ≡ not (length result.items == 0) }
    {
        let mut list = ArrayVec::new();
        if self.overlap {
            list.push(Reason::Overlap);
        }
        if self.block {
            list.push(Reason::Block);
        }
        if self.group {
            list.push(Reason::Group);
        }
        if self.wait {
            list.push(Reason::Wait);
        }
        for rule in self.rules.as_slice() {
            list.push(Reason::Rule(*rule));
        }
        list
    }
}
