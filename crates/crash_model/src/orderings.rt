//! Orderings: how operations become patches, and the rules that order these.

ghost use Rattle.std.specs.Prelude.{◌≡◌, ◌≤◌, ◌+◌, ◌++◌, length, false};
ghost use Rattle.crash_model.specs.Rules.{rules_of};
ghost use Rattle.crash_model.specs.ChosenRules.{rules_taken_out, kept_rules, rules_put_in, rules_under};

use crate::modules::Module;
use crate::plans::Role::{
    EntryClear, EntrySet, InitDir, InitFile, InodeFree, InodeInit, LinkDown, LinkUp, MapClear,
    MapSet, Ptr, PtrClear,
};
use crate::rule_lists::{MAX_GIVEN, RuleList, rules_in_both, rules_in_first};
use crate::rules::Rule;
use crate::rules::RulePart::{Change, Commit, Copy, Done, FileData, InPlace};
use crate::rules::Scope::{Previous, Same};
use arrayvec::ArrayVec;

/// The rules of soft updates (Ganger and Patt, 1994).
///
/// Nothing points to a structure that is not initialised: an entry waits for its inode and that inode's pointer, a
/// pointer for its block, a block for its mark in the map. Nothing is used again while something points to it: an
/// inode is freed after its entry, a block after its inode or after the pointers that are cleared. The last pointer to
/// something stays until a new one is there: an old entry waits for the new one, and link counts are never too low.
static SOFT: [Rule; MAX_OWN] = [
    Rule {
        later: Change(EntrySet),
        earlier: Change(InodeInit),
        scope: Same,
    },
    Rule {
        later: Change(EntrySet),
        earlier: Change(LinkUp),
        scope: Same,
    },
    Rule {
        later: Change(EntrySet),
        earlier: Change(Ptr),
        scope: Same,
    },
    Rule {
        later: Change(InitFile),
        earlier: Change(MapSet),
        scope: Same,
    },
    Rule {
        later: Change(InitDir),
        earlier: Change(MapSet),
        scope: Same,
    },
    Rule {
        later: Change(Ptr),
        earlier: Change(InitFile),
        scope: Same,
    },
    Rule {
        later: Change(Ptr),
        earlier: Change(InitDir),
        scope: Same,
    },
    Rule {
        later: Change(Ptr),
        earlier: Change(MapSet),
        scope: Same,
    },
    Rule {
        later: Change(LinkDown),
        earlier: Change(EntryClear),
        scope: Same,
    },
    Rule {
        later: Change(InodeFree),
        earlier: Change(EntryClear),
        scope: Same,
    },
    Rule {
        later: Change(MapClear),
        earlier: Change(InodeFree),
        scope: Same,
    },
    Rule {
        later: Change(EntryClear),
        earlier: Change(EntrySet),
        scope: Same,
    },
    Rule {
        later: Change(MapClear),
        earlier: Change(PtrClear),
        scope: Same,
    },
];

/// The rules of a journal.
///
/// File data and a commit wait for the commit before, a commit for its copies and its file data, changes in place
/// for their commit, and done for the changes in place and the done before.
static JOURNAL: [Rule; 7] = [
    Rule {
        later: FileData,
        earlier: Commit,
        scope: Previous,
    },
    Rule {
        later: Commit,
        earlier: Copy,
        scope: Same,
    },
    Rule {
        later: Commit,
        earlier: FileData,
        scope: Same,
    },
    Rule {
        later: Commit,
        earlier: Commit,
        scope: Previous,
    },
    Rule {
        later: InPlace,
        earlier: Commit,
        scope: Same,
    },
    Rule {
        later: Done,
        earlier: InPlace,
        scope: Same,
    },
    Rule {
        later: Done,
        earlier: Done,
        scope: Previous,
    },
];

impl Module {
    /// The rules of the module, in the order in which reports name them.
    pub fn rules(self) -> &'static [Rule]
        ensures rules { result.now ≡ rules_of self }
        ensures few { length result.now ≤ MAX_OWN }
    {
        match self {
            Module::Async => &[],
            Module::Soft => &SOFT,
            Module::Meta | Module::Full => &JOURNAL,
        }
    }

    /// The module's rules that are taken out, in the module's order.
    pub fn taken_out(self, without: &[Rule]) -> RuleList
        ensures { result.items ≡ rules_taken_out self without.now }
    {
        rules_in_both(self.rules(), without)
    }

    /// The module's rules that stay, in the module's order.
    pub fn kept_rules(self, without: &[Rule]) -> RuleList
        ensures rules { result.items ≡ kept_rules self without.now }
        ensures few { length result.items ≤ MAX_OWN }
    {
        rules_in_first(self.rules(), without)
    }

    /// The rules of `with` that the module's list has not kept, in their order.
    pub fn put_in(self, without: &[Rule], with: &[Rule]) -> RuleList
        requires { length with.now ≤ MAX_GIVEN }
        ensures rules { result.items ≡ rules_put_in self without.now with.now }
        ensures few { length result.items ≤ MAX_GIVEN }
    {
        let kept = self.kept_rules(without);
        rules_in_first(with, kept.as_slice())
    }
}

/// The most rules that a module has.
pub const MAX_OWN: usize = 13;

/// The most rules that an ordering has: those of a module, and as many as a user puts in.
pub const MAX_RULES: usize = MAX_OWN + MAX_GIVEN;

/// An ordering: the module that turns operations into patches, and the rules that order these. If blocks are written
/// whole, a patch also depends on each earlier one of its block.
#[derive(Drop)]
pub struct Ordering {
    pub module: Module,
    pub rules: ArrayVec<Rule, MAX_RULES>,
    pub whole_blocks: bool,
}

impl Ordering {
    /// The ordering with the module's own rules.
    pub fn of(module: Module) -> Ordering
        ensures module { result.«module» ≡ «module» }
        ensures rules { result.rules.items ≡ rules_of «module» }
        ensures parts { result.whole_blocks ≡ false }
    {
        let mut rules = ArrayVec::new();
        push_rules(&mut rules, module.rules());
        Ordering {
            module,
            rules,
            whole_blocks: false,
        }
    }

    /// The ordering with the rules `without` taken out of the module's list, and the rules `with` put in at its end.
    ///
    /// A rule of `without` that the module's list does not have changes nothing, and a rule of `with` that the list has
    /// kept is not put in again.
    pub fn under(module: Module, without: &[Rule], with: &[Rule]) -> Ordering
        requires { length with.now ≤ MAX_GIVEN }
        ensures module { result.«module» ≡ «module» }
        ensures rules { result.rules.items ≡ rules_under «module» without.now with.now }
        ensures parts { result.whole_blocks ≡ false }
    {
        let mut rules = ArrayVec::new();
        push_rules(&mut rules, module.kept_rules(without).as_slice());
        push_rules(&mut rules, module.put_in(without, with).as_slice());
        Ordering {
            module,
            rules,
            whole_blocks: false,
        }
    }
}

/// Adds some rules, in their order.
fn push_rules(rules: &mut ArrayVec<Rule, MAX_RULES>, more: &[Rule])
    requires { length rules.old.items + length more.now ≤ MAX_RULES }
    ensures { rules.new.items ≡ rules.old.items ++ more.now }
{
    for rule in more {
        rules.push(*rule);
    }
}
