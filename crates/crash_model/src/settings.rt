//! What a run is asked for besides its script and its question.

ghost use Rattle.std.specs.Prelude.{◌≡◌};
ghost use Rattle.crash_model.specs.ChosenRules.{rules_under, rules_taken_out, rules_put_in};

use crate::modules::Module;
use crate::orderings::Ordering;
use crate::rule_lists::RuleList;

/// The settings of a run.
///
/// The ordering is the module's with the rules `without` taken out and the rules `with` put in at its end. The disk
/// has `blocks` blocks of 128 bytes, of which `journal` are the journal's. The report is JSON if `json` is set, else
/// text; with `numbers` JSON also has the numbers of each fault, and of the disk; with `explain` a report says what the
/// patches are and what replay changes. With `whole_blocks` a block is written with all changes that it has in memory,
/// so a patch depends on each earlier one of its block. With `generations` the inodes and the marks of blocks on the
/// disk have generations. With `strict` the checker also requires of each image that nothing the script keeps is lost;
/// with `atomic`, that it shows the disk after some number of whole operations. With `durable` each fsync of a path
/// promises that the path shows what it showed, until a later operation touches it. With `counted` only faults of these
/// numbers count, which are given as a set.
#[derive(Debug, PartialEq, Eq, Drop)]
pub struct Settings {
    pub module: Module,
    pub without: RuleList,
    pub with: RuleList,
    pub blocks: usize,
    pub journal: usize,
    pub json: bool,
    pub numbers: bool,
    pub explain: bool,
    pub whole_blocks: bool,
    pub generations: bool,
    pub strict: bool,
    pub atomic: bool,
    pub durable: bool,
    pub counted: Option<u16>,
}

/// What a checker is asked for besides the six faults: whether it is strict, whether operations are to be atomic,
/// whether each fsync promises, and which faults count: their numbers, as a set, if not all do.
#[derive(Clone, Copy, Debug, PartialEq, Eq)]
pub struct Asked {
    pub strict: bool,
    pub atomic: bool,
    pub durable: bool,
    pub counted: Option<u16>,
}

impl Settings {
    /// The ordering that they ask for.
    pub fn ordering(&self) -> Ordering
        ensures module { result.«module» ≡ self.now.«module» }
        ensures whole { result.whole_blocks ≡ self.now.whole_blocks }
        ensures rules { result.rules.items ≡ rules_under self.now.«module» self.now.without.items self.now.with.items }
    {
        Ordering {
            whole_blocks: self.whole_blocks,
            ..Ordering::under(self.module, self.without.as_slice(), self.with.as_slice())
        }
    }

    /// The rules that are taken out, in the order of the module's list.
    pub fn taken_out(&self) -> RuleList
        ensures { result.items ≡ rules_taken_out self.now.«module» self.now.without.items }
    {
        self.module.taken_out(self.without.as_slice())
    }

    /// The rules that are put in, in the order in which they were given.
    pub fn put_in(&self) -> RuleList
        ensures { result.items ≡ rules_put_in self.now.«module» self.now.without.items self.now.with.items }
    {
        self.module
            .put_in(self.without.as_slice(), self.with.as_slice())
    }
}
