//! The page of rules: which a module has, what a rule can name, and what each means.

use crash_model::modules::Module;
use crash_model::rules::Rule;
use std::alloc::{AllocError, Global};

/// What the page of rules says of the parts that a rule names.
const PARTS: &str = "
A rule LATER:EARLIER makes the later part wait for the earlier one of the same operation, LATER:previous-EARLIER for the
one of the operation right before, and LATER:before-EARLIER for those of all operations before. The parts are:
  InodeInit   a new inode
  EntrySet    a name that comes into a directory
  EntryClear  a name that goes out of a directory
  MapSet      a block's mark as used
  MapClear    a block's mark as free
  InitFile    the first contents of a file's block
  InitDir     the first contents of a directory's block
  Ptr         an inode's pointer to a block
  LinkUp      a link count that rises
  LinkDown    a link count that falls
  InodeFree   an inode that becomes free
  PtrClear    all pointers of an inode, cleared
  NewData     the data of a file's block, overwritten
  Touch       an inode whose file is overwritten
  InPlace     any of these, where it belongs on the disk, but NewData under meta
  FileData    a file's block, written ahead of its transaction
  Copy        the copy of a block in the journal
  Commit      the header that commits a transaction
  Done        the header's mark that all is in place
";

/// The rules of the modules, each with its meaning, as the page has them.
static RULES: [&str; 20] = [
    "EntrySet:InodeInit         a name waits for the inode that it leads to",
    "EntrySet:LinkUp            a name waits for the link count that counts it",
    "EntrySet:Ptr               a directory's name waits for the pointer to its block",
    "InitFile:MapSet            a file's block waits for its mark as used",
    "InitDir:MapSet             a directory's block waits for its mark as used",
    "Ptr:InitFile               a pointer waits for the file's block",
    "Ptr:InitDir                a pointer waits for the directory's block",
    "Ptr:MapSet                 a pointer waits for its block's mark as used",
    "LinkDown:EntryClear        a link count falls after the name is gone",
    "InodeFree:EntryClear       an inode becomes free after its last name is gone",
    "MapClear:InodeFree         a block becomes free after the inode that points to it",
    "EntryClear:EntrySet        a rename's old name goes after the new one is there",
    "MapClear:PtrClear          a block becomes free after the pointers of a truncated file are cleared",
    "FileData:previous-Commit   a file's block waits for the commit before it, which may have freed the block",
    "Commit:Copy                a commit waits for all copies of its transaction",
    "Commit:FileData            a commit waits for the file's block",
    "Commit:previous-Commit     transactions commit in order",
    "InPlace:Commit             blocks change in place after the commit",
    "Done:InPlace               a transaction is done after its blocks changed in place",
    "Done:previous-Done         transactions are done in order",
];

/// The page that `--rules` prints: the module's rules, and the parts that a rule names, each with its meaning.
pub(crate) fn rules_page(heap: Global, module: Module) -> Result<String, AllocError> {
    let mut page = String::new(heap);
    let name = module.name();
    if module.rules().is_empty() {
        write!(page, "{name} has no rules.\n")?;
    } else {
        write!(page, "Rules of {name}, in their order:\n")?;
    }
    for rule in module.rules() {
        write!(page, "  {}\n", meaning(*rule))?;
    }
    page.push_str(PARTS)?;
    Ok(page)
}

/// The line of a rule of a module.
fn meaning(rule: Rule) -> &'static str {
    for line in &RULES {
        if let Some((word, _)) = line.split_once(" ") {
            if Rule::read(word) == Some(rule) {
                return line;
            }
        }
    }
    ""
}
