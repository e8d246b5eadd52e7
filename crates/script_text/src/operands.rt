//! Operands: the words of a line after the first.

ghost use Rattle.std.specs.Prelude.{◌≡◌, ◌<◌, ◌≤◌, ◌↔◌, [], ◌∷◌, length, map, flat_map, None, MatchResult, IsTrue};
ghost use Rattle.std.specs.Prelude.{All, Contains};
ghost use Rattle.crash_model.specs.Names.{IsGroupName};
ghost use Rattle.crash_model.specs.Script.{operand_words, PathOperand, TargetOperand, PathsOperand, GroupOperand};
ghost use Rattle.crash_model.specs.Script.{SlotOperand};
ghost use Rattle.crash_model.specs.PathTexts.{IsPath, path_text};
ghost use Rattle.crash_model.specs.Targets.{IsTarget, target_text};
ghost use Rattle.crash_model.specs.declared.promises.TheConstants.{MOST_PATHS};
ghost use Rattle.crash_model.specs.declared.steps.Target.TheVariants.{Root};
ghost use Rattle.script_text.specs.Words.{anywhere, IsOperandFault};

use crate::line::LineFault;
use arrayvec::ArrayVec;
use crash_model::names::{GroupName, Path};
use crash_model::operations::Slot;
use crash_model::promises::{MOST_PATHS, Paths};
use crash_model::steps::Target;

/// No operands.
pub(crate) fn none(operands: &[&str]) -> Result<(), LineFault>
    ensures { MatchResult result (λ _.
        map (λ word. word.now) operands.now ≡ []) (IsOperandFault [] (map (λ word. word.now) operands.now)) }
{
    if !operands.is_empty() {
        return Err(LineFault::BadLine);
    }
    Ok(())
}

/// One path.
pub(crate) fn path(operands: &[&str]) -> Result<Path, LineFault>
    ensures { MatchResult result (λ path. IsPath path × (map (λ word. word.now) operands.now ≡ path_text path ∷ []))
        (IsOperandFault (PathOperand anywhere ∷ []) (map (λ word. word.now) operands.now)) }
{
    let [word] = operands else {
        return Err(LineFault::BadLine);
    };
    if word.is_empty() {
        return Err(LineFault::BadLine);
    }
    Path::read(word).ok_or(LineFault::BadPath)
}

/// Two paths.
pub(crate) fn two_paths(operands: &[&str]) -> Result<(Path, Path), LineFault>
    ensures { MatchResult result (λ paths. IsPath paths.0 × IsPath paths.1
        × (map (λ word. word.now) operands.now ≡ path_text paths.0 ∷ path_text paths.1 ∷ []))
        (IsOperandFault (PathOperand anywhere ∷ PathOperand anywhere ∷ []) (map (λ word. word.now) operands.now)) }
{
    let [old, new] = operands else {
        return Err(LineFault::BadLine);
    };
    if old.is_empty() || new.is_empty() {
        return Err(LineFault::BadLine);
    }
    match (Path::read(old), Path::read(new)) {
        (Some(old), Some(new)) => Ok((old, new)),
        _ => Err(LineFault::BadPath),
    }
}

/// A path, or `/` for the root directory.
pub(crate) fn target(operands: &[&str]) -> Result<Target, LineFault>
    ensures { MatchResult result (λ target. IsTarget target
        × (map (λ word. word.now) operands.now ≡ target_text target ∷ []))
        (IsOperandFault (TargetOperand Root ∷ []) (map (λ word. word.now) operands.now)) }
{
    let [word] = operands else {
        return Err(LineFault::BadLine);
    };
    if word.is_empty() {
        return Err(LineFault::BadLine);
    }
    if *word == "/" {
        return Ok(Target::Root);
    }
    match Path::read(word) {
        Some(path) => Ok(Target::At(path)),
        None => Err(LineFault::BadPath),
    }
}

/// One to four paths.
pub(crate) fn paths(operands: &[&str]) -> Result<Paths, LineFault>
    ensures { MatchResult result (λ paths. (0 < length paths.items) × (length paths.items ≤ MOST_PATHS)
        × All IsPath paths.items × (map (λ word. word.now) operands.now ≡ map path_text paths.items))
        (IsOperandFault (PathsOperand [] ∷ []) (map (λ word. word.now) operands.now)) }
{
    if operands.is_empty() || operands.len() > MOST_PATHS || has_empty(operands) {
        return Err(LineFault::BadLine);
    }
    let mut paths = ArrayVec::new();
    for word in operands {
        match Path::read(word) {
            Some(path) => paths.push(path),
            None => return Err(LineFault::BadPath),
        }
    }
    Ok(paths)
}

/// Whether a word is empty.
fn has_empty(words: &[&str]) -> bool
    ensures { IsTrue result ↔ Contains (map (λ word. word.now) words.now) [] }
{
    for word in words {
        if word.is_empty() {
            return true;
        }
    }
    false
}

/// A path, and perhaps a slot.
pub(crate) fn path_and_slot(operands: &[&str]) -> Result<(Path, Option<Slot>), LineFault>
    ensures { MatchResult result (λ both. IsPath both.0 × (map (λ word. word.now) operands.now
        ≡ flat_map operand_words (PathOperand both.0 ∷ SlotOperand both.1 ∷ [])))
        (IsOperandFault (PathOperand anywhere ∷ SlotOperand None ∷ []) (map (λ word. word.now) operands.now)) }
{
    match operands {
        [path] if !path.is_empty() => {
            let path = Path::read(path).ok_or(LineFault::BadPath)?;
            Ok((path, None))
        }
        [path, slot] if !path.is_empty() && !slot.is_empty() => {
            let path = Path::read(path).ok_or(LineFault::BadPath)?;
            let slot = Slot::read(slot).ok_or(LineFault::BadLine)?;
            Ok((path, Some(slot)))
        }
        _ => Err(LineFault::BadLine),
    }
}

/// One name of a group.
pub(crate) fn group(operands: &[&str]) -> Result<GroupName, LineFault>
    ensures { MatchResult result (λ group. IsGroupName group × (map (λ word. word.now) operands.now ≡ group ∷ []))
        (IsOperandFault (GroupOperand [] ∷ []) (map (λ word. word.now) operands.now)) }
{
    let [word] = operands else {
        return Err(LineFault::BadLine);
    };
    GroupName::read(word).ok_or(LineFault::BadLine)
}

/// Two names of groups.
pub(crate) fn two_groups(operands: &[&str]) -> Result<(GroupName, GroupName), LineFault>
    ensures { MatchResult result (λ groups. IsGroupName groups.0 × IsGroupName groups.1
        × (map (λ word. word.now) operands.now ≡ groups.0 ∷ groups.1 ∷ []))
        (IsOperandFault (GroupOperand [] ∷ GroupOperand [] ∷ []) (map (λ word. word.now) operands.now)) }
{
    let [later, earlier] = operands else {
        return Err(LineFault::BadLine);
    };
    let later = GroupName::read(later).ok_or(LineFault::BadLine)?;
    let earlier = GroupName::read(earlier).ok_or(LineFault::BadLine)?;
    Ok((later, earlier))
}
