//! Words of a line.

ghost use Rattle.std.specs.Prelude.{◌≡◌, ◌<◌, ℕ, List, length, map, MatchOption};
ghost use Rattle.crash_model.specs.ScriptRefusals.{AreWords};
ghost use Rattle.script_text.specs.declared.words.TheConstants.{MOST_WORDS};

use arrayvec::ArrayVec;

/// The most words of a line: `keep` and four paths.
const MOST_WORDS: usize = 5;

/// The words of the text, cut at each space; `None` if there are more than five.
pub(crate) fn words(text: &str) -> Option<ArrayVec<&str, MOST_WORDS>>
    ensures { MatchOption result ((words : List (List ℕ)) → AreWords text.now words
        → MOST_WORDS < length words) (λ words. AreWords text.now (map (λ word. word.now) words.items)) }
{
    let mut words = ArrayVec::new();
    for word in text.split(' ') {
        if words.is_full() {
            return None;
        }
        words.push(word);
    }
    Some(words)
}
