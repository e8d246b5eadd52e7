//! Names and paths.

ghost use Rattle.std.specs.Prelude.{◌≡◌, ℕ, ◌-◌, ◌≤◌, ◌<◌, ◌++◌, ◌↔◌, replicate, length, IsTrue, MatchOption};
ghost use Rattle.std.specs.Prelude.{slice_index, ◌≢◌, bytes_eq};
ghost use Rattle.std.specs.List.{list_all};
ghost use Rattle.crash_model.specs.Names.{IsName, IsGroupName, is_name_byte, is_group_byte};
ghost use Rattle.crash_model.specs.FirstNames.{IsShort, BeginsWith, HasFirstName};
ghost use Rattle.crash_model.specs.Plan.{name_spelling};

use crate::disk_bytes::LONGEST_NAME;
use crate::separators::SLASH;
use arrayvec::ArrayVec;
use std::marker::Model;
use std::{fmt, mem, str};

/// A name in a directory: 1 to 10 characters of a to z and 0 to 9.
#[derive(Drop)]
pub struct Name {
    bytes: ArrayVec<u8, LONGEST_NAME>,
}

impl Model for Name {
    ghost use Rattle.std.specs.Prelude.{List, ℕ};
    ghost use Rattle.crash_model.specs.Names.{IsName};

    ghost Value = { List ℕ };

    ghost view = { λ n. n.bytes.items };

    ghost invariant = { λ n. IsName n.bytes.items };
}

impl Default for Name {
    /// The name `a`.
    fn default() -> Name {
        let mut bytes = ArrayVec::new();
        bytes.push(b'a');
        Name { bytes }
    }
}

impl Name {
    /// The name of these bytes, or `None` if they are no name.
    pub fn read(bytes: &[u8]) -> Option<Name>
        ensures { MatchOption result (¬ (IsName bytes.now)) (λ name. (name ≡ bytes.now) × IsName bytes.now) }
    {
        if !are_name_bytes(bytes) {
            return None;
        }
        let bytes = word(bytes)?;
        Some(Name { bytes })
    }

    /// Its text.
    pub fn as_str(&self) -> &str
        ensures text { result.now ≡ self.now }
        ensures name { IsName self.now }
    {
        let Ok(text) = str::from_utf8(self.bytes.as_slice()) else {
            unreachable!();
        };
        text
    }

    /// Whether it is the same name.
    fn is_same(&self, other: &Name) -> bool
        ensures { result ≡ bytes_eq self.now other.now }
    {
        self.bytes.as_slice() == other.bytes.as_slice()
    }

    /// A copy.
    pub fn copy(&self) -> Name
        ensures { result ≡ self.now }
    {
        let mut bytes = ArrayVec::new();
        for c in self.bytes.as_slice() {
            bytes.push(*c);
        }
        Name { bytes }
    }

    /// Bytes 1 to 11 of a directory entry of this name: its length, the name, and zeros.
    pub fn spelled(&self) -> ArrayVec<u8, 11>
        ensures bytes { result.items ≡ name_spelling self.now }
        ensures name { IsName self.now }
    {
        let mut out = ArrayVec::new();
        out.push(self.bytes.len() as u8);
        for c in self.bytes.as_slice() {
            out.push(*c);
        }
        for _i in self.bytes.len()..LONGEST_NAME {
            out.push(0);
        }
        out
    }
}

/// A path from the root directory: up to three directories that it goes through, and a last name.
#[derive(Drop)]
pub struct Path {
    pub through: ArrayVec<Name, 3>,
    pub last: Name,
}

impl Default for Path {
    /// The path `/a`.
    fn default() -> Path {
        Path {
            through: ArrayVec::new(),
            last: Name::default(),
        }
    }
}

impl Path {
    ghost use Rattle.crash_model.specs.PathTexts.{IsPath, IsPathWord, path_text};
    ghost use Rattle.crash_model.specs.Paths.{is_same_path};

    /// The path with this text: a slash and a name, one to four times. `None` for any other text.
    pub fn read(text: &str) -> Option<Path>
        ensures { MatchOption result (¬ (IsPathWord text.now)) (λ path. IsPath path × (text.now ≡ path_text path)) }
    {
        let mut through = ArrayVec::new();
        let (mut last, mut rest) = first_name(text.as_bytes())?;
        while !rest.is_empty() {
            if through.is_full() {
                return None;
            }
            let (name, after) = first_name(rest)?;
            through.push(mem::replace(&mut last, name));
            rest = after;
        }
        Some(Path { through, last })
    }

    /// A copy.
    pub fn copy(&self) -> Path
        ensures { result ≡ self.now }
    {
        let mut through = ArrayVec::new();
        for name in self.through.as_slice() {
            through.push(name.copy());
        }
        let last = self.last.copy();
        Path { through, last }
    }

    /// Whether it has the same names as another path.
    pub fn is_same(&self, other: &Path) -> bool
        ensures { result ≡ is_same_path self.now other.now }
    {
        if self.through.len() != other.through.len() {
            return false;
        }
        for (at, name) in self.through.as_slice().iter().enumerate() {
            if !name.is_same(&other.through[at]) {
                return false;
            }
        }
        self.last.is_same(&other.last)
    }

    /// Its names are names. This reads them, and changes nothing.
    pub fn has_names(&self)
        ensures { IsPath self.now }
    {
        for name in self.through.as_slice() {
            let _text = name.as_str();
        }
        let _text = self.last.as_str();
    }
}

impl fmt::Display for Path {
    ghost use Rattle.std.specs.Prelude.{Some};
    ghost use Rattle.crash_model.specs.PathTexts.{path_text};

    ghost output = { λ path. Some (path_text path) };

    fn fmt<W: fmt::Write>(&self, f: &mut fmt::Formatter<W>) -> fmt::Result {
        for name in self.through.as_slice() {
            let name = name.as_str();
            write!(f, "/{name}")?;
        }
        let last = self.last.as_str();
        write!(f, "/{last}")
    }
}

/// The first name of a path's text, after its slash, and the rest, which is empty or begins with a slash.
fn first_name(text: &[u8]) -> Option<(Name, &[u8])>
    ensures { MatchOption result (¬ (HasFirstName text.now)) (λ first. BeginsWith text.now first.0 first.1.now) }
{
    let [b'/', names @ ..] = text else {
        return None;
    };
    let (name, after) = names.split_at(first_slash(names));
    Some((Name::read(name)?, after))
}

/// The place of the first slash, or the length if there is none.
fn first_slash(text: &[u8]) -> usize
    ensures inside { result ≤ length text.now }
    ensures before { (k : ℕ) → k < result → slice_index text.now k ≢ SLASH }
    ensures found { result < length text.now → slice_index text.now result ≡ SLASH }
{
    let place = text.iter().position(|c| *c == SLASH);
    place.unwrap_or(text.len())
}

/// The bytes, if they are 1 to 10.
fn word(bytes: &[u8]) -> Option<ArrayVec<u8, LONGEST_NAME>>
    ensures { MatchOption result (¬ (IsShort bytes.now)) (λ word. (word.items ≡ bytes.now) × IsShort bytes.now) }
{
    let mut word = ArrayVec::new();
    if bytes.is_empty() || word.try_extend_from_slice(bytes).is_err() {
        return None;
    }
    Some(word)
}

fn are_name_bytes(bytes: &[u8]) -> bool
    ensures { result ≡ list_all is_name_byte bytes.now }
{
    bytes
        .iter()
        .all(|c| matches!(*c, b'a'..=b'z' | b'0'..=b'9'))
}

fn are_group_bytes(bytes: &[u8]) -> bool
    ensures { result ≡ list_all is_group_byte bytes.now }
{
    bytes
        .iter()
        .all(|c| matches!(*c, b'a'..=b'z' | b'0'..=b'9' | b'A'..=b'Z'))
}

/// The name of a patch group: 1 to 10 letters and digits.
#[derive(Drop)]
pub struct GroupName {
    bytes: ArrayVec<u8, LONGEST_NAME>,
}

impl Model for GroupName {
    ghost use Rattle.std.specs.Prelude.{List, ℕ};
    ghost use Rattle.crash_model.specs.Names.{IsGroupName};

    ghost Value = { List ℕ };

    ghost view = { λ n. n.bytes.items };

    ghost invariant = { λ n. IsGroupName n.bytes.items };
}

impl GroupName {
    /// The name of a group with this text, or `None` if the text is no such name.
    pub fn read(text: &str) -> Option<GroupName>
        ensures { MatchOption result (¬ (IsGroupName text.now)) (λ name. (name ≡ text.now) × IsGroupName text.now) }
    {
        if !are_group_bytes(text.as_bytes()) {
            return None;
        }
        let bytes = word(text.as_bytes())?;
        Some(GroupName { bytes })
    }

    /// Its text.
    pub fn as_str(&self) -> &str
        ensures { result.now ≡ self.now }
    {
        let Ok(text) = str::from_utf8(self.bytes.as_slice()) else {
            unreachable!();
        };
        text
    }

    /// Whether it is the same name.
    pub fn same(&self, other: &GroupName) -> bool
        ensures { IsTrue result ↔ (self.now ≡ other.now) }
    {
        self.bytes.as_slice() == other.bytes.as_slice()
    }
}
