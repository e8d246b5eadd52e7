//! What a path shows on an image.

ghost use Rattle.std.specs.Prelude.{◌≡◌, ◌≤◌, length, take, IsAscii};
ghost use Rattle.hex.specs.Hex.{encode_lower};
ghost use Rattle.crash_model.specs.Paths.{is_same_slot, are_same_slots, is_same_shown, are_same_shown};
ghost use Rattle.crash_model.specs.ShownTexts.{is_hole, listed_slots};

use crate::disk_bytes::SHOWN_BYTES;
use std::{fmt, str};

/// What a slot of a file shows: nothing, a pointer that names no block of the data area, or how its block begins.
#[derive(Clone, Copy, Debug, PartialEq, Eq, Default)]
pub enum ShownSlot {
    #[default]
    Hole,
    Wild,
    Begins([u8; SHOWN_BYTES]),
}

/// What a path shows: no file, a directory, or a file with what its four slots show.
#[derive(Clone, Copy, Debug, PartialEq, Eq, Default)]
pub enum Shown {
    #[default]
    Nothing,
    Directory,
    File([ShownSlot; 4]),
}

impl ShownSlot {
    /// Whether the same is shown.
    fn is_same(&self, other: &ShownSlot) -> bool
        ensures { result ≡ is_same_slot self.now other.now }
    {
        match (self, other) {
            (ShownSlot::Hole, ShownSlot::Hole) | (ShownSlot::Wild, ShownSlot::Wild) => true,
            (ShownSlot::Begins(one), ShownSlot::Begins(two)) => one.as_slice() == two.as_slice(),
            _ => false,
        }
    }

    /// Whether the slot is empty.
    fn is_hole(&self) -> bool
        ensures { result ≡ is_hole self.now }
    {
        match self {
            ShownSlot::Hole => true,
            ShownSlot::Wild | ShownSlot::Begins(_) => false,
        }
    }
}

impl Shown {
    /// Whether the same is shown.
    pub fn is_same(&self, other: &Shown) -> bool
        ensures { result ≡ is_same_shown self.now other.now }
    {
        match (self, other) {
            (Shown::Nothing, Shown::Nothing) | (Shown::Directory, Shown::Directory) => true,
            (Shown::File(one), Shown::File(two)) => are_same_slots(one, two),
            _ => false,
        }
    }
}

/// Whether the same is shown in each slot.
fn are_same_slots(one: &[ShownSlot; 4], two: &[ShownSlot; 4]) -> bool
    ensures { result ≡ are_same_slots one.now two.now }
{
    let [a, b, c, d] = one;
    let [e, f, g, h] = two;
    a.is_same(e) && b.is_same(f) && c.is_same(g) && d.is_same(h)
}

/// Whether several paths show the same, each in its place.
pub fn are_same_shown(one: &[Shown], two: &[Shown]) -> bool
    ensures { result ≡ are_same_shown one.now two.now }
{
    if one.len() != two.len() {
        return false;
    }
    for (at, shown) in one.iter().enumerate() {
        if !shown.is_same(&two[at]) {
            return false;
        }
    }
    true
}

impl fmt::Display for ShownSlot {
    ghost use Rattle.std.specs.Prelude.{Some};
    ghost use Rattle.crash_model.specs.ShownTexts.{slot_text};

    ghost output = { λ slot. Some (slot_text slot) };

    fn fmt<W: fmt::Write>(&self, f: &mut fmt::Formatter<W>) -> fmt::Result {
        match *self {
            ShownSlot::Hole => write!(f, "-"),
            ShownSlot::Wild => write!(f, "wild"),
            ShownSlot::Begins(bytes) => {
                let digits = digits_of(&bytes);
                let text = text_of(&digits);
                write!(f, "{text}")
            }
        }
    }
}

/// The hexadecimal digits of bytes.
fn digits_of(bytes: &[u8; SHOWN_BYTES]) -> [u8; 8]
    ensures { result ≡ encode_lower bytes.now }
{
    let mut digits = [0; 8];
    let written = hex::encode_to_slice(bytes.as_slice(), &mut digits);
    if written.is_err() {
        unreachable!();
    }
    digits
}

/// Digits as a text.
fn text_of(digits: &[u8; 8]) -> &str
    requires { IsAscii digits.now }
    ensures { result.now ≡ digits.now }
{
    let Ok(text) = str::from_utf8(digits.as_slice()) else {
        unreachable!();
    };
    text
}

/// What slots show, each after a space.
#[derive(Drop)]
struct SlotWords<'a> {
    slots: &'a [ShownSlot],
}

impl fmt::Display for SlotWords<'_> {
    ghost use Rattle.std.specs.Prelude.{Some, ◌∷◌};
    ghost use Rattle.std.specs.List.{flat_map};
    ghost use Rattle.crash_model.specs.ShownTexts.{slot_text};

    ghost output = { λ words. Some (flat_map (λ slot. 32 ∷ slot_text slot) words.slots.now) };

    fn fmt<W: fmt::Write>(&self, f: &mut fmt::Formatter<W>) -> fmt::Result {
        for slot in self.slots {
            let slot = *slot;
            write!(f, " {slot}")?;
        }
        Ok(())
    }
}

impl fmt::Display for Shown {
    ghost use Rattle.std.specs.Prelude.{Some};
    ghost use Rattle.crash_model.specs.ShownTexts.{shown_text};

    ghost output = { λ shown. Some (shown_text shown) };

    fn fmt<W: fmt::Write>(&self, f: &mut fmt::Formatter<W>) -> fmt::Result {
        match *self {
            Shown::Nothing => write!(f, "nothing"),
            Shown::Directory => write!(f, "directory"),
            Shown::File(slots) => {
                let words = SlotWords {
                    slots: &slots[..listed(&slots)],
                };
                write!(f, "file{words}")
            }
        }
    }
}

/// How many slots are listed: those up to the last that is not empty.
fn listed(slots: &[ShownSlot; 4]) -> usize
    ensures within { result ≤ length slots.now }
    ensures listed { take result slots.now ≡ listed_slots slots.now }
{
    let [first, second, third, fourth] = slots;
    if !fourth.is_hole() {
        4
    } else if !third.is_hole() {
        3
    } else if !second.is_hole() {
        2
    } else if !first.is_hole() {
        1
    } else {
        0
    }
}
