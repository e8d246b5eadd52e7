//! What a promise allows.

ghost use Rattle.std.specs.Prelude.{◌≡◌};

use crate::names::Path;
use crate::showing::Shown;
use arrayvec::ArrayVec;

/// The most paths that a promise is made of.
pub const MOST_PATHS: usize = 4;

/// The paths of a promise.
pub type Paths = ArrayVec<Path, MOST_PATHS>;

/// A copy of paths.
pub fn paths_copy(paths: &Paths) -> Paths
    ensures { result ≡ paths.now }
{
    let mut copies = Paths::new();
    for path in paths.as_slice() {
        copies.push(path.copy());
    }
    copies
}

/// What paths show, each in its place.
pub type Shows = ArrayVec<Shown, MOST_PATHS>;

/// A copy of what paths show.
pub fn shows_copy(shows: &Shows) -> Shows
    ensures { result ≡ shows.now }
{
    let mut copies = Shows::new();
    for shown in shows.as_slice() {
        copies.push(*shown);
    }
    copies
}

/// What the paths of a promise may show, each in its place, and the least set, as a number, that may show it.
///
/// A set is at least 2 to the power of n exactly if it has a patch behind the first n.
#[derive(Drop)]
pub struct Allowance {
    pub least: u128,
    pub shows: Shows,
}

/// A path that stands in for another, and what it has to show.
#[derive(Drop)]
pub struct Spare {
    pub path: Path,
    pub shows: Shown,
}
