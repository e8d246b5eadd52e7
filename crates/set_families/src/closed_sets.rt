//! The closed sets of a graph.
ghost use Rattle.std.specs.Prelude.{◌≡◌, ◌<◌, ◌≤◌, length};
ghost use Rattle.patch_sets.specs.Closed.{AreEarlier};
ghost use Rattle.set_families.specs.Closures.{AreClosures, AreStandings};

use crate::closing::{closures, standings};

/// All closed sets of a graph, by what each id depends on and what depends on it, directly or not.
#[derive(Drop)]
pub struct ClosedSets<'a> {
    pub deps: &'a [u128],
    pub(crate) closures: [u128; 128],
    pub(crate) standings: [u128; 128],
    ghost few: { length deps.now < 125 },
    ghost closed: { AreClosures deps.now closures },
    ghost standing: { AreStandings (length deps.now) closures standings },
}

impl<'a> ClosedSets<'a> {
    /// The closed sets of the graph in which each id depends directly on the ids of its set in `deps`: at most 124 ids,
    /// each of which depends on smaller ids alone.
    pub fn of(deps: &'a [u128]) -> ClosedSets<'a>
        requires few { length deps.now < 125 }
        requires earlier { AreEarlier deps.now }
        ensures { result.deps.now ≡ deps.now }
    {
        let closures = closures(deps);
        let standings = standings(&closures, deps.len());
        ClosedSets {
            deps,
            closures,
            standings,
        }
    }
}
