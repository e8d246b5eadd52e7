//! The patches of a trace, with what each of them is.

ghost use Rattle.std.specs.Prelude.{◌≡◌, ℕ, ◌<◌, ◌≤◌, [], length, Some, slice_get};
ghost use Rattle.crash_model.specs.Patches.{place, places_of};
ghost use Rattle.crash_model.specs.declared.patches.Patch.{Patch};
ghost use Rattle.crash_model.specs.Trace.{Emitted};
ghost use Rattle.crash_model.specs.Reasons.{rules_between};
ghost use Rattle.crash_model.specs.WholeBlocks.{shares_block};
ghost use Rattle.traced_patches.specs.Labels.{links_by, emitted_at, emitted_by, emitted_of, waits_by};
ghost use Rattle.traced_patches.specs.Traced.{AreReasons};

use crate::labels::{Label, Link, Wait, applies, is_forced, is_linked};
use crate::reasons::Reasons;
use arrayvec::ArrayVec;
use crash_model::orderings::{MAX_RULES, Ordering};
use crash_model::rules::Rule;
use patch_graph::{Graph, MAX_PATCHES, overlaps};
use std::alloc::Allocator;
use std::marker::Model;

/// The patches of a trace: their graph, and for each what it is.
///
/// Contracts see the patches of the graph, the same as they were emitted, the links of groups, the rules, and the lines
/// that wait.
#[derive(Drop)]
pub struct Traced<'a, A: Allocator + Copy> {
    pub(crate) graph: Graph<A>,
    pub(crate) labels: Vec<Label<'a>, A>,
    pub(crate) links: Vec<Link<'a>, A>,
    pub(crate) ordering: &'a Ordering,
    pub(crate) waits: Option<Vec<Wait<'a>, A>>,
}

impl<'a, A: Allocator + Copy> Model for Traced<'a, A> {
    ghost use Rattle.traced_patches.specs.Traced.{TracedPatches};
    ghost use Rattle.traced_patches.specs.Labels.{emitted_by, links_by, waits_if};
    ghost use Rattle.crash_model.specs.Patches.{places_of};
    ghost use Rattle.std.specs.Prelude.{◌≡◌, length, option_map};

    ghost Value = { TracedPatches };

    ghost view = { λ t.
        record {
          patches = t.graph;
          emitted = emitted_by (places_of t.graph) t.labels.items;
          links = links_by t.links.items;
          rules = t.ordering.now.rules.items;
          whole = t.ordering.now.whole_blocks;
          waits = waits_if (option_map (λ v. v.items) t.waits);
        } };

    ghost invariant = { λ t. length t.labels.items ≡ length t.graph };
}

impl<'a, A: Allocator + Copy> Traced<'a, A> {
    /// The patches of the graph, of which the i-th has the i-th label.
    pub fn new(
        graph: Graph<A>,
        labels: Vec<Label<'a>, A>,
        links: Vec<Link<'a>, A>,
        ordering: &'a Ordering,
    ) -> Traced<'a, A>
        requires { length labels.items ≡ length graph }
        ensures patches { result.patches ≡ graph }
        ensures emitted { result.emitted ≡ emitted_by (places_of graph) labels.entry.items }
        ensures links { result.links ≡ links_by links.entry.items }
        ensures rules { result.rules ≡ ordering.now.rules.items }
        ensures whole { result.whole ≡ ordering.now.whole_blocks }
        ensures waits { result.waits ≡ [] }
    {
        Traced {
            graph,
            labels,
            links,
            ordering,
            waits: None,
        }
    }

    /// The same with the lines that wait, in their order.
    pub fn with_waits(self, waits: Vec<Wait<'a>, A>) -> Traced<'a, A>
        ensures { result ≡ record self.entry { waits = waits_by waits.entry.items } }
    {
        Traced {
            graph: self.graph,
            labels: self.labels,
            links: self.links,
            ordering: self.ordering,
            waits: Some(waits),
        }
    }

    /// The lines that wait, in their order.
    pub fn waits(&self) -> &[Wait<'a>]
        ensures { waits_by result.now ≡ self.now.waits }
    {
        match &self.waits {
            Some(waits) => waits.as_slice(),
            None => &[],
        }
    }

    /// The graph of the patches.
    pub fn graph(&self) -> &Graph<A>
        ensures { result.now ≡ self.now.patches }
    {
        &self.graph
    }

    /// The number of the patches.
    pub fn len(&self) -> usize
        ensures patches { result ≡ length self.now.patches }
        ensures emitted { result ≡ length self.now.emitted }
    {
        self.graph.len()
    }

    /// Only the graph.
    pub fn into_graph(self) -> Graph<A>
        ensures { result ≡ self.entry.patches }
    {
        self.graph
    }

    /// What a patch is: the label of the patch as it was emitted.
    pub fn label(&self, id: usize) -> &Label<'a>
        requires { id < length self.now.patches }
        ensures emitted { (e : Emitted) → slice_get self.now.emitted id ≡ Some e → e ≡ emitted_at e.place result.now }
        ensures patch { (p : Patch) → slice_get self.now.patches id ≡ Some p
            → slice_get self.now.emitted id ≡ Some (emitted_at (place p.block p.offset p.new.items) result.now) }
    {
        label_of(self.labels.as_slice(), id)
    }

    /// What each patch is, in the order of their ids.
    pub fn labels(&self) -> &[Label<'a>]
        ensures each { length result.now ≡ length self.now.patches }
        ensures emitted { emitted_by (places_of self.now.patches) result.now ≡ self.now.emitted }
    {
        self.labels.as_slice()
    }

    /// The links of groups.
    pub fn links(&self) -> &[Link<'a>]
        ensures { links_by result.now ≡ self.now.links }
    {
        self.links.as_slice()
    }

    /// The ordering.
    pub fn ordering(&self) -> &Ordering
        ensures rules { result.now.rules.items ≡ self.now.rules }
        ensures whole { result.now.whole_blocks ≡ self.now.whole }
    {
        self.ordering
    }

    /// The rules of the ordering.
    pub fn rules(&self) -> &[Rule]
        ensures { result.now ≡ self.now.rules }
    {
        self.ordering.rules.as_slice()
    }

    /// Whether blocks are written whole, and two patches change the same block.
    fn shares_block(&self, later: usize, earlier: usize) -> bool
        requires later { later < length self.now.patches }
        requires earlier { earlier < length self.now.patches }
        ensures { (q p : Emitted) → slice_get self.now.emitted later ≡ Some q
            → slice_get self.now.emitted earlier ≡ Some p → result ≡ shares_block self.now.whole q p }
    {
        self.ordering.whole_blocks
            && self.graph.patch(later).block == self.graph.patch(earlier).block
    }

    /// Why a patch depends on an earlier one. If it does not, there is no reason.
    pub fn reasons(&self, later: usize, earlier: usize) -> Reasons
        requires later { later < length self.now.patches }
        requires earlier { earlier < length self.now.patches }
        ensures { (q p : Emitted) → slice_get self.now.emitted later ≡ Some q
            → slice_get self.now.emitted earlier ≡ Some p → AreReasons self.now q earlier p result }
    {
        let few = self.graph.len() <= MAX_PATCHES;
        prove!(few);
        let labels = self.labels.as_slice();
        let last = label_of(labels, later);
        let first = label_of(labels, earlier);
        Reasons {
            overlap: overlaps(self.graph.patch(earlier), self.graph.patch(later)),
            block: self.shares_block(later, earlier),
            group: is_linked(self.links.as_slice(), last, first),
            wait: is_forced(last, earlier),
            rules: rules_between(self.ordering.rules.as_slice(), last, first),
        }
    }
}

/// The label of an id.
fn label_of<'b, 'a>(labels: &'b [Label<'a>], id: usize) -> &'b Label<'a>
    requires { id < length labels.now }
    ensures { slice_get labels.now id ≡ Some result.now }
{
    &labels[id]
}

/// The rules that make a patch wait for an earlier one.
fn rules_between(
    rules: &[Rule],
    later: &Label<'_>,
    earlier: &Label<'_>,
) -> ArrayVec<Rule, MAX_RULES>
    requires { length rules.now ≤ MAX_RULES }
    ensures { result.items ≡ rules_between rules.now (emitted_of later.now) (emitted_of earlier.now) }
{
    let mut between = ArrayVec::new();
    for rule in rules {
        if applies(rule, later, earlier) {
            between.push(*rule);
        }
    }
    between
}
