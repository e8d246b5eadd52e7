//! The graph of the patches of a trace by other rules, or if only some lines wait.

ghost use Rattle.std.specs.Prelude.{◌≡◌, ◌<◌, ◌≤◌, [], ◌++◌, length, map, IfOk, OnOk, All};
ghost use Rattle.crash_model.specs.ChosenWaits.{emitted_waiting, tracing_waiting};
ghost use Rattle.crash_model.specs.Patches.{places_of};
ghost use Rattle.crash_model.specs.Trace.{IsGraphOf};
ghost use Rattle.crash_model.specs.Tracing.{Tracing};
ghost use Rattle.order_modules.specs.Log.{Adds};
ghost use Rattle.traced_patches.specs.Labels.{emitted_by, links_by};

use crate::log::PatchLog;
use crash_model::orderings::Ordering;
use disk_image::Image;
use patch_graph::Graph;
use std::alloc::{AllocError, Allocator};
use traced_patches::{Label, Link, Origin, Traced, forced_before};

/// The graph of the same patches by the rules of another ordering. It fails only when out of memory.
///
/// `base` is the image that the traced steps began on, and the patches change blocks of it.
pub fn graph_by<A: Allocator + Copy>(
    traced: &Traced<'_, A>,
    alloc: A,
    base: &Image<A>,
    ordering: &Ordering,
) -> Result<Graph<A>, AllocError>
    requires { All (λ patch. patch.block < base.now.blocks) traced.now.patches }
    ensures graph { IfOk result (λ graph. (s : Tracing) → s.emitted ≡ traced.now.emitted → s.links ≡ traced.now.links
        → s.whole ≡ ordering.now.whole_blocks → IsGraphOf ordering.now.rules.items base.now s graph) }
    ensures fits { IfOk result (λ graph. All (λ patch. patch.block < base.now.blocks) graph) }
{
    let graph = graph_with(traced, traced.labels(), alloc, base, ordering)?;
    Ok(graph)
}

/// The graph of the same patches, if of the lines that wait only those of a set do. It fails only when out of memory.
///
/// `base` is the image that the traced steps began on, and the patches change blocks of it.
pub fn graph_waiting<A: Allocator + Copy>(
    traced: &Traced<'_, A>,
    alloc: A,
    base: &Image<A>,
    chosen: u128,
) -> Result<Graph<A>, AllocError>
    requires fits { All (λ patch. patch.block < base.now.blocks) traced.now.patches }
    requires few { length traced.now.waits ≤ 128 }
    ensures graph { IfOk result (λ graph. (s : Tracing) → s.emitted ≡ traced.now.emitted → s.links ≡ traced.now.links
        → s.whole ≡ traced.now.whole → s.waits ≡ traced.now.waits
        → IsGraphOf traced.now.rules base.now (tracing_waiting chosen s) graph) }
    ensures fits { IfOk result (λ graph. All (λ patch. patch.block < base.now.blocks) graph) }
{
    let labels = labels_waiting(alloc, traced, chosen)?;
    let graph = graph_with(traced, labels.as_slice(), alloc, base, traced.ordering())?;
    Ok(graph)
}

/// The labels of a trace, if of the lines that wait only those of a set do.
fn labels_waiting<'a, A: Allocator + Copy>(
    alloc: A,
    traced: &Traced<'a, A>,
    chosen: u128,
) -> Result<Vec<Label<'a>, A>, AllocError>
    requires few { length traced.now.waits ≤ 128 }
    ensures each { IfOk result (λ labels. length labels.items ≡ length traced.now.patches) }
    ensures emitted { IfOk result (λ labels. emitted_by (places_of traced.now.patches) labels.items
        ≡ map (emitted_waiting traced.now.waits chosen) traced.now.emitted) }
{
    let mut labels = Vec::new(alloc);
    for label in traced.labels() {
        labels.push(Label {
            part: label.part,
            op_number: label.op_number,
            origin: Origin {
                line: label.origin.line,
                op: label.origin.op,
                group: label.origin.group,
                waits_for: forced_before(traced.waits(), chosen, label.origin.line),
            },
        })?;
    }
    Ok(labels)
}

/// The graph of the same patches with other labels, by the rules of an ordering.
fn graph_with<'a, A: Allocator + Copy>(
    traced: &Traced<'a, A>,
    labels: &[Label<'a>],
    alloc: A,
    base: &'a Image<A>,
    ordering: &'a Ordering,
) -> Result<Graph<A>, AllocError>
    requires fits { All (λ patch. patch.block < base.now.blocks) traced.now.patches }
    requires each { length labels.now ≡ length traced.now.patches }
    ensures graph { IfOk result (λ graph. (s : Tracing) → s.emitted ≡ emitted_by (places_of traced.now.patches) labels.now
        → s.links ≡ traced.now.links → s.whole ≡ ordering.now.whole_blocks
        → IsGraphOf ordering.now.rules.items base.now s graph) }
    ensures fits { IfOk result (λ graph. All (λ patch. patch.block < base.now.blocks) graph) }
{
    let mut log = PatchLog::new(alloc, base, ordering)?;
    link_all(&mut log, traced.links())?;
    emit_all(&mut log, traced.graph(), labels)?;
    Ok(log.into_traced().into_graph())
}

/// Links the groups of a log that has no patches.
fn link_all<'a, A: Allocator + Copy>(
    log: &mut PatchLog<'a, A>,
    links: &[Link<'a>],
) -> Result<(), AllocError>
    requires { log.old.emitted ≡ [] }
    ensures { OnOk result (log.new ≡ record log.old { links = log.old.links ++ links_by links.now }) }
{
    for link in links {
        log.link(link.later, link.earlier)?;
    }
    Ok(())
}

/// Adds the patches of a graph, with these labels, to a log that has none.
fn emit_all<'a, A: Allocator + Copy>(
    log: &mut PatchLog<'a, A>,
    graph: &Graph<A>,
    labels: &[Label<'a>],
) -> Result<(), AllocError>
    requires labelled { length labels.now ≡ length graph.now }
    requires fits { All (λ patch. patch.block < log.old.base.blocks) graph.now }
    requires none { log.old.emitted ≡ [] }
    ensures { OnOk result (Adds log.old log.new (emitted_by (places_of graph.now) labels.now)) }
{
    for id in 0..graph.len() {
        let patch = graph.patch(id);
        log.emit(labels[id], patch.block, patch.offset, patch.new.as_slice())?;
    }
    Ok(())
}
