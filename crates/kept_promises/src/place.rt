//! Places of a trace.

use disk_image::Image;
use patch_graph::Graph;
use std::alloc::Allocator;

/// A place of a trace, as far as promises depend on it: the image after the operations so far, their patches, the ids
/// that lines so far wait for, and whether a group is open.
#[derive(Drop)]
pub struct Place<'a, A: Allocator + Copy> {
    pub disk: &'a Image<A>,
    pub graph: &'a Graph<A>,
    pub forced: u128,
    pub is_in_group: bool,
}
