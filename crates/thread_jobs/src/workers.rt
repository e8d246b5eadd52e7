//! Who works side by side.

ghost use Rattle.std.specs.Prelude.{◌≤◌};

use std::alloc::Allocator;

/// Workers, 1 to 16, on threads by `rt`. The gate gets their progress.
#[derive(Drop)]
pub struct Workers<'a, R, A: Allocator + Copy, G> {
    pub rt: &'a R,
    pub alloc: A,
    pub number: usize,
    pub gate: &'a G,
    ghost range: { (1 ≤ number) × (number ≤ 16) },
}
