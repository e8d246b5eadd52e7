//! What a run takes from its host.

ghost use Rattle.std.specs.Prelude.{◌≡◌};

use std::alloc::{Allocator, Global};

/// Threads and files, by `rt`, and memory: the command line and the values and caches of JSON take it from `heap`, and
/// all else from `alloc`.
#[derive(Drop)]
pub struct Host<'a, R, A: Allocator + Copy> {
    pub rt: &'a R,
    pub heap: Global,
    pub alloc: A,
}

impl<'a, R: AllocGlobal> Host<'a, R, Global> {
    /// Takes all memory from the global allocator.
    pub fn new(rt: &'a R) -> Host<'a, R, Global>
        ensures { result.rt.now ≡ rt.now }
    {
        Host {
            rt,
            heap: rt.alloc(),
            alloc: rt.alloc(),
        }
    }
}
