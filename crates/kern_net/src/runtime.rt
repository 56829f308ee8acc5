//! What a connection's threads run on.
use std::alloc::Global;

/// A runtime, and the allocator of what its threads make.
#[derive(Drop)]
pub struct Runtime<'a, R> {
    pub rt: &'a R,
    pub alloc: Global,
}
