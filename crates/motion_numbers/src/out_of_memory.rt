// Out of memory: the one answer that a call may always give where it takes memory.

use std::alloc::AllocError;

/// No memory was left. Nothing says when this comes.
#[derive(Clone, Copy, Debug, PartialEq, Eq)]
pub struct OutOfMemory;

impl From<AllocError> for OutOfMemory {
    fn from(_error: AllocError) -> OutOfMemory {
        OutOfMemory
    }
}
