use std::alloc::{AllocError, AllocFailed};
use thiserror::Error;

/// Want of memory: a growth was refused, or a list would pass 2^32 - 1 elements.
#[derive(Clone, Copy, Debug, PartialEq, Eq, Error)]
#[error("out of memory")]
pub struct OutOfMemory;

/// The most levels of a text or a tree of others that are walked by recursion where nothing else bounds them: behind them
/// the stack counts as used up, and the answer is `OutOfMemory`.
pub const MOST_LEVELS: u32 = 250;

impl From<AllocError> for OutOfMemory {
    fn from(_refused: AllocError) -> OutOfMemory {
        OutOfMemory
    }
}

impl<T: Drop> From<AllocFailed<T>> for OutOfMemory {
    fn from(_refused: AllocFailed<T>) -> OutOfMemory {
        OutOfMemory
    }
}
