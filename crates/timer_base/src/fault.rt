//! Why a call gave up.

use std::alloc::{AllocError, AllocFailed};
use thiserror::Error;

/// An allocation failed, or a wheel has no more places. The collection that was to grow is unchanged.
#[derive(Clone, Copy, Debug, PartialEq, Eq, Error)]
#[error("out of memory")]
pub struct OutOfMemory;

impl From<AllocError> for OutOfMemory {
    fn from(_: AllocError) -> Self {
        OutOfMemory
    }
}

impl<T: Drop> From<AllocFailed<T>> for OutOfMemory {
    fn from(_: AllocFailed<T>) -> Self {
        OutOfMemory
    }
}

/// Why a wheel was not made, in the order of the tests.
#[derive(Clone, Copy, Debug, PartialEq, Eq, Error)]
pub enum MakeFault {
    #[error("the number of slots is out of range")]
    Slots,
    #[error("the first tick is out of range")]
    FirstTick,
    #[error("out of memory")]
    OutOfMemory,
}
