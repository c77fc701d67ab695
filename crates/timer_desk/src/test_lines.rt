//! Lines for tests: a locked one between threads, and one in memory within a thread. The product's line is `ring_ends`.
//! Each is an `Inlet`, so a desk over one promises the same.

pub mod locked;
pub mod locked_maker;
pub mod memory;
mod queues;
