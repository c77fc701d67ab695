//! What a struct that C holds needs in order to own a value on the heap.
//!
//! `HeapCell` is two machine words, an address and a mark, that own the value or nothing. Its methods are proved by
//! hand. `specs/Cells.antt` says what the two words own.
#![tactic(auto)]

mod heap_cell;

pub use heap_cell::HeapCell;
