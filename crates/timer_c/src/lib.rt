//! The timers of timer_total over the hierarchy of wheels, for C: `include/timers.h` declares them.
//!
//! C keeps a `struct timers` (`CTimers`), which owns the timers on the heap. A call requires nothing of C but
//! the rules of that header; if it can't be done it returns a status that says why, and nothing changes.
//!
//!     exports, start_exports, clock_exports, read_exports
//!                  the functions that C calls: each checks the struct, if it takes one, and then does the call
//!     conversions  what timer_total takes and returns, as C's statuses and structs
//!     laws         where a run of these calls (timer_runs) begins: no code
//!     wheel_maker  C's wheel, and how one is made by C's number for its table
//!     ways         bodies of starts, restarts and sets, for the ways that they may go
//!     c_timers     `struct timers`: the slot, and the last serial while the slot is empty
//!     const_timers `struct timers` behind a const pointer, whose timers can only be read
//!     owned_cell   the slot: the two machine words by which it owns the timers on the heap
//!     layout       the structs of the header
//!     status       the statuses of the header
#![tactic(auto)]

mod c_timers;
mod clock_exports;
mod const_timers;
mod conversions;
mod exports;
mod laws;
mod layout;
mod owned_cell;
mod read_exports;
mod start_exports;
mod status;
mod ways;
mod wheel_maker;

pub use c_timers::CTimers;
pub use const_timers::ConstTimers;
pub use layout::{CHandle, Counts, Expired};
pub use owned_cell::OwnedCell;
