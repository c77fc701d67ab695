//! The vocabulary of the timer facility: timers and their handles, the trait of a wheel, and the
//! simplest wheel.
//!
//! The layer above knows a wheel by the trait [`Wheel`] alone: the layout of its slots and its last tick, the present tick, one
//! list of pending timers by deadline and then serial, those that are due, the last serial, room and counts. Read
//! `wheel` first, with `specs/WheelState.antt` beside it, and then `plain`, the shortest implementation.
//! `laws` has the lemmas that hold for every wheel.
#![tactic(auto)]

mod fault;
pub mod laws;
mod limits;
mod order;
mod plain;
mod timer;
mod wheel;

pub use fault::{MakeFault, OutOfMemory};
pub use limits::LAST;
pub use order::{earlier, sort_timers};
pub use plain::PlainWheel;
pub use timer::{Handle, Timer};
pub use wheel::Wheel;
