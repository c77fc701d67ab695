//! The desk of timer_desk over the hierarchy of wheels, and its ring lines, for C: include/timers_desk.h.
//!
//! C keeps a `struct timers_desk` (`CDesk`), which owns the facility and the owner's ends of all lines on
//! the heap, and for each client a `struct timers_line` (`CLine`), which owns the client's end. Each
//! struct is used by one thread at a time; they share nothing but the rings.
//!
//!     desk_exports, desk_line_exports, desk_read_exports
//!                    the owner's calls: each tests whether a desk is held, and passes the call on
//!     line_exports   a client's calls, the same for its line
//!     rounds, stopping, ending, opening
//!                    what they do to a desk, with C's statuses
//!     line           a client's end, before and after it has finished
//!     messages       words as C's struct
//!     desk_maker, placement    a new desk, and its lines put into C's structs
//!     c_structs      the two structs
//!     const_structs  the same behind const pointers, of which a call can only read
//!     desk_cell, line_cell    the machine words by which they own something on the heap
//!     layout, status    the other structs and the numbers of the header
#![tactic(auto)]

mod c_structs;
mod const_structs;
mod desk_cell;
mod desk_exports;
mod desk_line_exports;
mod desk_maker;
mod desk_read_exports;
mod ending;
mod layout;
mod line;
mod line_cell;
mod line_exports;
mod messages;
mod opening;
mod placement;
mod rounds;
mod status;
mod stopping;

pub use c_structs::{CDesk, CLine};
pub use const_structs::{ConstDesk, ConstLine};
pub use desk_cell::DeskCell;
pub use line::Line;
pub use line_cell::LineCell;
