//! Lines between client threads and the owner of a facility, and the owner's desk.
//!
//! A client's line carries its requests to the owner, and words back. A `Desk` owns the facility, its end
//! of every line, and for each client a backlog: an outbox, and at most one request that ran out of
//! memory. Its calls are single steps, or a `turn` of many, whose report says which requests were taken
//! and which words each client gets. The layer above knows a desk by `specs/Desk.antt`. A report is a chain
//! of members, each of which leads from one moment of the desk to the next (`specs/Member.antt`). What a
//! whole report says (`specs/Report.antt`) follows by the lemmas of `laws`. Read `inlet` first, which is
//! what every line does, then `desk` and `turn`. `ring_ends` is the line between threads;
//! `test_lines` has those that tests alone use, with their definitions in `specs/test_lines/`.
#![tactic(auto)]

mod backlog;
mod constructor;
mod desk;
mod dispatch;
mod driver;
mod forward;
mod inlet;
pub mod laws;
mod looks;
mod progress;
mod report;
mod ring_ends;
mod ring_maker;
mod settlement;
mod test_lines;
mod turn;
mod winding_up;
mod word;

pub use constructor::{MAX_ROOM, MIN_ROOM, OpenFault};
pub use desk::Desk;
pub use driver::{DriveEnd, Driven, drive};
pub use inlet::{Inlet, Put, Taken};
pub use looks::{Found, Looks};
pub use report::{Done, Served, Step};
pub use ring_ends::{ClientEnd, ClientReader, RequestsEnded, RingInlet, Unsent, WordsEnded};
pub use ring_maker::ring_line;
pub use test_lines::locked::{LockedEnd, LockedInlet};
pub use test_lines::locked_maker::locked_line;
pub use test_lines::memory::MemoryInlet;
pub use winding_up::wind_up;
pub use word::{Numbered, Word};
