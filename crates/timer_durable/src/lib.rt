//! A stream that outlives the process: its lines are in a journal, on the disk, before they are played and answered.
//!
//! `JournaledPeer` is a `Peer` over another peer and a journal, so `serve` of timer_script serves it as it is. Read
//! `peer` first. `bytes` reads up to whole lines, `pieces` copies and writes, `replay` has what is known of the answers to
//! the lines that were recovered, and `calls` the list of calls that clauses speak of. `beginning` has the text that a
//! journal begins with, and `opening` opens one that a crash may have left, or begins a new one.
#![tactic(auto)]

mod beginning;
mod bytes;
mod calls;
mod fault;
pub mod laws;
mod opening;
mod peer;
mod pieces;
mod replay;

pub use beginning::{Beginning, Kept, preamble};
pub use fault::{BeginFault, KeepFault};
pub use opening::{Opened, begin, open_kept, recover_kept};
pub use peer::{JournaledPeer, Keeping};
