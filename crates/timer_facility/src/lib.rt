//! Clients, their numbered requests, ticks and the close, over any wheel.
//!
//! A `Config` has the number of clients, the capacity and the first numbers. The layer above knows a
//! facility by its state and by the notices that wait in it: read `specs/State.antt`, then
//! `specs/Verdict.antt` (which events are accepted) and `specs/Step.antt` (the outs of an event and the
//! state after it), then `facility`, which implements them, and `player`, which plays whole lists of
//! events. What a history of events and their outs must have handed out is `owed`, in `specs/Owed.antt`;
//! the lemma `notices_are_owed` in `laws` states that it has.
#![tactic(auto)]

mod config;
mod event;
mod facility;
mod handing_out;
mod handles;
pub mod laws;
mod player;
mod request;
mod restoring;
mod saved;

pub use config::{Checked, Config, ConfigFault, MAX_CLIENTS, MAX_PENDING};
pub use event::{Event, Out, PlayStop};
pub use facility::Facility;
pub use player::Player;
pub use request::{Answer, CloseFault, NotTaken, Notice, Reason, Request, TickFault};
pub use saved::{Limits, SavedState, Stage, StateFault, StateLine};
