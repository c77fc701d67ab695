//! Clients in threads of their own, each at its end of a line, and the owner's desk beside them.
//!
//! `work` is a client's thread: it sends its requests, reads its words and checks them. `threads`
//! starts a thread for each client and drives the desk in the thread of the caller; `run_end` winds the
//! desk up once each client has finished. A `Gate` holds a client back, for tests.
#![tactic(auto)]

mod child;
mod children;
mod client;
mod client_turn;
mod gate;
mod log;
mod outcome;
mod results;
mod run_end;
mod threads;
mod threads_text;
mod work;

pub use client::History;
pub use client_turn::Turn;
pub use gate::{Gate, InTurn, Open};
pub use log::Log;
pub use outcome::{ThreadsFault, Worked};
pub use run_end::end_all;
pub use threads::threads_run;
pub use work::client_work;
