//! Scripts of events, the text that answers them, and the way from one to the other: a whole script at a
//! time, or lines that are answered as they come. Over any wheel; no command line, and no threads.
//!
//! `script_run` has the whole run, from the bytes of the script to those of the text, and its contract is
//! the promise of the program; `service` has the same for lines that are answered as they come. Read
//! `script` and `text` first, with `specs/Script.antt` and `specs/Text.antt`: which bytes are a script,
//! and which text answers it.
//!
//! Most modules have their definitions in the file of that name in `specs/`, and lemmas in `proofs/`:
//!
//!     bytes       digits and lines (`lines`), scripts (`script`)
//!     runs        `input`, `output`, `script_run`, `text`
//!     streams     a stream cut into lines (`cutter`), `session`, `steps`, `peer`, `streams`,
//!                 `service`, `decorator`
//!     bad lines   `line_fault`, `words` and `diagnosis` (one line), `script_report` (those of a script)
#![tactic(auto)]

mod cutter;
mod decorator;
mod diagnosis;
mod fault;
mod input;
pub mod laws;
mod line_fault;
mod lines;
mod output;
mod peer;
mod saved_text;
mod script;
mod script_report;
mod script_run;
mod service;
mod session;
pub mod state_laws;
mod steps;
mod streams;
mod text;
mod watched;
mod words;

pub use cutter::OnBadLine;
pub use decorator::{Decorator, Undecorated};
pub use diagnosis::fault_in_line;
pub use fault::{CheckFault, RunFault, ScriptFault, ServeFault, WriteFault};
pub use input::MAX_BYTES;
pub use line_fault::{Field, LineFault, LineReason};
pub use lines::{Grammar, MAX_TICKS};
pub use output::write_text;
pub use peer::Peer;
pub use saved_text::{SavedFault, read_saved};
pub use script::parse_script;
pub use script_report::check;
pub use script_run::run;
pub use service::serve;
pub use streams::Streams;
pub use text::text_of;
pub use watched::Watched;
