//! The subcommands of the program, each over its options, its input and its outputs, up to its ending.
//! No command line: what the user types is read in timer_program.
//!
//! `options` and `threads_options` have the options and their ranges. `schemes` makes the wheel that they
//! name, and `verbs` has what is done over it: `play`, `serve` and `show`. `resuming` serves from a state that was
//! read. The other subcommands are in `cmd_check` and `cmd_threads`. `ending` says how they end, and `fault` why one
//! ended early, and where. `render` draws where the timers are that `shows` keeps. `laws` has what is known of the
//! lines that `serve` and `show` add.
//!
//! The definitions of `options` are in `specs/Options.antt`, those of the subcommands in `Subcommands.antt`, of a
//! stream that goes on in `Serving.antt`, of clients in threads in `Clients.antt`, and of the lines that `serve` and
//! `show` add in `Wakeups.antt`, `Indented.antt` and `Shows.antt`. `Endings.antt` has the exit status of each ending.
#![tactic(auto)]

mod cmd_check;
mod cmd_threads;
mod ending;
mod fault;
mod keeping;
pub mod laws;
mod options;
mod render;
mod resuming;
mod schemes;
mod shows;
mod threads_options;
mod verbs;

pub use cmd_check::check_script;
pub use cmd_threads::{end_clients, run_clients};
pub use ending::{Ending, report};
pub use fault::{Fault, Spot};
pub use keeping::{Keeps, KeptFault, serve_kept};
pub use options::{OptionsFault, RunOptions, Scheme};
pub use resuming::resume;
pub use schemes::run_verb;
pub use shows::Shows;
pub use threads_options::ThreadsOptions;
pub use verbs::Verb;
