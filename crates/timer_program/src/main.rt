//! The program `timers`: it reads a script of starts, stops, restarts, ticks and closes, plays it on a timer
//! facility, and writes one line per result; or it answers such lines as they come.
//!
//! Scripts, their texts, and the runs from one to the other are in timer_script. Each subcommand, over its
//! options, its input and its outputs, is in timer_commands. This crate reads what the user types:
//!
//!     arguments   subcommands, options and the file, over `clap`
//!     help        the texts of the help
//!     argv        arguments that cannot be read
//!     files       the file, or standard input
//!     reports     the line of an error
//!     excerpt     what is wrong with a line of a file
//!     state_file  the file with a state that `serve` begins with
//!     command     from the arguments to the exit status
//!
//! A module's definitions are in the file of its name in `specs/`.
#![tactic(auto)]

mod arguments;
mod argv;
mod command;
mod excerpt;
mod files;
mod help;
mod journal_file;
mod kept_stream;
mod reports;
mod state_file;

use argv::{after_name, end_without_arguments};
use command::command;
use files::{Prompted, Source};
use std::process::ExitCode;
use std::{env, io};
use timer_script::{Streams, Watched};

fn main(rt: HostRuntime) -> ExitCode {
    let mut faults = Watched::new(rt.stderr());
    let status = match all_arguments(&rt) {
        Ok(arguments) => {
            let input = Source::Given(Prompted::new(rt.stdin(), rt.stderr()));
            let streams = Streams::new(input, rt.stdout());
            command(&rt, after_name(&arguments), streams, &mut faults).0
        }
        Err(error) => end_without_arguments(error.kind(), &mut faults).status(),
    };
    ExitCode::from(status)
}

/// The program's name and its arguments.
fn all_arguments(rt: &HostRuntime) -> io::Result<Vec<String>> {
    let arguments = env::args(rt)?.collect::<Vec<String>>(rt.alloc())?;
    Ok(arguments)
}
