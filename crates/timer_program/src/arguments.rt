//! The arguments of the program: a subcommand with its options and its file, or a request for help.
//!
//!     timers                             the same as `timers play`
//!     timers [OPTIONS] FILE              the same as `timers play [OPTIONS] FILE`
//!     timers play [OPTIONS] [FILE]       plays the script in the file, or on standard input
//!     timers serve [OPTIONS] [FILE]      answers the lines of the file or of standard input as they come
//!     timers show [OPTIONS] [FILE]       does so, and shows after each line where the timers are
//!     timers threads [OPTIONS]           runs clients in threads of their own
//!     timers check [FILE]                reports each bad line of the script
//!     timers help, timers --help         what the program is
//!     timers --version                   its name and version
//!
//! The file `-` is standard input. Options without a subcommand need a file.
//!
//! `clap` reads the arguments, writes the help, and says why arguments are refused.

ghost use Rattle.std.specs.Prelude.{◌≡◌, IfSome};
ghost use Rattle.timer_commands.specs.Options.{name_of};

use crate::help::{
    ABOUT, CHECK_ABOUT, CHECK_USAGE, CHECKS, FILE, NAME, PLACEMENTS, PLAY_ABOUT, PLAY_USAGE,
    SCHEMES, SCRIPTS, SERVE_ABOUT, SERVE_USAGE, SHOW_ABOUT, SHOW_USAGE, STREAMS, THREADS,
    THREADS_ABOUT, USAGE, VERSION,
};
use clap::{Arg, ArgAction, Command, value_parser};
use std::alloc::{AllocError, Global};
use timer_commands::{RunOptions, Scheme, ThreadsOptions, Verb};

pub mod calls;
mod found;

/// A subcommand with its options.
#[derive(Clone, Copy, Debug, PartialEq, Eq)]
pub enum Subcommand {
    /// `play`, `serve` or `show`: play the script on standard input, or answer its lines as they come.
    Run(Verb, RunOptions),
    /// `threads`: run clients in threads of their own.
    Threads(ThreadsOptions),
    /// `check`: report each bad line of the script on standard input.
    Check,
}

/// A subcommand, and the names of its files.
#[derive(Clone, Copy)]
pub struct Call<'a> {
    pub subcommand: Subcommand,
    /// The file that it is to read, if one is given.
    pub file: Option<&'a str>,
    /// The file with the state that `serve` is to begin with, if one is given.
    pub state: Option<&'a str>,
    /// The journal of `serve`, if one is given.
    pub journal: Option<&'a str>,
    /// How many answers the caller has seen of it, if it says so.
    pub seen: Option<u64>,
    /// After how many lines the journal begins anew, if it does.
    pub snapshot: Option<u64>,
}

/// The names of the schemes.
// made by tools/facts: names of schemes
static SCHEME_NAMES: [&str; 5] = ["plain", "hashed", "hier", "clock", "smooth"];

// by hand
/// The scheme of this name.
pub(crate) fn scheme_of(name: &str) -> Option<Scheme>
    ensures { IfSome result (λ scheme. name.now ≡ name_of scheme) }
{
    match name {
        // made by tools/facts: schemes
        "plain" => Some(Scheme::Plain),
        "hashed" => Some(Scheme::Hashed),
        "hier" => Some(Scheme::Hier),
        "clock" => Some(Scheme::Clock),
        "smooth" => Some(Scheme::Smooth),
        _ => None,
    }
}

/// An option that takes a number in a range.
fn number<'a>(
    alloc: Global,
    name: &'a str,
    value_name: &'a str,
    range: (i64, i64),
    default: &'a str,
    help: &'a str,
) -> Arg<'a> {
    Arg::new(alloc, name)
        .long(name)
        .value_name(value_name)
        .value_parser(value_parser!(u64).range(range.0..=range.1))
        .default_value(default)
        .help(help)
}

/// An option that takes a number in a range, and may be left out.
fn optional<'a>(
    alloc: Global,
    name: &'a str,
    value_name: &'a str,
    range: (i64, i64),
    help: &'a str,
) -> Arg<'a> {
    Arg::new(alloc, name)
        .long(name)
        .value_name(value_name)
        .value_parser(value_parser!(u64).range(range.0..=range.1))
        .help(help)
}

/// An option that takes the name of a scheme.
fn choice<'a>(
    alloc: Global,
    name: &'a str,
    value_name: &'a str,
    default: &'a str,
    help: &'a str,
) -> Arg<'a> {
    Arg::new(alloc, name)
        .long(name)
        .value_name(value_name)
        .value_parser(SCHEME_NAMES.as_slice())
        .default_value(default)
        .help(help)
}

/// An option that takes the name of a file, and may be left out.
fn path<'a>(alloc: Global, name: &'a str, value_name: &'a str, help: &'a str) -> Arg<'a> {
    Arg::new(alloc, name)
        .long(name)
        .value_name(value_name)
        .help(help)
}

/// An option of a journal that takes a number in a range, and may be left out. Without a journal it is refused.
fn of_journal<'a>(
    alloc: Global,
    name: &'a str,
    value_name: &'a str,
    range: (i64, i64),
    help: &'a str,
) -> Result<Arg<'a>, AllocError> {
    optional(alloc, name, value_name, range, help).requires_arg("journal")
}

/// The file that a subcommand reads. It may be left out.
fn file<'a>(alloc: Global) -> Arg<'a> {
    Arg::new(alloc, "file").value_name("FILE").help(FILE)
}

/// A subcommand with the options of `play`.
fn playing_command<'a>(
    alloc: Global,
    name: &'a str,
    usage: &'a str,
    about: &'a str,
    after_help: &'a str,
) -> Result<Command<'a>, AllocError> {
    // made by tools/facts: texts of options of play
    let scheme = "How timers are kept";
    let slots = "The buckets of `hashed`, 1 to 65536; the other schemes do not use it";
    let clients = "The number of clients, 1 to 64; they are numbered from 0";
    let capacity = "The most timers that may be pending at a time, 1 to 1048576";
    let first_tick = "The tick at which the clock begins, 0 to the last tick of the scheme";
    // by hand
    Command::new(alloc, name)
        .override_usage(usage)
        .about(about)
        .after_long_help(after_help)
        .arg(file(alloc))?
        // made by tools/facts: arguments of play
        .arg(choice(alloc, "scheme", "SCHEME", "hier", scheme))?
        .arg(number(alloc, "slots", "SLOTS", (1, 65536), "256", slots))?
        .arg(number(alloc, "clients", "CLIENTS", (1, 64), "64", clients))?
        .arg(number(alloc, "capacity", "TIMERS", (1, 1048576), "1024", capacity))?
        .arg(number(
            alloc,
            "first-tick",
            "TICK",
            (0, 1152921504606846975),
            "0",
            first_tick,
        ))
}

/// An option without a value.
fn flag<'a>(alloc: Global, name: &'a str, help: &'a str) -> Arg<'a> {
    Arg::new(alloc, name)
        .long(name)
        .action(ArgAction::SetTrue)
        .help(help)
}

/// The subcommand `serve` with the options of `play` and its own.
fn serve_command<'a>(alloc: Global) -> Result<Command<'a>, AllocError> {
    // made by tools/facts: texts of options of serve
    let keep_going = "Report each bad line on standard error, as `check` does, and go on";
    let wakeups = "After the answers of each read, print when to wake up next";
    let state = "Begin with the state in this file, the lines that answer `state`, at its tick";
    let journal = "Keep the lines in this file before they are answered, and go on from it";
    let seen = "Of a journal, print again the answers after so many";
    let snapshot = "Begin the journal anew with the state after so many lines";
    // by hand
    playing_command(alloc, "serve", SERVE_USAGE, SERVE_ABOUT, STREAMS)?
        // made by tools/facts: arguments of serve
        .arg(flag(alloc, "keep-going", keep_going))?
        .arg(flag(alloc, "wakeups", wakeups))?
        .arg(path(alloc, "state", "FILE", state).conflicts_with("first-tick")?)?
        .arg(path(alloc, "journal", "FILE", journal))?
        .arg(of_journal(alloc, "seen", "ANSWERS", (0, 1152921504606846975), seen)?)?
        .arg(of_journal(
            alloc,
            "snapshot",
            "EVERY",
            (1, 1152921504606846975),
            snapshot,
        )?)
}

/// The subcommand `show` with the options of `play` and its own.
fn show_command<'a>(alloc: Global) -> Result<Command<'a>, AllocError> {
    // made by tools/facts: texts of options of show
    let counts = "Show what hierarchies count: starts, moves and, but for `smooth`, visits";
    let moves = "Show each move to a lower wheel while ticks pass, with `hier` and `clock`";
    let new = "Show only timers that the line started or restarted; it does not concern moves";
    let client = "Show only timers of this client";
    let timer = "Show only the timer with this serial";
    let from = "Show only answers while the clock is before this tick";
    let to = "Show only answers while the clock is after this tick";
    // by hand
    playing_command(alloc, "show", SHOW_USAGE, SHOW_ABOUT, PLACEMENTS)?
        // made by tools/facts: arguments of show
        .arg(flag(alloc, "counts", counts))?
        .arg(flag(alloc, "moves", moves))?
        .arg(flag(alloc, "new", new))?
        .arg(optional(alloc, "client", "CLIENT", (0, 1152921504606846975), client))?
        .arg(optional(alloc, "timer", "SERIAL", (0, 1152921504606846975), timer))?
        .arg(optional(alloc, "from", "TICK", (0, 1152921504606846975), from))?
        .arg(optional(alloc, "to", "TICK", (0, 1152921504606846975), to))
}

/// The subcommand `threads` with its options.
fn threads_command<'a>(alloc: Global) -> Result<Command<'a>, AllocError> {
    // made by tools/facts: texts of options of threads
    let clients = "The number of clients, 1 to 64, each in a thread of its own";
    let timers = "The number of timers that each client starts, 1 to 10000";
    // by hand
    Command::new(alloc, "threads")
        .about(THREADS_ABOUT)
        .after_long_help(THREADS)
        // made by tools/facts: arguments of threads
        .arg(number(alloc, "clients", "CLIENTS", (1, 64), "4", clients))?
        .arg(number(alloc, "timers", "TIMERS", (1, 10000), "1000", timers))
}

/// The subcommand `check`, which has no options.
fn check_command<'a>(alloc: Global) -> Result<Command<'a>, AllocError> {
    Command::new(alloc, "check")
        .override_usage(CHECK_USAGE)
        .about(CHECK_ABOUT)
        .after_long_help(CHECKS)
        .arg(file(alloc))
}

/// The subcommands, in the order of the help.
static SUBCOMMANDS: [&str; 5] = ["play", "serve", "show", "threads", "check"];

/// The command line of the subcommand of this name; of another name, that of `check`.
fn command_line<'a>(alloc: Global, name: &str) -> Result<Command<'a>, AllocError> {
    match name {
        "play" => playing_command(alloc, "play", PLAY_USAGE, PLAY_ABOUT, SCHEMES),
        "serve" => serve_command(alloc),
        "show" => show_command(alloc),
        "threads" => threads_command(alloc),
        _ => check_command(alloc),
    }
}

/// The whole command line. A subcommand may be left out only if there are no arguments at all.
pub(crate) fn program<'a>(alloc: Global) -> Result<Command<'a>, AllocError> {
    let mut whole = Command::new(alloc, NAME)
        .bin_name(NAME)?
        .version(VERSION)
        .override_usage(USAGE)
        .about(ABOUT)
        .after_long_help(SCRIPTS)
        .no_binary_name(true);
    for name in SUBCOMMANDS {
        whole = whole.subcommand(command_line(alloc, name)?)?;
    }
    Ok(whole)
}
