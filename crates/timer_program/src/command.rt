//! The whole program, over its arguments, its input and its outputs.
ghost use Rattle.std.specs.Prelude.{◌≡◌, false, option_map};
ghost use Rattle.clap.specs.Values.{kind_of};
ghost use Rattle.timer_commands.specs.declared.ending.Ending.{Ending};
ghost use Rattle.timer_commands.specs.Endings.{status_of};
ghost use Rattle.timer_program.specs.Command.{Fits, HasCalled, HasRunInput, HasRunUnkept, HasRunCall, HasNotPlayed, HasRunProgram, options_of_stream, journal_of, standard_name};
ghost use Rattle.timer_journal.specs.Journal.{text_of};
ghost use Rattle.timer_program.specs.Files.{remaining_of};
ghost use Rattle.timer_script.specs.Watched.{has_failed};

use crate::arguments::calls::read_arguments;
use crate::arguments::{Call, Subcommand};
use crate::files::{Journals, Opener, Source, file_to_open, reason_to_refuse};
use crate::kept_stream::run_kept;
use crate::reports::{end_call, write_located};
use crate::state_file::{read_state, report_no_state};
use clap::Error;
use clap::error::ErrorKind;
use std::alloc::Global;
use std::convert::AsStr;
use std::io::{Read, Seek, Write};
use std::thread::Threads;
use timer_commands::{Ending, RunOptions, Spot, Verb, check_script, report, run_clients, run_verb};
use timer_durable::JournaledPeer;
use timer_facility::SavedState;
use timer_journal::Device;
use timer_script::{Peer, ScriptFault, Streams, Watched, write_text};

/// Runs the program on the arguments after its name, and returns the exit status of its `Ending`.
///
/// If the arguments name a file, it is opened, and read in place of what the streams read. If they name one with a
/// state, that is read before. If the arguments are refused, a file can't be opened, or no state that fits is read,
/// `faults` gets the reason, and the streams are untouched. An error in writing to
/// `faults` is ignored. Neither the reader nor a writer may have failed before. Waits if clients run in threads.
pub fn command<
    T: AllocGlobal + Threads + Opener<O> + Journals<J>,
    S: AsStr,
    R: Read + Drop,
    O: Read + Seek + Drop,
    J: Device + Drop,
    W: Write,
    F: Write,
>(
    rt: &T,
    arguments: &[S],
    streams: Streams<Source<R, O>, W>,
    faults: &mut Watched<F>,
) -> (u8, Streams<Source<R, O>, W>)
    requires reader_good { has_failed streams.reader ≡ false }
    requires writer_good { has_failed streams.writer ≡ false }
    requires faults_good { has_failed faults.old ≡ false }
    ensures { (ending : Ending) × (result.0 ≡ status_of ending) × HasRunProgram S.text arguments.now
        (record { is_file = T.is_opened; is_journal = T.is_journal; seen = J.seen })
        (record {
          state = ⟦<Streams<Source<R, O>, W> as Peer>⟧.state;
          reports = F.contents;
          over = ⟦<JournaledPeer<Streams<Source<R, O>, W>, J> as Peer>⟧.state;
          inner = λ j. j.peer;
          text = λ j. text_of (J.seen j.journal.device);
          fault = λ j. j.fault;
        })
        (record { remaining = remaining_of R.remaining O.remaining; contents = W.contents; reports = F.contents })
        (record { streams = streams; faults = faults.old })
        (record { streams = result.1; faults = faults.new }) ending }
{
    let mut streams = streams;
    match read_arguments(rt.alloc(), arguments) {
        Ok(call) => {
            let (ending, streams) = run_call(rt, call, streams, faults);
            (ending.status(), streams)
        }
        Err(error) => {
            let ending = end_unplayed(rt.alloc(), &error, &mut streams.writer, faults);
            (ending.status(), streams)
        }
    }
}

/// Runs a subcommand over its files.
fn run_call<
    T: AllocGlobal + Threads + Opener<O> + Journals<J>,
    R: Read + Drop,
    O: Read + Seek + Drop,
    J: Device + Drop,
    W: Write,
    F: Write,
>(
    rt: &T,
    call: Call<'_>,
    streams: Streams<Source<R, O>, W>,
    faults: &mut Watched<F>,
) -> (Ending, Streams<Source<R, O>, W>)
    requires reader_good { has_failed streams.reader ≡ false }
    requires writer_good { has_failed streams.writer ≡ false }
    requires faults_good { has_failed faults.old ≡ false }
    ensures { HasRunCall (journal_of call.entry) call.entry
        (record { is_file = T.is_opened; is_journal = T.is_journal; seen = J.seen })
        (record {
          state = ⟦<Streams<Source<R, O>, W> as Peer>⟧.state;
          reports = F.contents;
          over = ⟦<JournaledPeer<Streams<Source<R, O>, W>, J> as Peer>⟧.state;
          inner = λ j. j.peer;
          text = λ j. text_of (J.seen j.journal.device);
          fault = λ j. j.fault;
        })
        (record { remaining = remaining_of R.remaining O.remaining; contents = W.contents; reports = F.contents })
        (record { streams = streams; faults = faults.old })
        (record { streams = result.1; faults = faults.new }) result.0 }
{
    let mut streams = streams;
    match journal_of(call) {
        Some((journal, options)) => run_kept(rt, call, journal, options, streams, faults),
        None => {
            let ending = run_unkept(rt, call, &mut streams, faults);
            (ending, streams)
        }
    }
}

/// The journal of a stream that has one, and its options.
fn journal_of<'a>(call: Call<'a>) -> Option<(&'a str, RunOptions)>
    ensures { option_map (λ j. (j.0.now, j.1)) result ≡ journal_of call.entry }
{
    let Some(journal) = call.journal else {
        return None;
    };
    match options_of_stream(call.subcommand) {
        Some(options) => Some((journal, options)),
        None => None,
    }
}

/// Runs a subcommand over its files, but for a journal. If the state that a stream is to begin with can't be read, or is none that
/// fits the options, nothing else is read.
fn run_unkept<
    T: AllocGlobal + Threads + Opener<O>,
    R: Read + Drop,
    O: Read + Seek + Drop,
    W: Write,
    F: Write,
>(rt: &T, call: Call<'_>, streams: &mut Streams<Source<R, O>, W>, faults: &mut Watched<F>) -> Ending
    requires reader_good { has_failed streams.old.reader ≡ false }
    requires writer_good { has_failed streams.old.writer ≡ false }
    requires faults_good { has_failed faults.old ≡ false }
    ensures { HasRunUnkept (option_map (λ n. n.now) call.entry.state) call.entry.subcommand
        (option_map (λ n. n.now) call.entry.file) T.is_opened
        (record { remaining = remaining_of R.remaining O.remaining; contents = W.contents; reports = F.contents })
        (record { streams = streams.old; faults = faults.old })
        (record { streams = streams.new; faults = faults.new }) result }
{
    let subcommand = call.subcommand;
    let Some(name) = call.state else {
        return run_input(rt, subcommand, None, call.file, streams, faults);
    };
    let Some(options) = options_of_stream(subcommand) else {
        return run_input(rt, subcommand, None, call.file, streams, faults);
    };
    match read_state(rt, name, options) {
        Ok(saved) => run_input(rt, subcommand, Some(&saved), call.file, streams, faults),
        Err(fault) => {
            report_no_state(rt.alloc(), name, fault, faults);
            Ending::Refused
        }
    }
}

/// The options of a stream that may begin with a state: those of `serve`.
fn options_of_stream(subcommand: Subcommand) -> Option<RunOptions>
    ensures { result ≡ options_of_stream subcommand }
{
    match subcommand {
        Subcommand::Run(Verb::Serve { .. }, options) => Some(options),
        _ => None,
    }
}

/// Runs a subcommand over the file that is named with it, or over what it is handed: if none is, or `-`.
fn run_input<
    T: AllocGlobal + Threads + Opener<O>,
    R: Read + Drop,
    O: Read + Seek + Drop,
    W: Write,
    F: Write,
>(
    rt: &T,
    subcommand: Subcommand,
    saved: Option<&SavedState>,
    file: Option<&str>,
    streams: &mut Streams<Source<R, O>, W>,
    faults: &mut Watched<F>,
) -> Ending
    requires fits { Fits (option_map (λ read. read.now) saved) subcommand }
    requires reader_good { has_failed streams.old.reader ≡ false }
    requires writer_good { has_failed streams.old.writer ≡ false }
    requires faults_good { has_failed faults.old ≡ false }
    ensures { HasRunInput (option_map (λ read. read.now) saved.entry) subcommand
        (option_map (λ n. n.now) file.entry) T.is_opened
        (record { remaining = remaining_of R.remaining O.remaining; contents = W.contents; reports = F.contents })
        (record { streams = streams.old; faults = faults.old })
        (record { streams = streams.new; faults = faults.new }) result }
{
    let Some(name) = file_to_open(file) else {
        let name = name_of_given(subcommand);
        return run_subcommand(rt, subcommand, saved, name, streams, faults);
    };
    match rt.open_to_read(name) {
        Ok(file) => {
            streams.reader = Watched::new(Source::Opened(file));
            run_subcommand(rt, subcommand, saved, Some(name), streams, faults)
        }
        Err(error) => {
            let reason = reason_to_refuse(error.kind());
            let _ = write_located(faults, name, Spot::Input, reason.as_bytes());
            Ending::Refused
        }
    }
}

/// How errors name what a subcommand is handed. Those of `play` don't.
fn name_of_given(subcommand: Subcommand) -> Option<&'static str>
    ensures { option_map (λ n. n.now) result ≡ standard_name subcommand }
{
    match subcommand {
        Subcommand::Run(Verb::Play, _) => None,
        _ => Some("standard input"),
    }
}

/// Runs a subcommand over the streams, and reports its error. Those of its input have this name, if there is one.
fn run_subcommand<
    T: AllocGlobal + Threads,
    R: Read + Drop,
    O: Read + Seek + Drop,
    W: Write,
    F: Write,
>(
    rt: &T,
    subcommand: Subcommand,
    saved: Option<&SavedState>,
    name: Option<&str>,
    streams: &mut Streams<Source<R, O>, W>,
    faults: &mut Watched<F>,
) -> Ending
    requires fits { Fits (option_map (λ read. read.now) saved) subcommand }
    requires reader_good { has_failed streams.old.reader ≡ false }
    requires writer_good { has_failed streams.old.writer ≡ false }
    requires faults_good { has_failed faults.old ≡ false }
    ensures { HasCalled (option_map (λ read. read.now) saved.entry) subcommand (option_map (λ n. n.now) name.entry)
        (record { remaining = remaining_of R.remaining O.remaining; contents = W.contents; reports = F.contents })
        (record { streams = streams.old; faults = faults.old })
        (record { streams = streams.new; faults = faults.new }) result }
{
    let alloc = rt.alloc();
    match subcommand {
        Subcommand::Run(verb, options) => {
            let ended = run_verb(alloc, verb, options, saved, streams, faults);
            end_call(alloc, ended, name, streams, faults)
        }
        Subcommand::Check => {
            let ended = check_script(alloc, streams);
            end_call(alloc, ended, name, streams, faults)
        }
        Subcommand::Threads(options) => {
            run_clients(rt, alloc, options, &mut streams.writer, faults)
        }
    }
}

/// Writes the help or the version that was asked for, or reports why the arguments are refused.
fn end_unplayed<W: Write, F: Write>(
    alloc: Global,
    error: &Error,
    writer: &mut Watched<W>,
    faults: &mut F,
) -> Ending
    requires { has_failed writer.old ≡ false }
    ensures { HasNotPlayed (kind_of error.now) W.contents writer.old writer.new result }
{
    if error.kind() == ErrorKind::OutOfMemory {
        return report(ScriptFault::OutOfMemory, Ending::Failed, faults);
    }
    if error.use_stderr() {
        let _ = write!(faults, "{error}");
        return Ending::Refused;
    }
    let Ok(text) = format!(in alloc; "{error}") else {
        return report(ScriptFault::OutOfMemory, Ending::Failed, faults);
    };
    if let Err(fault) = write_text(writer, text.as_bytes()) {
        return report(fault, Ending::Failed, faults);
    }
    Ending::Done
}
