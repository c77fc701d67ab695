//! A stream with a journal: its files are opened, one after another, before anything is read of its input.
//!
//!     the file of a state, if one is named    read whole
//!     the input, if it is a file              opened
//!     the journal                             opened or made, and locked
ghost use Rattle.std.specs.Prelude.{◌≡◌, false, option_map};
ghost use Rattle.timer_journal.specs.Journal.{text_of};
ghost use Rattle.timer_program.specs.Arguments.{has_wakeups};
ghost use Rattle.timer_program.specs.Files.{remaining_of};
ghost use Rattle.timer_program.specs.KeptStream.{HasRunKept, HasRunFirst, HasRunJournal};
ghost use Rattle.timer_script.specs.Watched.{has_failed};

use crate::arguments::{Call, Subcommand};
use crate::files::{Journals, Opener, Source, file_to_open, reason_to_refuse};
use crate::journal_file::{end_kept, report_unopened};
use crate::reports::write_located;
use crate::state_file::{read_state_text, report_no_state};
use std::io::{Read, Seek, Write};
use timer_commands::{Ending, Keeps, RunOptions, Spot, Verb, report, serve_kept};
use timer_durable::JournaledPeer;
use timer_journal::Device;
use timer_script::{Peer, Streams, Watched};

/// Serves a stream with this journal.
pub fn run_kept<
    T: AllocGlobal + Opener<O> + Journals<J>,
    R: Read + Drop,
    O: Read + Seek + Drop,
    J: Device + Drop,
    W: Write,
    F: Write,
>(
    rt: &T,
    call: Call<'_>,
    journal: &str,
    options: RunOptions,
    streams: Streams<Source<R, O>, W>,
    faults: &mut Watched<F>,
) -> (Ending, Streams<Source<R, O>, W>)
    requires reader_good { has_failed streams.reader ≡ false }
    requires writer_good { has_failed streams.writer ≡ false }
    requires faults_good { has_failed faults.old ≡ false }
    ensures { HasRunKept (option_map (λ n. n.now) call.entry.state) (option_map (λ n. n.now) call.entry.file) journal.now options
        (has_wakeups call.entry.subcommand) call.entry.seen (record { is_file = T.is_opened; is_journal = T.is_journal; seen = J.seen })
        (record {
          state = ⟦<Streams<Source<R, O>, W> as Peer>⟧.state;
          reports = F.contents;
          over = ⟦<JournaledPeer<Streams<Source<R, O>, W>, J> as Peer>⟧.state;
          inner = λ j. j.peer;
          text = λ j. text_of (J.seen j.journal.device);
          fault = λ j. j.fault;
        })
        (record { remaining = remaining_of R.remaining O.remaining; contents = W.contents; reports = F.contents })
        (record { streams = streams; faults = faults.old })
        (record { streams = result.1; faults = faults.new }) result.0 }
{
    let mut streams = streams;
    if let Err(fault) = options.check() {
        return (report(fault, Ending::Refused, faults), streams);
    }
    let Some(name) = call.state else {
        return run_from(rt, call, journal, options, None, streams, faults);
    };
    match read_state_text(rt, name, options) {
        Ok(text) => run_from(rt, call, journal, options, Some(&text), streams, faults),
        Err(fault) => {
            report_no_state(rt.alloc(), name, fault, faults);
            (Ending::Refused, streams)
        }
    }
}

/// The same, if a new journal begins with this state.
fn run_from<
    T: AllocGlobal + Opener<O> + Journals<J>,
    R: Read + Drop,
    O: Read + Seek + Drop,
    J: Device + Drop,
    W: Write,
    F: Write,
>(
    rt: &T,
    call: Call<'_>,
    journal: &str,
    options: RunOptions,
    first: Option<&[u8]>,
    streams: Streams<Source<R, O>, W>,
    faults: &mut Watched<F>,
) -> (Ending, Streams<Source<R, O>, W>)
    requires reader_good { has_failed streams.reader ≡ false }
    requires writer_good { has_failed streams.writer ≡ false }
    requires faults_good { has_failed faults.old ≡ false }
    ensures { HasRunFirst (option_map (λ n. n.now) call.entry.file) journal.now options (has_wakeups call.entry.subcommand) call.entry.seen
        (option_map (λ f. f.now) first.entry) (record { is_file = T.is_opened; is_journal = T.is_journal; seen = J.seen })
        (record {
          state = ⟦<Streams<Source<R, O>, W> as Peer>⟧.state;
          reports = F.contents;
          over = ⟦<JournaledPeer<Streams<Source<R, O>, W>, J> as Peer>⟧.state;
          inner = λ j. j.peer;
          text = λ j. text_of (J.seen j.journal.device);
          fault = λ j. j.fault;
        })
        (record { remaining = remaining_of R.remaining O.remaining; contents = W.contents; reports = F.contents })
        (record { streams = streams; faults = faults.old })
        (record { streams = result.1; faults = faults.new }) result.0 }
{
    let mut streams = streams;
    let Some(name) = file_to_open(call.file) else {
        return run_over(
            rt,
            call,
            journal,
            "standard input",
            options,
            first,
            streams,
            faults,
        );
    };
    match rt.open_to_read(name) {
        Ok(file) => {
            streams.reader = Watched::new(Source::Opened(file));
            run_over(rt, call, journal, name, options, first, streams, faults)
        }
        Err(error) => {
            let reason = reason_to_refuse(error.kind());
            let _ = write_located(faults, name, Spot::Input, reason.as_bytes());
            (Ending::Refused, streams)
        }
    }
}

/// The same over the input of this name.
fn run_over<
    T: AllocGlobal + Opener<O> + Journals<J>,
    R: Read + Drop,
    O: Read + Seek + Drop,
    J: Device + Drop,
    W: Write,
    F: Write,
>(
    rt: &T,
    call: Call<'_>,
    journal: &str,
    input: &str,
    options: RunOptions,
    first: Option<&[u8]>,
    streams: Streams<Source<R, O>, W>,
    faults: &mut Watched<F>,
) -> (Ending, Streams<Source<R, O>, W>)
    requires reader_good { has_failed streams.reader ≡ false }
    requires writer_good { has_failed streams.writer ≡ false }
    requires faults_good { has_failed faults.old ≡ false }
    ensures { HasRunJournal journal.now input.now options (has_wakeups call.entry.subcommand) call.entry.seen
        (option_map (λ f. f.now) first.entry) (record { is_file = T.is_opened; is_journal = T.is_journal; seen = J.seen })
        (record {
          state = ⟦<Streams<Source<R, O>, W> as Peer>⟧.state;
          reports = F.contents;
          over = ⟦<JournaledPeer<Streams<Source<R, O>, W>, J> as Peer>⟧.state;
          inner = λ j. j.peer;
          text = λ j. text_of (J.seen j.journal.device);
          fault = λ j. j.fault;
        })
        (record { remaining = remaining_of R.remaining O.remaining; contents = W.contents; reports = F.contents })
        (record { streams = streams; faults = faults.old })
        (record { streams = result.1; faults = faults.new }) result.0 }
{
    let device = match rt.open_journal(journal) {
        Ok(device) => device,
        Err(fault) => {
            report_unopened(journal, &fault, faults);
            return (Ending::Refused, streams);
        }
    };
    let keeps = Keeps {
        first,
        seen: call.seen,
        every: call.snapshot,
    };
    let wakeups = has_wakeups(call.subcommand);
    let (mut streams, ended) = serve_kept(
        rt.alloc(),
        options,
        wakeups,
        keeps,
        device,
        streams,
        faults,
    );
    let ending = end_kept(rt.alloc(), ended, journal, input, &mut streams, faults);
    (ending, streams)
}

/// Whether wake-ups are wanted.
fn has_wakeups(subcommand: Subcommand) -> bool
    ensures { result ≡ has_wakeups subcommand }
{
    match subcommand {
        Subcommand::Run(Verb::Serve { wakeups, .. }, _) => wakeups,
        _ => false,
    }
}
