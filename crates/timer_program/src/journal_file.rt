//! How an error of a journal is reported, with the name of its file.
//!
//!     timers: kept: in use by another process
//!     timers: kept: a journal of other options: hier 64 1024 256
//!     timers: kept: damaged at byte 17
ghost use Rattle.std.specs.Prelude.{◌≡◌, None};
ghost use Rattle.timer_commands.specs.declared.fault.Spot.TheVariants.{Input};
ghost use Rattle.timer_program.specs.KeptStream.{HasEndedKept, HasFailed, input_fault, ending_of_kept, spot_of_kept};
ghost use Rattle.timer_program.specs.Reports.{HasLocated};

use crate::files::{Source, reason_to_refuse};
use crate::reports::{end_call, report_located};
use crate::state_file::{StateFault, report_no_state};
use std::alloc::{AllocError, Global};
use std::io::{Read, Seek, Write};
use std::string::String;
use timer_commands::{Ending, Fault, KeptFault, Spot};
use timer_durable::{BeginFault, KeepFault};
use timer_journal::OpenFault;
use timer_script::{ServeFault, Streams, Watched};

/// Reports why a journal's file is not opened.
pub fn report_unopened<F: Write>(name: &str, fault: &OpenFault, faults: &mut Watched<F>)
    ensures { HasLocated name.now Input F.contents faults.old faults.new }
{
    let reason = match fault {
        OpenFault::InUse => "in use by another process",
        OpenFault::NotAFile => "not a regular file",
        OpenFault::Io(error) => reason_to_refuse(error.kind()),
    };
    report_located(name, Spot::Input, reason.as_bytes(), faults);
}

/// Returns how a call with a journal ends. An error is reported: of the journal with its name, of the input with that
/// of the input. An error in reporting is ignored.
pub fn end_kept<R: Read + Drop, O: Read + Seek + Drop, W, F: Write>(
    alloc: Global,
    ended: Result<Ending, KeptFault>,
    journal: &str,
    input: &str,
    streams: &mut Streams<Source<R, O>, W>,
    faults: &mut Watched<F>,
) -> Ending
    ensures { HasEndedKept input.now journal.now F.contents
        (record { streams = streams.old; faults = faults.old })
        (record { streams = streams.new; faults = faults.new }) ended result }
{
    match ended {
        Ok(ending) => ending,
        Err(fault) => end_failed(alloc, fault, journal, input, streams, faults),
    }
}

/// The same of an error.
fn end_failed<R: Read + Drop, O: Read + Seek + Drop, W, F: Write>(
    alloc: Global,
    fault: KeptFault,
    journal: &str,
    input: &str,
    streams: &mut Streams<Source<R, O>, W>,
    faults: &mut Watched<F>,
) -> Ending
    ensures { HasFailed (input_fault fault) fault input.now journal.now F.contents
        (record { streams = streams.old; faults = faults.old })
        (record { streams = streams.new; faults = faults.new }) result }
{
    match input_fault(&fault) {
        Some(inner) => end_call(alloc, Err(inner), Some(input), streams, faults),
        None => {
            report_journal(alloc, &fault, journal, faults);
            ending_of(&fault)
        }
    }
}

/// The error of the input that it is, if it is one.
fn input_fault(fault: &KeptFault) -> Option<Fault>
    ensures { result ≡ input_fault fault.now }
{
    match fault {
        KeptFault::Run(fault) => Some(*fault),
        KeptFault::Keep(KeepFault::Read) => Some(Fault::Serve(ServeFault::Read)),
        KeptFault::Keep(KeepFault::Write) => Some(Fault::Serve(ServeFault::Write)),
        _ => None,
    }
}

/// Reports an error with the name of the journal.
fn report_journal<F: Write>(
    alloc: Global,
    fault: &KeptFault,
    journal: &str,
    faults: &mut Watched<F>,
)
    ensures { HasLocated journal.now (spot_of_kept fault.now) F.contents faults.old faults.new }
{
    if let KeptFault::State(fault) = fault {
        return report_no_state(alloc, journal, StateFault::Text(*fault), faults);
    }
    match words_of(alloc, fault) {
        Ok(reason) => report_located(journal, Spot::Input, reason.as_bytes(), faults),
        Err(_) => report_located(journal, Spot::Input, b"out of memory", faults),
    }
}

/// How a call ends with an error of its journal.
fn ending_of(fault: &KeptFault) -> Ending
    requires { input_fault fault.now ≡ None }
    ensures { result ≡ ending_of_kept fault.now }
{
    match fault {
        KeptFault::Begin(_) | KeptFault::HasBegun | KeptFault::State(_) => Ending::Refused,
        KeptFault::Keep(KeepFault::AnswersGone { .. } | KeepFault::FewAnswers { .. }) => {
            Ending::Refused
        }
        KeptFault::Keep(_) | KeptFault::Run(_) => Ending::Failed,
    }
}

/// The reason of an error of a journal.
fn words_of(alloc: Global, fault: &KeptFault) -> Result<String, AllocError> {
    match fault {
        KeptFault::Begin(fault) => format!(in alloc; "{fault}"),
        KeptFault::HasBegun => format!(in alloc; "--state with a journal that has begun"),
        KeptFault::State(fault) => format!(in alloc; "{fault}"),
        KeptFault::Keep(fault) => format!(in alloc; "{fault}"),
        KeptFault::Run(fault) => format!(in alloc; "{fault}"),
    }
}
