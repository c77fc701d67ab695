//! The file with a state that `serve` begins with: it is read whole, as the lines that answer `state`.
//!
//!     timers: saved:3: the client is not the next one
//!     timers: saved: the last line is missing
//!     timers: saved: No such file or directory
ghost use Rattle.std.specs.Prelude.{◌≡◌, IfOk, IfErr};
ghost use Rattle.timer_script.specs.SavedText.{IsSavedText};
ghost use Rattle.timer_commands.specs.Serving.{limits_for};
ghost use Rattle.timer_program.specs.Reports.{HasLocated};
ghost use Rattle.timer_program.specs.StateFile.{HasText, HasReadState, HasNoState, spot_of_state};

use crate::files::{Opener, reason_to_refuse};
use crate::reports::report_located;
use std::alloc::Global;
use std::io::{ErrorKind, Read, Write};
use timer_commands::{RunOptions, Spot};
use timer_facility::SavedState;
use timer_script::{SavedFault, Watched, read_saved};

/// Why no state is read from a file.
#[derive(Clone, Copy)]
pub enum StateFault {
    /// The file can't be opened or read.
    File(ErrorKind),
    /// Its text is no state that fits the options.
    Text(SavedFault),
}

/// Reads the state in the file of this name, for a facility of the options. Returns its text, too.
fn read_file<T: AllocGlobal + Opener<O>, O: Read + Drop>(
    rt: &T,
    name: &str,
    options: RunOptions,
) -> Result<(Vec<u8>, SavedState), StateFault>
    ensures text { IfOk result (λ read. HasText T.is_opened O.remaining name.now read.0.items) }
    ensures says { IfOk result (λ read. IsSavedText (limits_for options) read.0.items read.1) }
    ensures fault { IfErr result (λ fault. HasNoState T.is_opened O.remaining name.now options fault) }
{
    let mut file = match rt.open_to_read(name) {
        Ok(file) => file,
        Err(error) => return Err(StateFault::File(error.kind())),
    };
    let mut text = Vec::new(rt.alloc());
    if let Err(error) = file.read_to_end(&mut text) {
        return Err(StateFault::File(error.kind()));
    }
    match read_saved(rt.alloc(), &text, options.limits()) {
        Ok(saved) => Ok((text, saved)),
        Err(fault) => Err(StateFault::Text(fault)),
    }
}

/// Reads the state in the file of this name, for a facility of the options.
pub fn read_state<T: AllocGlobal + Opener<O>, O: Read + Drop>(
    rt: &T,
    name: &str,
    options: RunOptions,
) -> Result<SavedState, StateFault>
    ensures ok { IfOk result (λ saved. HasReadState T.is_opened O.remaining name.now options saved) }
    ensures fault { IfErr result (λ fault. HasNoState T.is_opened O.remaining name.now options fault) }
{
    match read_file(rt, name, options) {
        Ok((_, saved)) => Ok(saved),
        Err(fault) => Err(fault),
    }
}

/// The text of the file of this name, if it is the state of such a facility.
pub fn read_state_text<T: AllocGlobal + Opener<O>, O: Read + Drop>(
    rt: &T,
    name: &str,
    options: RunOptions,
) -> Result<Vec<u8>, StateFault>
    ensures ok { IfOk result (λ text. HasText T.is_opened O.remaining name.now text.items) }
    ensures fault { IfErr result (λ fault. HasNoState T.is_opened O.remaining name.now options fault) }
{
    match read_file(rt, name, options) {
        Ok((text, _)) => Ok(text),
        Err(fault) => Err(fault),
    }
}

/// Reports why no state is read from the file of this name. An error in reporting is ignored.
pub fn report_no_state<F: Write>(
    alloc: Global,
    name: &str,
    fault: StateFault,
    faults: &mut Watched<F>,
)
    ensures { HasLocated name.now (spot_of_state fault) F.contents faults.old faults.new }
{
    let spot = spot_of_state(fault);
    match fault {
        StateFault::File(kind) => report_located(
            name,
            spot,
            reason_to_refuse(kind).as_bytes(),
            faults,
        ),
        StateFault::Text(SavedFault::Line { fault, .. }) => match format!(in alloc; "{fault}") {
            Ok(reason) => report_located(name, spot, reason.as_bytes(), faults),
            Err(_) => report_located(name, spot, b"no line of a state", faults),
        },
        StateFault::Text(SavedFault::Form { .. }) => report_located(
            name,
            spot,
            b"no line of a state",
            faults,
        ),
        StateFault::Text(SavedFault::CutOff) => report_located(
            name,
            spot,
            b"the last line is missing",
            faults,
        ),
        StateFault::Text(SavedFault::OutOfMemory) => report_located(
            name,
            spot,
            b"out of memory",
            faults,
        ),
    }
}

/// Where in the file it is.
fn spot_of_state(fault: StateFault) -> Spot
    ensures { result ≡ spot_of_state fault }
{
    match fault {
        StateFault::Text(SavedFault::Form { line }) => Spot::Line(line),
        StateFault::Text(SavedFault::Line { line, .. }) => Spot::Line(line),
        _ => Spot::Input,
    }
}
