//! How an error is reported: with the name of the program, the file, and the line and what is wrong there.
//!
//!     timers: trace:2: unknown word 'strat'
//!     timers: trace: too long
//!     timers: trac: No such file or directory
//!     timers: out of memory
//!
//! `play` on standard input alone has lines without a name, as `bad line 2`.
ghost use Rattle.std.specs.Prelude.{◌≡◌, OnOk, OnErr, true, false, option_map};
ghost use Rattle.std.specs.Io.KnownBytes.{Appends};
ghost use Rattle.timer_commands.specs.Endings.{spot_of};
ghost use Rattle.timer_script.specs.Watched.{inner_of, has_failed};
ghost use Rattle.timer_program.specs.Reports.{place_of, located_line, is_in_call, HasLocated, HasReported, HasEnded, IsKept};

use crate::excerpt::{read_line_again, reason_of};
use crate::files::Source;
use itoa::Buffer;
use std::alloc::Global;
use std::io::{Read, Seek, Write};
use std::mem;
use timer_commands::{Ending, Fault, Spot, report};
use timer_script::{Grammar, Streams, Watched, WriteFault, write_text};

/// Writes the line of an error at this spot of the input with this name.
pub fn write_located<F: Write>(
    faults: &mut Watched<F>,
    name: &str,
    spot: Spot,
    reason: &[u8],
) -> Result<(), WriteFault>
    requires { has_failed faults.old ≡ false }
    ensures ok { OnOk result (Appends (F.contents (inner_of faults.old)) (F.contents (inner_of faults.new))
        (located_line name.now spot reason.now)) }
    ensures good { OnOk result (has_failed faults.new ≡ false) }
    ensures failed { OnErr result (has_failed faults.new ≡ true) }
{
    write_text(faults, b"timers: ")?;
    write_place(faults, name, spot)?;
    write_text(faults, reason)?;
    write_text(faults, b"\n")
}

/// Writes where the error is, with a colon and a space after it.
fn write_place<F: Write>(faults: &mut Watched<F>, name: &str, spot: Spot) -> Result<(), WriteFault>
    requires { has_failed faults.old ≡ false }
    ensures ok { OnOk result (Appends (F.contents (inner_of faults.old)) (F.contents (inner_of faults.new))
        (place_of name.now spot)) }
    ensures good { OnOk result (has_failed faults.new ≡ false) }
    ensures failed { OnErr result (has_failed faults.new ≡ true) }
{
    match spot {
        Spot::Line(line) => {
            let mut buffer = Buffer::new();
            write_text(faults, name.as_bytes())?;
            write_text(faults, b":")?;
            write_text(faults, buffer.format(line).as_bytes())?;
            write_text(faults, b": ")
        }
        Spot::Input => {
            write_text(faults, name.as_bytes())?;
            write_text(faults, b": ")
        }
        Spot::Elsewhere => Ok(()),
    }
}

/// Returns how a call ends. An error is reported, with the name of the input if it has one. An error in reporting is
/// ignored.
pub fn end_call<R: Read + Drop, O: Read + Seek + Drop, W, F: Write>(
    alloc: Global,
    ended: Result<Ending, Fault>,
    name: Option<&str>,
    streams: &mut Streams<Source<R, O>, W>,
    faults: &mut Watched<F>,
) -> Ending
    ensures { HasEnded (option_map (λ n. n.now) name.entry) F.contents
        (record { streams = streams.old; faults = faults.old })
        (record { streams = streams.new; faults = faults.new }) ended result }
{
    match ended {
        Ok(ending) => ending,
        Err(fault) => report_fault(alloc, fault, name, &mut streams.reader, faults),
    }
}

/// Reports an error, and returns how the call ends.
fn report_fault<R: Read + Drop, O: Read + Seek + Drop, F: Write>(
    alloc: Global,
    fault: Fault,
    name: Option<&str>,
    reader: &mut Watched<Source<R, O>>,
    faults: &mut Watched<F>,
) -> Ending
    ensures reported { HasReported (option_map (λ n. n.now) name.entry) fault F.contents faults.old faults.new result }
    ensures reader { IsKept (spot_of fault) reader.old reader.new }
{
    let ending = fault.ending();
    let Some(name) = name else {
        return report(fault, ending, faults);
    };
    if !is_named(fault) {
        return report(fault, ending, faults);
    }
    let spot = fault.spot();
    match excerpt(alloc, grammar_of(fault), spot, reader) {
        Some(reason) => report_located(name, spot, &reason, faults),
        None => report_located(name, spot, fault.words().as_bytes(), faults),
    }
    ending
}

/// Whether the line of an error has the name of the input, if that has one. Refused options are not in the input.
fn is_named(fault: Fault) -> bool
    ensures { result ≡ is_in_call fault }
{
    match fault {
        Fault::Options(_) => false,
        _ => true,
    }
}

/// Which lines were read. `serve` and `show` read streams.
fn grammar_of(fault: Fault) -> Grammar {
    match fault {
        Fault::Serve(_) => Grammar::Stream,
        _ => Grammar::Script,
    }
}

/// Writes the line of an error, unless the writer fails. One that failed before is left alone.
pub fn report_located<F: Write>(name: &str, spot: Spot, reason: &[u8], faults: &mut Watched<F>)
    ensures { HasLocated name.now spot F.contents faults.old faults.new }
{
    if !faults.failed() {
        let _ = write_located(faults, name, spot, reason);
    }
}

/// What is wrong with a bad line, if it is in a file that can be read again, and there is memory for it.
fn excerpt<R: Read + Drop, O: Read + Seek + Drop>(
    alloc: Global,
    grammar: Grammar,
    spot: Spot,
    reader: &mut Watched<Source<R, O>>,
) -> Option<Vec<u8>>
    ensures { IsKept spot reader.old reader.new }
{
    let Spot::Line(line) = spot else {
        return None;
    };
    let source = mem::replace(reader, Watched::new(Source::Nothing)).into_inner();
    let Source::Opened(mut file) = source else {
        return None;
    };
    let bytes = read_line_again(alloc, &mut file, line)?;
    reason_of(alloc, grammar, &bytes)
}
