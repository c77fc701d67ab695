//! The arguments that the system hands over, and how unreadable ones are reported.
ghost use Rattle.std.specs.Prelude.{◌≡◌, ◌≢◌, drop};

use std::io::{ErrorKind, Write};
use timer_commands::{Ending, report};
use timer_script::ScriptFault;

/// The arguments after the program's name.
pub fn after_name<S>(arguments: &[S]) -> &[S]
    ensures { result.now ≡ drop 1 arguments.now }
{
    match arguments.split_first() {
        Some((_, rest)) => rest,
        None => arguments,
    }
}

/// Ends the program if its arguments could not be read: if memory ran out, or an argument is not UTF-8. Either is
/// reported in one line.
pub fn end_without_arguments<F: Write>(kind: ErrorKind, faults: &mut F) -> Ending
    ensures out_of_memory { kind ≡ ErrorKind.OutOfMemory → result ≡ Ending.Failed }
    ensures not_utf8 { kind ≢ ErrorKind.OutOfMemory → result ≡ Ending.Refused }
{
    if kind == ErrorKind::OutOfMemory {
        return report(ScriptFault::OutOfMemory, Ending::Failed, faults);
    }
    report("error: an argument is not UTF-8", Ending::Refused, faults)
}
