//! How a call of the program ends: with which exit status, and with a report to the user if that is due to an error.
ghost use Rattle.std.specs.Prelude.{◌≡◌};
ghost use Rattle.timer_commands.specs.Endings.{status_of};

use std::fmt::Display;
use std::io::Write;

/// How a call of the program ends.
#[derive(Clone, Copy, Debug, PartialEq, Eq)]
pub enum Ending {
    // made by tools/facts: endings
    /// All output was written, or the help or the version. `check`: no line is bad.
    Done,
    /// An error, with its one line on standard error. `check` ends so only if it can't write its help, or runs out of
    /// memory before it reads.
    Failed,
    /// `check`: a line is bad. Standard output has them all, and standard error is empty.
    Bad,
    /// `serve --keep-going`: a line was bad. All output was written.
    Skipped,
    /// `check`: an error after it began to read, with its one line on standard error.
    CheckFailed,
    /// The command line was refused, its file can't be opened, the file of `--state` has no state that fits, or that
    /// of `--journal` is none of these options: standard error says why. Nothing else was read, and standard output
    /// is empty. Standard error has one line for five reasons: a file that can't be opened, one with no such state,
    /// one that is no such journal, `first tick above 8639999`, as with `clock`, and an argument that isn't UTF-8.
    /// For the others it has several.
    Refused,
}

impl Ending {
    /// Its exit status, which another may have, too.
    pub fn status(self) -> u8
        ensures { result ≡ status_of self }
    {
        match self {
            // made by tools/facts: statuses of endings
            Ending::Done => 0,
            Ending::Failed => 1,
            Ending::Bad => 1,
            Ending::Skipped => 1,
            Ending::CheckFailed => 2,
            Ending::Refused => 2,
        }
    }
}

/// Reports an error in one line, and returns the ending. An error in reporting it is ignored.
pub fn report<F: Write>(fault: impl Display + Drop, ending: Ending, faults: &mut F) -> Ending
    ensures { result ≡ ending }
{
    let _ = writeln!(faults, "{fault}");
    ending
}
