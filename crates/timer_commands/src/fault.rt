//! Why `play`, `serve`, `show` or `check` ended early, and where in its input.
ghost use Rattle.std.specs.Prelude.{◌≡◌};
ghost use Rattle.timer_commands.specs.Endings.{ending_of, spot_of};

use crate::ending::Ending;
use crate::options::OptionsFault;
use thiserror::Error;
use timer_script::{CheckFault, RunFault, ServeFault};

/// Why a subcommand ended early. Its text is the line that the user is shown, without the name of the input.
#[derive(Clone, Copy, Debug, PartialEq, Eq, Error)]
pub enum Fault {
    #[error("{0}")]
    Options(OptionsFault),
    #[error("{0}")]
    Run(RunFault),
    #[error("{0}")]
    Serve(ServeFault),
    #[error("{0}")]
    Check(CheckFault),
}

/// Where in its input a subcommand ended early.
#[derive(Clone, Copy, Debug, PartialEq, Eq)]
pub enum Spot {
    /// In this line, which is bad.
    Line(u64),
    /// The input could not be read, or is too long.
    Input,
    /// The reason is not in the input.
    Elsewhere,
}

impl Fault {
    /// How a call ends with it.
    pub fn ending(&self) -> Ending
        ensures { result ≡ ending_of self.now }
    {
        match self {
            Fault::Options(_) => Ending::Refused,
            Fault::Run(_) | Fault::Serve(_) => Ending::Failed,
            Fault::Check(_) => Ending::CheckFailed,
        }
    }

    /// Where in the input it is.
    pub fn spot(&self) -> Spot
        ensures { result ≡ spot_of self.now }
    {
        match self {
            Fault::Run(RunFault::Bad { line }) | Fault::Serve(ServeFault::Bad { line }) => {
                Spot::Line(*line)
            }
            Fault::Run(RunFault::Read | RunFault::TooLong)
            | Fault::Serve(ServeFault::Read | ServeFault::TooLong)
            | Fault::Check(CheckFault::Read | CheckFault::TooLong) => Spot::Input,
            _ => Spot::Elsewhere,
        }
    }

    /// The reason in words, without the number of a line. Does not allocate.
    pub fn words(&self) -> &'static str {
        match self {
            Fault::Options(_) => "options out of range",
            Fault::Run(RunFault::Read)
            | Fault::Serve(ServeFault::Read)
            | Fault::Check(CheckFault::Read) => "read failed",
            Fault::Run(RunFault::TooLong)
            | Fault::Serve(ServeFault::TooLong)
            | Fault::Check(CheckFault::TooLong) => "too long",
            Fault::Run(RunFault::Bad { .. }) | Fault::Serve(ServeFault::Bad { .. }) => "bad line",
            Fault::Run(RunFault::OutOfMemory)
            | Fault::Serve(ServeFault::OutOfMemory)
            | Fault::Check(CheckFault::OutOfMemory) => "out of memory",
            Fault::Run(RunFault::Write { .. })
            | Fault::Serve(ServeFault::Write)
            | Fault::Check(CheckFault::Write { .. }) => "write failed",
        }
    }
}
