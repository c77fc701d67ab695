//! Why a script is rejected, and why a run ends early.
ghost use Rattle.std.specs.Prelude.{◌≡◌};
ghost use Rattle.timer_script.specs.declared.fault.ScriptFault.TheVariants.{OutOfMemory};
ghost use Rattle.timer_script.specs.declared.fault.ReadFault.TheVariants as reads;
ghost use Rattle.timer_script.specs.declared.fault.RunFault.TheVariants as runs;
ghost use Rattle.timer_script.specs.declared.fault.CheckFault.TheVariants as checks;
ghost use Rattle.timer_script.specs.declared.fault.TurnFault.TheVariants as turns;
ghost use Rattle.timer_script.specs.Fault.{run_read_fault, run_script_fault, check_read_fault, serve_fault};

use std::alloc::{AllocError, AllocFailed};
use thiserror::Error;

/// Why bytes are rejected as a script.
#[derive(Clone, Copy, Debug, PartialEq, Eq, Error)]
pub enum ScriptFault {
    /// The first bad line, counted from 1.
    #[error("bad line {line}")]
    Bad { line: u64 },
    /// An allocation failed.
    #[error("out of memory")]
    OutOfMemory,
}

impl From<AllocError> for ScriptFault {
    ghost from_gives = { λ _ e. e ≡ OutOfMemory };

    fn from(_: AllocError) -> ScriptFault {
        ScriptFault::OutOfMemory
    }
}

impl<T: Drop> From<AllocFailed<T>> for ScriptFault {
    ghost from_gives = { λ _ e. e ≡ OutOfMemory };

    fn from(_: AllocFailed<T>) -> ScriptFault {
        ScriptFault::OutOfMemory
    }
}

impl From<timer_base::OutOfMemory> for ScriptFault {
    ghost from_gives = { λ _ e. e ≡ OutOfMemory };

    fn from(_: timer_base::OutOfMemory) -> ScriptFault {
        ScriptFault::OutOfMemory
    }
}

/// Why a script was not read to its end.
#[derive(Clone, Copy)]
pub enum ReadFault {
    /// The reader failed.
    Read,
    /// The input is longer than a script may be.
    TooLong,
    /// An allocation failed.
    OutOfMemory,
}

impl From<timer_base::OutOfMemory> for ReadFault {
    ghost from_gives = { λ _ e. e ≡ reads.OutOfMemory };

    fn from(_: timer_base::OutOfMemory) -> ReadFault {
        ReadFault::OutOfMemory
    }
}

/// A text was not written whole. The writer failed after it had taken this many of its bytes.
#[derive(Clone, Copy, Debug, PartialEq, Eq, Error)]
#[error("write failed")]
pub struct WriteFault {
    pub written: usize,
}

/// Why a piece of a stream was not answered.
#[derive(Clone, Copy)]
pub enum TurnFault {
    /// An allocation failed.
    OutOfMemory,
    /// A write or a flush failed.
    Write,
}

impl From<timer_base::OutOfMemory> for TurnFault {
    ghost from_gives = { λ _ e. e ≡ turns.OutOfMemory };

    fn from(_: timer_base::OutOfMemory) -> TurnFault {
        TurnFault::OutOfMemory
    }
}

/// Why serving ended early. Its text is the line that the user is shown.
#[derive(Clone, Copy, Debug, PartialEq, Eq, Error)]
pub enum ServeFault {
    /// A read failed, or the peer did not keep a state that it was told.
    #[error("read failed")]
    Read,
    /// The first bad line, counted from 1 (2^64 - 1 stands for any later one).
    #[error("bad line {line}")]
    Bad { line: u64 },
    /// An allocation failed.
    #[error("out of memory")]
    OutOfMemory,
    /// A write or a flush failed.
    #[error("write failed")]
    Write,
    /// 2^64 - 1 bytes came, or more.
    #[error("too long")]
    TooLong,
}

impl From<TurnFault> for ServeFault {
    ghost from_gives = { λ fault e. e ≡ serve_fault fault };

    fn from(fault: TurnFault) -> ServeFault {
        match fault {
            TurnFault::OutOfMemory => ServeFault::OutOfMemory,
            TurnFault::Write => ServeFault::Write,
        }
    }
}

/// Why a run ended early. Its text is the line that the user is shown.
#[derive(Clone, Copy, Debug, PartialEq, Eq, Error)]
pub enum RunFault {
    /// The reader failed. Nothing was written.
    #[error("read failed")]
    Read,
    /// The input is longer than a script may be. Nothing was written.
    #[error("too long")]
    TooLong,
    /// The first bad line, counted from 1. Nothing was written.
    #[error("bad line {line}")]
    Bad { line: u64 },
    /// An allocation failed. Nothing was written.
    #[error("out of memory")]
    OutOfMemory,
    /// The writer failed after it had taken this many bytes of the text.
    #[error("write failed")]
    Write { written: usize },
}

impl From<ReadFault> for RunFault {
    ghost from_gives = { λ fault e. e ≡ run_read_fault fault };

    fn from(fault: ReadFault) -> RunFault {
        match fault {
            ReadFault::Read => RunFault::Read,
            ReadFault::TooLong => RunFault::TooLong,
            ReadFault::OutOfMemory => RunFault::OutOfMemory,
        }
    }
}

impl From<ScriptFault> for RunFault {
    ghost from_gives = { λ fault e. e ≡ run_script_fault fault };

    fn from(fault: ScriptFault) -> RunFault {
        match fault {
            ScriptFault::Bad { line } => RunFault::Bad { line },
            ScriptFault::OutOfMemory => RunFault::OutOfMemory,
        }
    }
}

impl From<WriteFault> for RunFault {
    ghost from_gives = { λ fault e. e ≡ runs.Write (fault.written) };

    fn from(fault: WriteFault) -> RunFault {
        RunFault::Write {
            written: fault.written,
        }
    }
}

/// Why a check ended early. Its text is the line that the user is shown.
#[derive(Clone, Copy, Debug, PartialEq, Eq, Error)]
pub enum CheckFault {
    /// The reader failed. Nothing was written.
    #[error("read failed")]
    Read,
    /// The input is longer than a script may be. Nothing was written.
    #[error("too long")]
    TooLong,
    /// An allocation failed. Nothing was written.
    #[error("out of memory")]
    OutOfMemory,
    /// The writer failed after it had taken this many bytes of the report.
    #[error("write failed")]
    Write { written: usize },
}

impl From<ReadFault> for CheckFault {
    ghost from_gives = { λ fault e. e ≡ check_read_fault fault };

    fn from(fault: ReadFault) -> CheckFault {
        match fault {
            ReadFault::Read => CheckFault::Read,
            ReadFault::TooLong => CheckFault::TooLong,
            ReadFault::OutOfMemory => CheckFault::OutOfMemory,
        }
    }
}

impl From<timer_base::OutOfMemory> for CheckFault {
    ghost from_gives = { λ _ e. e ≡ checks.OutOfMemory };

    fn from(_: timer_base::OutOfMemory) -> CheckFault {
        CheckFault::OutOfMemory
    }
}

impl From<WriteFault> for CheckFault {
    ghost from_gives = { λ fault e. e ≡ checks.Write (fault.written) };

    fn from(fault: WriteFault) -> CheckFault {
        CheckFault::Write {
            written: fault.written,
        }
    }
}
