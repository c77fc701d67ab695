//! Why a call on a device fails, and why a journal refuses.
ghost use Rattle.std.specs.Prelude.{◌≡◌};
ghost use Rattle.timer_journal.specs.declared.fault.DeviceFault.TheVariants.{OutOfMemory};
ghost use Rattle.timer_journal.specs.declared.fault.JournalFault.TheVariants as journals;

use std::alloc::{AllocError, AllocFailed};
use thiserror::Error;

/// Why a call on a device fails.
#[derive(Clone, Copy, Debug, PartialEq, Eq, Error)]
pub enum DeviceFault {
    /// An allocation failed.
    #[error("out of memory")]
    OutOfMemory,
    /// The disk is full, or the file may not grow.
    #[error("no space left on the device")]
    Full,
    /// The disk failed.
    #[error("a call of the disk failed")]
    Failed,
}

impl From<AllocError> for DeviceFault {
    ghost from_gives = { λ _ e. e ≡ OutOfMemory };

    fn from(_: AllocError) -> DeviceFault {
        DeviceFault::OutOfMemory
    }
}

impl<T: Drop> From<AllocFailed<T>> for DeviceFault {
    ghost from_gives = { λ _ e. e ≡ OutOfMemory };

    fn from(_: AllocFailed<T>) -> DeviceFault {
        DeviceFault::OutOfMemory
    }
}

/// Why a journal is not opened, or takes no lines.
#[derive(Clone, Copy, Debug, PartialEq, Eq, Error)]
pub enum JournalFault {
    /// A call on the journal has failed before.
    #[error("failed before")]
    Dead,
    /// The file would be too long.
    #[error("too long")]
    TooLong,
    /// The file was never a journal.
    #[error("no journal")]
    NoJournal,
    /// No crash leaves what is at this byte of the file.
    #[error("damaged at byte {at}")]
    Damaged { at: usize },
    /// A call on the device failed.
    #[error("{0}")]
    Device(DeviceFault),
}

impl From<DeviceFault> for JournalFault {
    ghost from_gives = { λ fault e. e ≡ journals.Device fault };

    fn from(fault: DeviceFault) -> JournalFault {
        JournalFault::Device(fault)
    }
}

impl From<AllocError> for JournalFault {
    ghost from_gives = { λ _ e. e ≡ journals.Device OutOfMemory };

    fn from(_: AllocError) -> JournalFault {
        JournalFault::Device(DeviceFault::OutOfMemory)
    }
}
