//! Why a peer with a journal fails, and why a journal is not opened.
ghost use Rattle.std.specs.Prelude.{◌≡◌};
ghost use Rattle.timer_journal.specs.declared.fault.DeviceFault.TheVariants as devices;
ghost use Rattle.timer_journal.specs.declared.fault.JournalFault.TheVariants as journals;
ghost use Rattle.timer_durable.specs.declared.fault.BeginFault.TheVariants as begins;
ghost use Rattle.timer_durable.specs.declared.fault.KeepFault.TheVariants.{Journal as JournalFails};

use std::alloc::AllocError;
use thiserror::Error;
use timer_journal::{DeviceFault, JournalFault};

/// Why a peer with a journal fails.
#[derive(Clone, Copy, Debug, PartialEq, Eq, Error)]
pub enum KeepFault {
    /// The journal refuses.
    #[error("{0}")]
    Journal(JournalFault),
    /// A line is longer than a group may be.
    #[error("a line is too long")]
    LongLine,
    /// The lines or the answers are too many to be counted.
    #[error("too many lines or answers")]
    TooMany,
    /// So many answers came before the journal's beginning, and the caller has seen fewer.
    #[error("answers begin after {before}")]
    AnswersGone { before: u64 },
    /// There are so many answers, and the caller has seen more.
    #[error("has {answers} answers")]
    FewAnswers { answers: u64 },
    /// The state was not asked for.
    #[error("the state was not asked for")]
    Unwanted,
    /// The peer could not be read.
    #[error("cannot read")]
    Read,
    /// What was recovered could not be written to the peer.
    #[error("cannot write what was recovered")]
    Write,
}

impl From<JournalFault> for KeepFault {
    ghost from_gives = { λ fault e. e ≡ JournalFails fault };

    fn from(fault: JournalFault) -> KeepFault {
        KeepFault::Journal(fault)
    }
}

impl From<AllocError> for KeepFault {
    ghost from_gives = { λ _ e. e ≡ JournalFails (journals.Device devices.OutOfMemory) };

    fn from(_: AllocError) -> KeepFault {
        KeepFault::Journal(JournalFault::Device(DeviceFault::OutOfMemory))
    }
}

/// Why a file is not opened as a journal.
#[derive(Debug, PartialEq, Eq, Drop, Error)]
pub enum BeginFault {
    /// The journal refuses.
    #[error("{0}")]
    Journal(JournalFault),
    /// The first line is none of a journal.
    #[error("no journal")]
    NoJournal,
    /// It is that of another version.
    #[error("a journal of another version")]
    OtherVersion,
    /// It has these options in place of those that are wanted.
    #[error("a journal of other options: {}", .found.escape_ascii())]
    OtherOptions { found: Vec<u8> },
    /// What follows the first line is no beginning.
    #[error("a journal with a wrong beginning")]
    NoBeginning,
}

impl From<JournalFault> for BeginFault {
    ghost from_gives = { λ fault e. e ≡ begins.Journal fault };

    fn from(fault: JournalFault) -> BeginFault {
        BeginFault::Journal(fault)
    }
}

impl From<AllocError> for BeginFault {
    ghost from_gives = { λ _ e. e ≡ begins.Journal (journals.Device devices.OutOfMemory) };

    fn from(_: AllocError) -> BeginFault {
        BeginFault::Journal(JournalFault::Device(DeviceFault::OutOfMemory))
    }
}
