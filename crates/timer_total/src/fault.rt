//! The errors of the calls. A call that fails changes nothing. Each enum is in the order of the tests.
use thiserror::Error;

/// Why no timer was started.
#[derive(Clone, Copy, Debug, PartialEq, Eq, Error)]
pub enum StartFault {
    #[error("the interval is 0")]
    ZeroInterval,
    #[error("the deadline is after the last tick")]
    TooLate,
    #[error("every serial was used")]
    SerialsSpent,
    #[error("out of memory")]
    OutOfMemory,
}

/// Why no timer was restarted. The old one is unchanged.
#[derive(Clone, Copy, Debug, PartialEq, Eq, Error)]
pub enum RestartFault {
    #[error("no timer has this handle")]
    NotPending,
    #[error("the interval is 0")]
    ZeroInterval,
    #[error("the deadline is after the last tick")]
    TooLate,
    #[error("every serial was used")]
    SerialsSpent,
}

/// Why the clock did not advance.
#[derive(Clone, Copy, Debug, PartialEq, Eq, Error)]
pub enum AdvanceFault {
    #[error("a timer that expired was not yet taken")]
    Due,
    #[error("the clock is at its last tick")]
    ClockEnd,
}
