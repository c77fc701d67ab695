//! A client's requests, and their answers.
use timer_base::{Handle, Timer};

/// A request of a client.
#[derive(Clone, Copy, Debug, PartialEq, Eq)]
pub enum Request {
    /// Start a timer that expires after `interval` ticks, and hand `action` back with it.
    Start {
        interval: u64,
        action: u64,
    },
    /// Start a timer that expires at the tick `deadline`: as `Start` with the interval that is left until then
    /// when the request is taken. If the deadline is not after the present tick, the timer is due at once: its
    /// deadline is the present tick, and its notice follows the answer. Such a start is refused exactly if one for
    /// the next tick would be.
    StartAt {
        deadline: u64,
        action: u64,
    },
    /// Stop the timer with this handle.
    Stop(Handle),
    /// Stop the timer with this handle and start another in its place, in one request.
    Restart {
        handle: Handle,
        interval: u64,
        action: u64,
    },
    /// Stop the timer with this handle and start another in its place that expires at the tick `deadline`: as
    /// `Restart` with the interval that is left until then when the request is taken, and due at once as by `StartAt`.
    RestartAt {
        handle: Handle,
        deadline: u64,
        action: u64,
    },
}

/// The answer to a request that was taken.
#[derive(Clone, Copy, Debug, PartialEq, Eq)]
pub enum Answer {
    /// The timer runs, and expires at the tick `deadline`.
    Started {
        handle: Handle,
        deadline: u64,
    },
    /// The timer with this serial will never be handed out.
    Stopped {
        serial: u64,
    },
    /// The timer with the serial `old` will never be handed out. A new one runs in its place, and expires
    /// at the tick `deadline`.
    Restarted {
        handle: Handle,
        deadline: u64,
        old: u64,
    },
    /// The request used up its number, and nothing else changed.
    Refused(Reason),
}

/// Why a request that was taken is refused. A start is tested against the first four in this order; a
/// restart against the last one and then the first three, and it is never `Full`.
#[derive(Clone, Copy, Debug, PartialEq, Eq)]
pub enum Reason {
    /// The interval is 0. It is never the reason for a start or restart that is given a deadline.
    ZeroInterval,
    /// The deadline would be after the last tick; or it has passed, and the clock is at its last tick.
    TooLate,
    /// All serials are used up.
    SerialsSpent,
    /// The facility is at its capacity of pending timers.
    Full,
    /// No pending timer of this client has this handle.
    NoSuch,
}

/// Why a request was not taken, in the order of the tests. Nothing changed.
#[derive(Clone, Copy, Debug, PartialEq, Eq)]
pub enum NotTaken {
    /// The facility was closed.
    Closed,
    /// There is no such client.
    NoClient,
    /// The number is below the client's next one, which is `next`.
    Repeated { next: u64 },
    /// The client's numbers are used up.
    NumbersSpent,
    /// An earlier number is missing; `next` is the client's next one.
    Ahead { next: u64 },
    /// Out of memory. The same request may be repeated.
    OutOfMemory,
}

/// A timer that is handed out.
#[derive(Clone, Copy, Debug, PartialEq, Eq)]
pub enum Notice {
    /// The tick is the timer's deadline.
    Expired(Timer),
    /// The facility was closed before the timer's deadline.
    Returned(Timer),
}

/// Why a tick is refused, in the order of the tests. Nothing changed.
#[derive(Clone, Copy, Debug, PartialEq, Eq)]
pub enum TickFault {
    /// The facility was closed.
    Closed,
    /// The clock is at its last tick.
    ClockEnd,
}

/// Why a close is refused, in the order of the tests. Nothing changed.
#[derive(Clone, Copy, Debug, PartialEq, Eq)]
pub enum CloseFault {
    /// The facility was closed.
    Closed,
    /// Out of memory. The close may be repeated.
    OutOfMemory,
}
