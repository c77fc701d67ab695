//! What a player plays, and what it returns: outs, and where it stopped.
use crate::request::{Answer, NotTaken, Notice, TickFault};
use crate::saved::StateLine;

/// One event of a list that is played. A stop or a restart names its timer by serial.
#[derive(Clone, Copy, Debug, PartialEq, Eq)]
pub enum Event {
    /// The client's request, under this number, to start a timer.
    Start {
        client: u64,
        number: u64,
        interval: u64,
        action: u64,
    },
    /// The client's request, under this number, to start a timer that expires at the tick `deadline`.
    StartAt {
        client: u64,
        number: u64,
        deadline: u64,
        action: u64,
    },
    /// The client's request, under this number, to stop the timer with this serial.
    Stop {
        client: u64,
        number: u64,
        serial: u64,
    },
    /// The client's request, under this number, to stop the timer with this serial and start another in
    /// its place.
    Restart {
        client: u64,
        number: u64,
        serial: u64,
        interval: u64,
        action: u64,
    },
    /// As `Restart`, and the other timer expires at the tick `deadline`.
    RestartAt {
        client: u64,
        number: u64,
        serial: u64,
        deadline: u64,
        action: u64,
    },
    /// `count` ticks, one after another, up to the first that is refused.
    Ticks {
        count: u64,
    },
    /// As many ticks as are left until this one, none if it is reached: so it may be played again.
    TicksTo {
        tick: u64,
    },
    /// The close.
    Close,
    /// A look at the state, which changes nothing: also a closed facility answers it.
    Dump,
}

/// One result of an event: a list of them is in the order in which they came about.
#[derive(Clone, Copy, Debug, PartialEq, Eq)]
pub enum Out {
    /// The client's request with this number was taken.
    Answered {
        client: u64,
        number: u64,
        answer: Answer,
    },
    /// The client's request with this number was not taken.
    NotTaken {
        client: u64,
        number: u64,
        reason: NotTaken,
    },
    /// A timer was handed out.
    Notice(Notice),
    /// A tick was refused.
    TickRefused(TickFault),
    /// The facility was closed, and returns this many timers.
    Closed {
        count: u64,
    },
    /// A close was refused: the facility was closed already.
    CloseRefused,
    /// A line of a dump.
    Dumped(StateLine),
}

/// What was played before memory ran out. The event after it changed nothing.
#[derive(Debug, Drop)]
pub struct PlayStop {
    /// How many events were played.
    pub done: usize,
    /// Their outs.
    pub outs: Vec<Out>,
}
