//! The steps of a turn of the desk, and the report of their results.
use crate::word::{Numbered, Word};
use timer_facility::{CloseFault, Notice, TickFault};

/// What `serve` returns.
#[derive(Clone, Copy, Debug, PartialEq, Eq)]
pub enum Served {
    /// Nothing is held, and nothing was known to stand in the line.
    Idle,
    /// The outbox had no room for one more answer and one more notice. Nothing was taken.
    NoRoom,
    /// Allocation failed. A request that was taken from the line is held, and is retried first.
    NoMemory,
    /// The facility took or refused the request, and its word was pushed to the back of the outbox. A notice
    /// comes next if a timer is due with it.
    Did { numbered: Numbered, word: Word },
}

/// One step of a turn. The number is that of a client, or a number of ticks.
#[derive(Clone, Copy, Debug, PartialEq, Eq)]
pub enum Step {
    Serve(usize),
    Tick,
    /// Passes 1 to this many ticks, and stops at the first that hands out something. Not 0.
    Ticks(u64),
    Close,
    Flush(usize),
}

/// One member of a report: the result of a step, or a notice of the tick, the close or the serve before it.
#[derive(Clone, Copy, Debug, PartialEq, Eq)]
pub enum Done {
    Served {
        client: usize,
        served: Served,
    },
    Ticked(Result<(), TickFault>),
    /// `limit` ticks were requested, and `passed` were passed. Only the last of them handed out anything.
    Passed {
        limit: u64,
        passed: Result<u64, TickFault>,
    },
    Closed(Result<u64, CloseFault>),
    /// The notice was pushed to the back of its client's outbox.
    Noticed(Notice),
    /// `count` words of the client were put into its line.
    Flushed {
        client: usize,
        count: usize,
    },
}
