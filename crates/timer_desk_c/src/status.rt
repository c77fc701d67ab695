//! The numbers that C sees. Those of facts/statuses.toml are in `include/timers_desk.h` too; tests/headers.bats compares the others.

// made by tools/facts: constants of desks
/// The call was done.
pub const OK: u32 = 0;

/// The struct holds nothing.
pub const NOT_OPEN: u32 = 1;

/// The desk or one of the lines holds something already.
pub const OPEN: u32 = 2;

/// Out of memory: malloc or realloc returned NULL.
pub const NO_MEMORY: u32 = 4;

/// No pending timer of this client has this handle.
pub const NOT_PENDING: u32 = 6;

/// The interval is 0.
pub const ZERO_INTERVAL: u32 = 7;

/// The deadline is after the last tick, or has passed at the last tick.
pub const TOO_LATE: u32 = 8;

/// The desk has started 2^60 - 1 timers.
pub const SERIALS_SPENT: u32 = 9;

/// The clock is at its last tick.
pub const CLOCK_END: u32 = 10;

/// The desk was closed.
pub const CLOSED: u32 = 11;

/// As many timers are pending as may be.
pub const CAPACITY: u32 = 12;

/// There is no client with this number.
pub const NO_CLIENT: u32 = 13;

/// The client's numbers, up to 2^60 - 1, are used up.
pub const NUMBERS_SPENT: u32 = 14;

/// Of a word: the number was taken before; no client gets it.
pub const REPEATED: u32 = 15;

/// Of a word: an earlier number is missing; lines never cause it.
pub const AHEAD: u32 = 16;

/// The line has no room for another request now.
pub const LINE_FULL: u32 = 17;

/// The line has finished.
pub const FINISHED: u32 = 18;

/// A number of the configuration, or the number of lines, is out of its range.
pub const OUT_OF_RANGE: u32 = 19;

/// No request was served.
pub const IDLE: u32 = 20;

/// The outbox has no room for the words of another request.
pub const NO_ROOM: u32 = 21;

/// The line is another client's, or of an earlier life of the desk's struct.
pub const OTHER_LINE: u32 = 22;

/// The line has not finished.
pub const NOT_FINISHED: u32 = 23;

/// Something of the client is left at the desk.
pub const LEFT: u32 = 24;

/// The client's line was not freed.
pub const NOT_FREED: u32 = 25;

// by hand

/// In place of a tick: nothing is pending.
pub const NEVER: u64 = u64::MAX;

// The kinds of a word, and which of its members each sets.
// made by tools/facts: constants of words
/// Number, handle, deadline, action.
pub const STARTED: u32 = 1;

/// Number, handle, deadline and action of the new timer, the old serial in `other`.
pub const RESTARTED: u32 = 2;

/// Number, handle.serial of the stopped timer.
pub const STOPPED: u32 = 3;

/// Number, reason, action (0 of a stop): its number is used up, and nothing else changed.
pub const REFUSED: u32 = 4;

/// Number, reason, action (REPEATED, AHEAD: next number in `other`); nothing changed.
pub const NOT_TAKEN: u32 = 5;

/// Number of its start or restart, handle.serial, deadline, action.
pub const EXPIRED: u32 = 6;

/// The same: the desk was closed before its deadline.
pub const RETURNED: u32 = 7;

// by hand
