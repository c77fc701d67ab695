//! The numbers that C sees. Those of facts/statuses.toml are in `include/timers.h` too; tests/headers.bats compares the others.

// made by tools/facts: constants of timers
/// The call was done.
pub const OK: u32 = 0;

/// Not open: timers_new was not called, or timers_free was since.
pub const NOT_OPEN: u32 = 1;

/// Already open; of timers_set_allocator, memory was asked for already.
pub const OPEN: u32 = 2;

/// The table is none of enum timers_table.
pub const NO_TABLE: u32 = 3;

/// Out of memory: malloc or realloc returned NULL; or some 4.29 billion timers are held, after a
/// timers_reserve maybe half as many.
pub const NO_MEMORY: u32 = 4;

/// An expired timer was not yet taken: call timers_expire.
pub const DUE: u32 = 5;

/// No timer has this handle: it was stopped, restarted, taken or dropped.
pub const NOT_PENDING: u32 = 6;

/// The interval is 0.
pub const ZERO_INTERVAL: u32 = 7;

/// The tick is after the last one.
pub const TOO_LATE: u32 = 8;

/// This struct has started 2^60 - 1 timers.
pub const SERIALS_SPENT: u32 = 9;

/// The clock is at its last tick.
pub const CLOCK_END: u32 = 10;

// by hand

/// The version: 10,000 times its major number, 100 times its minor one, and its patch.
pub const VERSION_NUMBER: u32 = 10000;

/// In place of a tick: no timer is held.
pub const NEVER: u64 = u64::MAX;
