//! The structs that are passed to C and back, other than `struct timers`. `include/timers.h` has the same.

/// How C refers to a timer: `struct timers_handle`.
#[repr(C)]
#[derive(Clone, Copy, Debug, PartialEq, Eq)]
pub struct CHandle {
    /// Where the wheel keeps the timer: a free choice of the wheel.
    pub place: usize,
    /// Its serial, which no other timer of the same `struct timers` ever has.
    pub serial: u64,
}

/// A timer that expired, or that is looked at: `struct timers_expired`.
#[repr(C)]
#[derive(Clone, Copy, Debug, PartialEq, Eq)]
pub struct Expired {
    /// The tick at which it expires.
    pub deadline: u64,
    /// Its number in the order of starting.
    pub serial: u64,
    /// The action that its start or restart was given.
    pub action: u64,
}

/// What the wheels did since they were made: `struct timers_counters`.
#[repr(C)]
#[derive(Clone, Copy, Debug, PartialEq, Eq)]
pub struct Counts {
    /// Timers that were started or restarted.
    pub starts: u64,
    /// How often a timer moved to a lower wheel or, in a lazy wheel, was filed anew.
    pub moves: u64,
}
