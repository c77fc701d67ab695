//! A timer, and the handle by which a client refers to it.

/// A timer that was started.
#[derive(Clone, Copy, Debug, PartialEq, Eq)]
pub struct Timer {
    /// Its number in the order of starting. No two timers of a wheel ever share one.
    pub serial: u64,
    /// The client that started it.
    pub client: u64,
    /// The number of the request that started it.
    pub number: u64,
    /// The tick at which it expires.
    pub deadline: u64,
    /// A value that is handed back with the timer. Nothing is executed.
    pub action: u64,
}

/// How a client refers to a timer.
///
/// A place is reused, a serial never: the serial is the generation of the place.
#[derive(Clone, Copy, Debug, PartialEq, Eq)]
pub struct Handle {
    /// Where the wheel keeps the timer: a free choice of the wheel.
    pub place: usize,
    /// The serial of the timer.
    pub serial: u64,
}
