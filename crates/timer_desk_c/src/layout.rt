//! The structs that are passed to C and back, other than those that own something. `include/timers_desk.h`
//! has the same.

/// How C refers to a timer: `struct timers_handle`.
#[repr(C)]
#[derive(Clone, Copy, Default)]
pub struct CHandle {
    /// Where the wheel keeps the timer: a free choice of the wheel.
    pub place: usize,
    /// Its serial, which no other timer of the same desk ever has.
    pub serial: u64,
}

/// A message to a client: `struct timers_word`. Fields that its kind doesn't use are 0.
#[repr(C)]
#[derive(Clone, Copy, Default)]
pub struct Message {
    /// One of the kinds.
    pub kind: u32,
    /// Why the request was refused or not taken.
    pub reason: u32,
    /// The number of the request that is answered, or that started the timer.
    pub number: u64,
    /// The timer. A notice has no place.
    pub handle: CHandle,
    /// The tick at which it expires, or would have expired.
    pub deadline: u64,
    /// The action that its start or restart was given.
    pub action: u64,
    /// Of a restart, the old timer's serial; of a number out of order, the next one.
    pub other: u64,
}

/// How many bytes a `DeskConfig` has.
pub const CONFIG_SIZE: usize = 48;

/// The numbers that a desk is made with: `struct timers_desk_config`.
#[repr(C)]
#[derive(Clone, Copy)]
pub struct DeskConfig {
    /// How many bytes this struct has, `CONFIG_SIZE`: so that a later version can tell it from one with more fields.
    pub size: usize,
    /// The tick at which its clock begins.
    pub first_tick: u64,
    /// The most timers that may be pending at a time.
    pub capacity: u64,
    /// How many words the outbox of each client has room for.
    pub room: usize,
    /// How many requests, and how many words, each line has room for.
    pub line: usize,
    /// The number of the wheels' table.
    pub table: u32,
}
