//! The result of a client's run, and why a run of clients failed.
use crate::client::History;
use timer_desk::{ClientReader, RequestsEnded};

/// What is left of a client that has finished.
#[derive(Drop)]
pub struct Worked {
    /// What is left of its requests. None if the owner's end was dropped, by the ring's answer.
    pub ended: Option<RequestsEnded>,
    /// The reader of its words.
    pub reader: ClientReader,
    /// How many requests it sent.
    pub sent: u64,
    /// How many of them started a timer, by the words it received.
    pub started: u64,
    /// How many timers expired, by the same words.
    pub expired: u64,
    /// Whether a check failed, or the work ended before all was sent and received.
    pub failed: bool,
    /// How many turns in a row it had neither sent nor received when it ended.
    pub idle: u64,
    /// What it did, turn by turn. It has no bytes: only contracts read it.
    pub history: History,
}

/// Why a run of clients in threads failed: the first of these that applies.
#[derive(Clone, Copy, Debug, PartialEq, Eq)]
pub enum ThreadsFault {
    /// Allocation failed, or a thread could not be started.
    OutOfMemory,
    /// A check of this client failed, it came to its limit, or something of it was left.
    Client(usize),
    /// The desk came to its limit.
    Desk,
}
