//! The errors of the constructor of a desk, and the backlogs of a new one.
ghost use Rattle.std.specs.Prelude.{◌≡◌, IfOk, replicate};
ghost use Rattle.timer_desk.specs.Backlog.{empty_backlog};

use crate::backlog::Backlog;
use std::alloc::{AllocError, Global};
use timer_base::Wheel;
use timer_facility::Facility;

/// The least room of an outbox, in words: an answer, and a notice of the timer that it started.
pub const MIN_ROOM: usize = 2;

/// The greatest room of an outbox, in words.
pub const MAX_ROOM: usize = 65536;

/// Why a desk was not opened, in the order of the tests. It hands back the facility and the lines.
#[derive(Drop)]
pub enum OpenFault<W: Wheel + Drop, I: Drop> {
    /// The room is not from `MIN_ROOM` to `MAX_ROOM`.
    Room(Facility<W>, Vec<I>),
    /// Allocation failed.
    OutOfMemory(Facility<W>, Vec<I>),
}

/// For each client an empty outbox with this room, and no held request.
pub fn empty_backlogs(
    alloc: Global,
    clients: usize,
    room: usize,
) -> Result<Vec<Backlog>, AllocError>
    ensures { IfOk result (λ backlogs. backlogs.items ≡ replicate clients (empty_backlog room)) }
{
    let mut backlogs = Vec::with_capacity(alloc, clients)?;
    for _ in 0..clients {
        backlogs.push_reserved(Backlog::new(alloc, room)?);
    }
    Ok(backlogs)
}
