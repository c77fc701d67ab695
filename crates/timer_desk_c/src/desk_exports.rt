//! The functions that C calls in the owner's thread. None of them waits for a client.
//!
//! The contracts have the same parts as those of `line_exports`. What a serve, a tick or a close did to the desk
//! is a report, as in `timer_desk`: each member with its exact result, the words for each client in order, and the
//! facility before and after. A flush is a report too, and then drops the words to a line that was freed.
ghost use Rattle.std.specs.Prelude.{◌≡◌, ◌<◌, ◌≤◌, ◌⊎◌, length, false};
ghost use Rattle.timer_desk.specs.Desk.{clients_of};
ghost use Rattle.timer_desk_c.specs.Frames.{HasDesk, HasNoDesk, with_desk, next_life};
ghost use Rattle.timer_desk_c.specs.Desks.{IsFit, IsMade, AllEmpty, IsOneHeld, WhyNotMade, with_reserve, HasServed, HasTicked, HasClosed};
ghost use Rattle.timer_desk_c.specs.Rounds.{HasServedAll, HasFlushedAll};
ghost use Rattle.timer_desk_c.specs.Ticks.{HasAdvanced, WhyNoTickPassed, HasFlushed};
ghost use Rattle.timer_desk_c.specs.declared.status.TheConstants.{OK, NOT_OPEN, OPEN, NO_CLIENT, NO_MEMORY};

use crate::c_structs::{CDesk, CLine};
use crate::desk_maker::{Made, make};
use crate::layout::DeskConfig;
use crate::placement::{are_empty, place};
use crate::rounds;
use crate::status::{CLOCK_END, CLOSED, IDLE, NO_CLIENT, NO_MEMORY, NO_ROOM, NOT_OPEN, OK, OPEN};
use std::alloc::Global;
use timer_desk::Served;
use timer_facility::{CloseFault, TickFault};

/// Makes a desk with a client for each of `lines`, which hold the clients' ends from then on. The struct begins another
/// life.
#[unsafe(no_mangle)]
pub extern "C" fn timers_desk_new(
    alloc: Global,
    d: &mut CDesk,
    lines: &mut [CLine],
    config: &DeskConfig,
) -> u32
    ensures made { result ≡ OK → HasNoDesk d.old × AllEmpty lines.old × IsFit (length lines.old) config.now
        × HasDesk d.new
        × (d.new.lives ≡ next_life d.old.lives)
        × IsMade d.new.lives config.now d.new.slot.state lines.new × (length lines.new ≡ length lines.old) }
    ensures refused { 0 < result → ((result ≡ OPEN) × (HasDesk d.old ⊎ IsOneHeld lines.old))
        ⊎ (HasNoDesk d.old × AllEmpty lines.old × WhyNotMade (length lines.old) config.now result) }
    ensures kept { 0 < result → (d.new ≡ d.old) × (lines.new ≡ lines.old) }
{
    if let Some(_) = d.desk() {
        return OPEN;
    }
    if !are_empty(lines) {
        return OPEN;
    }
    match make(alloc, lines.len(), *config) {
        Ok(made) => {
            let Made { desk, ends } = made;
            d.slot.cell().put(desk);
            // A life differs from the 2^64 - 1 before it.
            d.lives = d.lives.wrapping_add(1);
            place(ends, lines, d.lives);
            OK
        }
        Err(status) => status,
    }
}

/// Frees the desk, if there is one: the facility, all pending timers and words, and the owner's ends of the
/// lines. The struct keeps the count of its lives.
#[unsafe(no_mangle)]
pub extern "C" fn timers_desk_free(alloc: Global, d: &mut CDesk)
    ensures shut { HasNoDesk d.new }
    ensures lives { d.new.lives ≡ d.old.lives }
    ensures kept { HasNoDesk d.old → d.new ≡ d.old }
{
    if let Some(_) = d.desk() {
        drop(d.slot.cell().take(alloc));
    }
}

/// Serves a client once: takes its held request, or else the next of its line, to the facility.
#[unsafe(no_mangle)]
pub extern "C" fn timers_desk_serve(d: &mut CDesk, client: usize) -> u32
    ensures served { HasDesk d.old → client < clients_of d.old.slot.state
        → HasServed client result d.old.slot.state d.new.slot.state }
    ensures none { HasDesk d.old → clients_of d.old.slot.state ≤ client
        → (result ≡ NO_CLIENT) × (d.new ≡ d.old) }
    ensures not_open { HasNoDesk d.old → (result ≡ NOT_OPEN) × (d.new ≡ d.old) }
    ensures only { d.new ≡ with_desk d.old d.new.slot.state }
{
    match d.desk() {
        Some(desk) if client < desk.clients() => match desk.serve(client) {
            Served::Idle => IDLE,
            Served::NoRoom => NO_ROOM,
            Served::NoMemory => NO_MEMORY,
            Served::Did { .. } => OK,
        },
        Some(_) => NO_CLIENT,
        None => NOT_OPEN,
    }
}

/// Serves each client in turn, each up to `most` times. Returns `NO_MEMORY` if a serve failed with out of memory,
/// else `OK` if a request was done, else `IDLE`.
#[unsafe(no_mangle)]
pub extern "C" fn timers_desk_serve_all(d: &mut CDesk, most: u64) -> u32
    ensures served { HasDesk d.old → HasServedAll most result d.old.slot.state d.new.slot.state }
    ensures not_open { HasNoDesk d.old → (result ≡ NOT_OPEN) × (d.new ≡ d.old) }
    ensures only { d.new ≡ with_desk d.old d.new.slot.state }
{
    match d.desk() {
        Some(desk) => rounds::serve_all(desk, most),
        None => NOT_OPEN,
    }
}

/// Moves words from each client's outbox into its line, as many as it takes. Those that are left of a client whose
/// line was freed are dropped. Returns whether a word has left its outbox.
#[unsafe(no_mangle)]
pub extern "C" fn timers_desk_flush_all(d: &mut CDesk) -> bool
    ensures flushed { HasDesk d.old → HasFlushedAll result d.old.slot.state d.new.slot.state }
    ensures not_open { HasNoDesk d.old → (result ≡ false) × (d.new ≡ d.old) }
    ensures only { d.new ≡ with_desk d.old d.new.slot.state }
{
    match d.desk() {
        Some(desk) => rounds::flush_all(desk),
        None => false,
    }
}

/// Advances the clock by one tick. The notices of the timers that expire wait in the outboxes.
#[unsafe(no_mangle)]
pub extern "C" fn timers_desk_tick(d: &mut CDesk) -> u32
    ensures ticked { HasDesk d.old → HasTicked result d.old.slot.state d.new.slot.state }
    ensures not_open { HasNoDesk d.old → (result ≡ NOT_OPEN) × (d.new ≡ d.old) }
    ensures only { d.new ≡ with_desk d.old d.new.slot.state }
{
    let Some(desk) = d.desk() else {
        return NOT_OPEN;
    };
    match desk.tick() {
        Ok(()) => OK,
        Err(TickFault::Closed) => CLOSED,
        Err(TickFault::ClockEnd) => CLOCK_END,
    }
}

/// Passes at most `most` ticks, up to the first at which a timer expires or to the last tick, and writes how many were
/// passed: 0 only if `most` is 0.
#[unsafe(no_mangle)]
pub extern "C" fn timers_desk_advance(d: &mut CDesk, most: u64, passed: &mut u64) -> u32
    ensures advanced { result ≡ OK → HasDesk d.old × HasAdvanced most passed.new d.old.slot.state
        d.new.slot.state }
    ensures refused { 0 < result → ((result ≡ NOT_OPEN) × HasNoDesk d.old)
        ⊎ (HasDesk d.old × WhyNoTickPassed most d.old.slot.state.facility result) }
    ensures kept { 0 < result → (d.new ≡ d.old) × (passed.new ≡ passed.old) }
    ensures only { d.new ≡ with_desk d.old d.new.slot.state }
{
    let Some(desk) = d.desk() else {
        return NOT_OPEN;
    };
    if most == 0 {
        *passed = 0;
        return OK;
    }
    match desk.ticks(most) {
        Ok(ticks) => {
            *passed = ticks;
            OK
        }
        Err(TickFault::Closed) => CLOSED,
        Err(TickFault::ClockEnd) => CLOCK_END,
    }
}

/// Moves words from a client's outbox into its line, as many as it takes, and drops those that are left if the line
/// was freed. Returns how many have left the outbox.
#[unsafe(no_mangle)]
pub extern "C" fn timers_desk_flush(d: &mut CDesk, client: usize) -> usize
    ensures flushed { HasDesk d.old → client < clients_of d.old.slot.state
        → HasFlushed client result d.old.slot.state d.new.slot.state }
    ensures none { HasDesk d.old → clients_of d.old.slot.state ≤ client → (result ≡ 0) × (d.new ≡ d.old) }
    ensures not_open { HasNoDesk d.old → (result ≡ 0) × (d.new ≡ d.old) }
    ensures only { d.new ≡ with_desk d.old d.new.slot.state }
{
    match d.desk() {
        Some(desk) if client < desk.clients() => {
            let before = desk.outbox_len(client);
            desk.flush(client);
            rounds::drop_rest(desk, client);
            before - desk.outbox_len(client)
        }
        _ => 0,
    }
}

/// Closes the facility: each pending timer is returned to its client, and no request is accepted from then
/// on. Writes how many were returned. It is never out of memory after a `timers_desk_reserve`.
#[unsafe(no_mangle)]
pub extern "C" fn timers_desk_close(d: &mut CDesk, returned: &mut u64) -> u32
    ensures closed { HasDesk d.old → HasClosed result returned.new d.old.slot.state d.new.slot.state }
    ensures not_open { HasNoDesk d.old → (result ≡ NOT_OPEN) × (d.new ≡ d.old) }
    ensures kept { 0 < result → returned.new ≡ returned.old }
    ensures only { d.new ≡ with_desk d.old d.new.slot.state }
{
    let Some(desk) = d.desk() else {
        return NOT_OPEN;
    };
    match desk.close() {
        Ok(count) => {
            *returned = count;
            OK
        }
        Err(CloseFault::Closed) => CLOSED,
        Err(CloseFault::OutOfMemory) => NO_MEMORY,
    }
}

/// Makes room for as many timers as may be pending: no serve and no close runs out of memory from then on.
#[unsafe(no_mangle)]
pub extern "C" fn timers_desk_reserve(d: &mut CDesk) -> u32
    ensures reserved { result ≡ OK → HasDesk d.old × (d.new.slot.state ≡ with_reserve d.old.slot.state) }
    ensures refused { 0 < result → ((result ≡ NOT_OPEN) × HasNoDesk d.old)
        ⊎ ((result ≡ NO_MEMORY) × HasDesk d.old) }
    ensures kept { 0 < result → d.new.slot.state ≡ d.old.slot.state }
    ensures only { d.new ≡ with_desk d.old d.new.slot.state }
{
    match d.desk() {
        Some(desk) => match desk.reserve() {
            Ok(()) => OK,
            Err(_) => NO_MEMORY,
        },
        None => NOT_OPEN,
    }
}
