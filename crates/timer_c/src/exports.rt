//! The functions that C calls. Each that takes a struct checks whether it is open, then calls `timer_total`.
//!
//! Most contracts have the same parts: that the struct was open if the call returns `OK`; which call of a run it then is,
//! with its arguments and results, and so what it did (`call`: `IsCall` of timer_runs has the equation); the first reason
//! that holds if it returns another status; that nothing changed then; and that nothing but the state of the timers changes
//! in what C holds. `timers_new` and `timers_free` change the struct itself.
ghost use Rattle.std.specs.Prelude.{◌≡◌, ◌<◌, ◌⊎◌, None};
ghost use Rattle.timer_base.specs.declared.timer.Timer.{Timer};
ghost use Rattle.timer_base.specs.WheelState.{held_at};
ghost use Rattle.timer_c.specs.Calls.{Does, DoesIfOk};
ghost use Rattle.timer_c.specs.Frames.{IsOpen, IsShut, IsRefused, with_timers};
ghost use Rattle.timer_c.specs.Outcomes.{IsEmptyAt, WhyNoWheel, IsStopRefusal, base_handle};
ghost use Rattle.timer_c.specs.declared.status.TheConstants.{OK, OPEN, NO_MEMORY, VERSION_NUMBER};
ghost use Rattle.timer_runs.specs.Runs.{Stopped, Cleared, Reserved, Renewed, Kept};

use crate::c_timers::CTimers;
use crate::conversions::from_c_handle;
use crate::layout::CHandle;
use crate::status::{NO_MEMORY, NOT_OPEN, NOT_PENDING, OK, OPEN, VERSION_NUMBER};
use crate::wheel_maker::wheel_of;
use std::alloc::Global;
use timer_total::Timers;

/// The version of the library, as a number that rises with it.
#[unsafe(no_mangle)]
pub extern "C" fn timers_version() -> u32
    ensures { result ≡ VERSION_NUMBER }
{
    VERSION_NUMBER
}

/// Makes timers with this table, none of them pending, at the first tick. `t` holds them until
/// `timers_free`. Serials continue after those of the timers that `t` held before.
#[unsafe(no_mangle)]
pub extern "C" fn timers_new(alloc: Global, t: &mut CTimers, table: u32, first_tick: u64) -> u32
    ensures call { DoesIfOk result Renewed t.old t.new }
    ensures made { result ≡ OK → IsShut t.old × IsOpen t.new
        × IsEmptyAt table first_tick t.old.last_serial t.new.slot.state }
    ensures refused { 0 < result → ((result ≡ OPEN) × IsOpen t.old)
        ⊎ (IsShut t.old × WhyNoWheel table first_tick result) }
    ensures kept { 0 < result → t.new ≡ t.old }
    ensures serial { t.new.last_serial ≡ t.old.last_serial }
{
    if let Some(_) = t.timers() {
        return OPEN;
    }
    let wheel = match wheel_of(alloc, table, first_tick) {
        Ok(wheel) => wheel,
        Err(status) => return status,
    };
    match Box::new(alloc, Timers::new(wheel, t.last_serial)) {
        Ok(timers) => {
            t.slot.cell().put(timers);
            OK
        }
        Err(_) => NO_MEMORY,
    }
}

/// Frees the timers, if there are any, and keeps their last serial.
#[unsafe(no_mangle)]
pub extern "C" fn timers_free(alloc: Global, t: &mut CTimers)
    ensures call { Does Renewed t.old t.new }
    ensures shut { IsShut t.new }
    ensures serial { IsOpen t.old → t.new.last_serial ≡ t.old.slot.state.last_serial }
    ensures kept { IsShut t.old → t.new ≡ t.old }
{
    if let Some(timers) = t.timers() {
        t.last_serial = timers.last_serial();
        drop(t.slot.cell().take(alloc));
    }
}

/// Drops every timer, pending or expired and not yet taken. The clock and the last serial stay.
#[unsafe(no_mangle)]
pub extern "C" fn timers_clear(t: &mut CTimers)
    ensures call { Does Cleared t.old t.new }
    ensures not_open { IsShut t.old → t.new ≡ t.old }
    ensures only { t.new ≡ with_timers t.old t.new.slot.state }
{
    if let Some(timers) = t.timers() {
        timers.clear();
    }
}

/// Makes room for `most` timers at one time, pending and expired ones together. Nothing else changes. While
/// fewer are held, a start finds memory.
#[unsafe(no_mangle)]
pub extern "C" fn timers_reserve(t: &mut CTimers, most: usize) -> u32
    ensures was_open { result ≡ OK → IsOpen t.old }
    ensures call { DoesIfOk result (Reserved most) t.old t.new }
    ensures refused { 0 < result → IsRefused t.old result (result ≡ NO_MEMORY) }
    ensures kept { 0 < result → t.new ≡ t.old }
    ensures only { t.new ≡ with_timers t.old t.new.slot.state }
{
    let Some(timers) = t.timers() else {
        return NOT_OPEN;
    };
    match timers.reserve(most) {
        Ok(()) => OK,
        Err(_) => NO_MEMORY,
    }
}

/// Stops the timer with exactly this handle, pending or expired and not yet taken, and writes its action.
#[unsafe(no_mangle)]
pub extern "C" fn timers_stop(t: &mut CTimers, handle: CHandle, action: &mut u64) -> u32
    ensures was_open { result ≡ OK → IsOpen t.old }
    ensures call { (result ≡ OK → (timer : Timer) × (timer.action ≡ action.new)
        × Does (Stopped (base_handle handle) timer) t.old t.new) × (0 < result → Does Kept t.old t.new) }
    ensures dead { result ≡ OK → held_at (base_handle handle) t.new.slot.state.wheel ≡ None }
    ensures refused { 0 < result → IsRefused t.old result (IsStopRefusal handle t.old.slot.state result) }
    ensures kept { 0 < result → (t.new ≡ t.old) × (action.new ≡ action.old) }
    ensures only { t.new ≡ with_timers t.old t.new.slot.state }
{
    let Some(timers) = t.timers() else {
        return NOT_OPEN;
    };
    match timers.stop(from_c_handle(handle)) {
        Some(timer) => {
            *action = timer.action;
            OK
        }
        None => NOT_PENDING,
    }
}
