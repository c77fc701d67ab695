//! The functions that C calls to read alone.
ghost use Rattle.std.specs.Prelude.{◌≡◌, ◌*◌, ◌<◌, ◌≤◌, ◌↔◌, true, false, length, IsTrue};
ghost use Rattle.timer_c.specs.Calls.{Does};
ghost use Rattle.timer_c.specs.Frames.{IsOpen, IsShut, IsRefused};
ghost use Rattle.timer_c.specs.Outcomes.{IsSeen, IsStopRefusal, IsNextCall, IsVisited, IsAloneAt, IsAllVisited};
ghost use Rattle.timer_c.specs.declared.status.TheConstants.{OK, NOT_OPEN, NEVER};
ghost use Rattle.timer_runs.specs.Runs.{Kept};
ghost use Rattle.timer_wheels.specs.TieredWheel.{moves_of_start};

use crate::const_timers::ConstTimers;
use crate::conversions::{from_c_handle, to_c_expired, to_c_handle};
use crate::layout::{CHandle, Counts, Expired};
use crate::status::{NEVER, NOT_OPEN, NOT_PENDING, OK};

/// Writes the timer with exactly this handle, pending or expired and not yet taken, and changes nothing.
#[unsafe(no_mangle)]
pub extern "C" fn timers_look(t: &mut ConstTimers, handle: CHandle, out: &mut Expired) -> u32
    ensures call { Does Kept t.old.held t.new.held }
    ensures seen { result ≡ OK → IsOpen t.old.held × IsSeen handle t.old.held.slot.state.wheel out.new }
    ensures refused { 0 < result → IsRefused t.old.held result (IsStopRefusal handle t.old.held.slot.state result) }
    ensures kept { 0 < result → out.new ≡ out.old }
    ensures same { t.new ≡ t.old }
{
    let Some(timers) = t.timers() else {
        return NOT_OPEN;
    };
    match timers.look(from_c_handle(handle)) {
        Some(timer) => {
            *out = to_c_expired(timer);
            OK
        }
        None => NOT_PENDING,
    }
}

/// Whether a timer expired and was not yet taken.
#[unsafe(no_mangle)]
pub extern "C" fn timers_has_due(t: &mut ConstTimers) -> bool
    ensures call { Does Kept t.old.held t.new.held }
    ensures due { IsOpen t.old.held → (IsTrue result ↔ (0 < length t.old.held.slot.state.wheel.due)) }
    ensures not_open { IsShut t.old.held → result ≡ false }
    ensures same { t.new ≡ t.old }
{
    match t.timers() {
        Some(timers) => timers.has_due(),
        None => false,
    }
}

/// The present tick, or 0 if `t` is not open.
#[unsafe(no_mangle)]
pub extern "C" fn timers_now(t: &mut ConstTimers) -> u64
    ensures call { Does Kept t.old.held t.new.held }
    ensures now { IsOpen t.old.held → result ≡ t.old.held.slot.state.wheel.now }
    ensures not_open { IsShut t.old.held → result ≡ 0 }
    ensures same { t.new ≡ t.old }
{
    match t.timers() {
        Some(timers) => timers.now(),
        None => 0,
    }
}

/// How many timers are pending, or 0 if `t` is not open. Expired timers that were not yet taken are
/// not counted.
#[unsafe(no_mangle)]
pub extern "C" fn timers_len(t: &mut ConstTimers) -> usize
    ensures call { Does Kept t.old.held t.new.held }
    ensures pending { IsOpen t.old.held → result ≡ length t.old.held.slot.state.wheel.pending }
    ensures not_open { IsShut t.old.held → result ≡ 0 }
    ensures same { t.new ≡ t.old }
{
    match t.timers() {
        Some(timers) => timers.len(),
        None => 0,
    }
}

/// The tick until which C may sleep: the present one if an expired timer waits, `NEVER` if
/// nothing is pending or `t` is not open, and otherwise one that is after it and at most the first deadline. With
/// `TIMERS_SMOOTH` it is the first at which a timer expires, or would move to a lower wheel in Scheme 7.
#[unsafe(no_mangle)]
pub extern "C" fn timers_wakeup(t: &mut ConstTimers) -> u64
    ensures call { Does Kept t.old.held t.new.held }
    ensures tick { IsOpen t.old.held → IsNextCall result t.old.held.slot.state.wheel }
    ensures not_open { IsShut t.old.held → result ≡ NEVER }
    ensures same { t.new ≡ t.old }
{
    let Some(timers) = t.timers() else {
        return NEVER;
    };
    if timers.has_due() {
        return timers.now();
    }
    timers.quiet_until().unwrap_or(NEVER)
}

/// Writes the first timer from the cursor's place on, pending or expired and not yet taken, with its handle,
/// and moves the cursor past it. Returns whether there was one.
#[unsafe(no_mangle)]
pub extern "C" fn timers_each(
    t: &mut ConstTimers,
    cursor: &mut usize,
    handle: &mut CHandle,
    out: &mut Expired,
) -> bool
    ensures call { Does Kept t.old.held t.new.held }
    ensures visited { result ≡ true
        → IsOpen t.old.held × IsVisited cursor.old t.old.held.slot.state.wheel cursor.new handle.new out.new }
    ensures alone { result ≡ true → IsAloneAt handle.new t.old.held.slot.state.wheel }
    ensures ended { result ≡ false → IsOpen t.old.held → IsAllVisited cursor.old t.old.held.slot.state.wheel }
    ensures kept { result ≡ false
        → (cursor.new ≡ cursor.old) × (handle.new ≡ handle.old) × (out.new ≡ out.old) }
    ensures same { t.new ≡ t.old }
{
    let Some(timers) = t.timers() else {
        return false;
    };
    let Some(found) = timers.wheel().held_from(*cursor) else {
        return false;
    };
    // Under this handle a timer is held, so there is one.
    let Some(timer) = timers.look(found) else {
        return false;
    };
    *cursor = found.place + 1;
    *handle = to_c_handle(found);
    *out = to_c_expired(timer);
    true
}

/// Writes what the wheels counted since `timers_new`, and changes nothing. What each call adds to the starts is in its
/// contract. How many timers move depends on where they stand.
#[unsafe(no_mangle)]
pub extern "C" fn timers_counts(t: &mut ConstTimers, counts: &mut Counts) -> u32
    ensures call { Does Kept t.old.held t.new.held }
    ensures counted { result ≡ OK → IsOpen t.old.held
        × (counts.new.starts ≡ t.old.held.slot.state.counts.starts) }
    ensures few_moves { result ≡ OK → counts.new.moves
        ≤ moves_of_start t.old.held.slot.state.wheel.layout * counts.new.starts }
    ensures refused { 0 < result → (result ≡ NOT_OPEN) × IsShut t.old.held }
    ensures kept { 0 < result → counts.new ≡ counts.old }
    ensures same { t.new ≡ t.old }
{
    let Some(timers) = t.timers() else {
        return NOT_OPEN;
    };
    let wheel = timers.wheel();
    *counts = Counts {
        starts: wheel.starts(),
        moves: wheel.moves(),
    };
    OK
}
