//! Starts, restarts and sets, each with bodies of its own for the ways that it may go.
//!
//! Most starts find a node ready, and most restarts leave their timer where it stands. Such a call has no other call in it but as
//! its end: so a compiler saves no registers for it, and its results are never in memory. A body stands in each way: what a
//! compiler knows of the wheel there leaves of it what that way needs.
ghost use Rattle.std.specs.Prelude.{◌≡◌, None};
ghost use Rattle.timer_base.specs.WheelState.{held_at};
ghost use Rattle.timer_c.specs.Calls.{HasMade};
ghost use Rattle.timer_c.specs.Outcomes.{IsStartRefusal, IsStartAtRefusal, IsRestartRefusal, IsRestartAtRefusal, IsSetRefusal, base_handle};
ghost use Rattle.timer_runs.specs.Runs.{Started, StartedAt, Restarted, RestartedAt, SetAt};
ghost use Rattle.timer_wheels.specs.RestartWays.{IsStay, IsLater};

use crate::conversions::{from_c_handle, restart_status, start_status, to_c_handle};
use crate::layout::CHandle;
use crate::status::OK;
use crate::wheel_maker::CWheel;
use timer_total::Timers;
use timer_wheels::RestartWay;

/// A start in any wheel, also if memory has to be found.
#[inline(always)]
pub(crate) fn start(
    timers: &mut Timers<CWheel>,
    interval: u64,
    action: u64,
    handle: &mut CHandle,
) -> u32
    ensures { HasMade (Started interval action (base_handle handle.new)) (IsStartRefusal interval)
        result handle.old handle.new timers.old timers.new }
{
    match timers.start(interval, action) {
        Ok(made) => {
            *handle = to_c_handle(made);
            OK
        }
        Err(fault) => start_status(fault),
    }
}

/// The same, out of line.
#[inline(never)]
pub(crate) fn start_apart(
    timers: &mut Timers<CWheel>,
    interval: u64,
    action: u64,
    handle: &mut CHandle,
) -> u32
    ensures { HasMade (Started interval action (base_handle handle.new)) (IsStartRefusal interval)
        result handle.old handle.new timers.old timers.new }
{
    start(timers, interval, action, handle)
}

/// A start for a tick in any wheel, also if memory has to be found.
#[inline(always)]
pub(crate) fn start_at(
    timers: &mut Timers<CWheel>,
    deadline: u64,
    action: u64,
    handle: &mut CHandle,
) -> u32
    ensures { HasMade (StartedAt deadline action (base_handle handle.new)) (IsStartAtRefusal deadline)
        result handle.old handle.new timers.old timers.new }
{
    match timers.start_at(deadline, action) {
        Ok(made) => {
            *handle = to_c_handle(made);
            OK
        }
        Err(fault) => start_status(fault),
    }
}

/// The same, out of line.
#[inline(never)]
pub(crate) fn start_at_apart(
    timers: &mut Timers<CWheel>,
    deadline: u64,
    action: u64,
    handle: &mut CHandle,
) -> u32
    ensures { HasMade (StartedAt deadline action (base_handle handle.new)) (IsStartAtRefusal deadline)
        result handle.old handle.new timers.old timers.new }
{
    start_at(timers, deadline, action, handle)
}

/// A restart in any wheel.
#[inline(always)]
pub(crate) fn restart(
    timers: &mut Timers<CWheel>,
    handle: CHandle,
    interval: u64,
    action: u64,
    restarted: &mut CHandle,
) -> u32
    ensures { HasMade (Restarted (base_handle handle) interval action (base_handle restarted.new)) (IsRestartRefusal handle interval)
        result restarted.old restarted.new timers.old timers.new }
{
    match timers.restart(from_c_handle(handle), interval, action) {
        Ok(made) => {
            *restarted = to_c_handle(made);
            OK
        }
        Err(fault) => restart_status(fault),
    }
}

/// A restart that moves its timer to another bucket, out of line.
#[inline(never)]
pub(crate) fn restart_moved(
    timers: &mut Timers<CWheel>,
    handle: CHandle,
    interval: u64,
    action: u64,
    restarted: &mut CHandle,
) -> u32
    ensures { HasMade (Restarted (base_handle handle) interval action (base_handle restarted.new)) (IsRestartRefusal handle interval)
        result restarted.old restarted.new timers.old timers.new }
{
    let deadline = timers.now().wrapping_add(interval);
    match timers.wheel().way(from_c_handle(handle), deadline) {
        RestartWay::Moves => restart(timers, handle, interval, action, restarted),
        _ => restart_apart(timers, handle, interval, action, restarted),
    }
}

/// Any other restart, and one that is refused, out of line.
#[inline(never)]
pub(crate) fn restart_apart(
    timers: &mut Timers<CWheel>,
    handle: CHandle,
    interval: u64,
    action: u64,
    restarted: &mut CHandle,
) -> u32
    ensures { HasMade (Restarted (base_handle handle) interval action (base_handle restarted.new)) (IsRestartRefusal handle interval)
        result restarted.old restarted.new timers.old timers.new }
{
    restart(timers, handle, interval, action, restarted)
}

/// A restart for a tick in any wheel.
#[inline(always)]
pub(crate) fn restart_at(
    timers: &mut Timers<CWheel>,
    handle: CHandle,
    deadline: u64,
    action: u64,
    restarted: &mut CHandle,
) -> u32
    ensures { HasMade (RestartedAt (base_handle handle) deadline action (base_handle restarted.new)) (IsRestartAtRefusal handle deadline)
        result restarted.old restarted.new timers.old timers.new }
{
    match timers.restart_at(from_c_handle(handle), deadline, action) {
        Ok(made) => {
            *restarted = to_c_handle(made);
            OK
        }
        Err(fault) => restart_status(fault),
    }
}

/// A restart for a tick that moves its timer to another bucket, out of line.
#[inline(never)]
pub(crate) fn restart_at_moved(
    timers: &mut Timers<CWheel>,
    handle: CHandle,
    deadline: u64,
    action: u64,
    restarted: &mut CHandle,
) -> u32
    ensures { HasMade (RestartedAt (base_handle handle) deadline action (base_handle restarted.new)) (IsRestartAtRefusal handle deadline)
        result restarted.old restarted.new timers.old timers.new }
{
    match timers.wheel().way(from_c_handle(handle), deadline) {
        RestartWay::Moves => restart_at(timers, handle, deadline, action, restarted),
        _ => restart_at_apart(timers, handle, deadline, action, restarted),
    }
}

/// Any other restart for a tick, and one that is refused, out of line.
#[inline(never)]
pub(crate) fn restart_at_apart(
    timers: &mut Timers<CWheel>,
    handle: CHandle,
    deadline: u64,
    action: u64,
    restarted: &mut CHandle,
) -> u32
    ensures { HasMade (RestartedAt (base_handle handle) deadline action (base_handle restarted.new)) (IsRestartAtRefusal handle deadline)
        result restarted.old restarted.new timers.old timers.new }
{
    restart_at(timers, handle, deadline, action, restarted)
}

/// A set in any wheel.
#[inline(always)]
pub(crate) fn set(
    timers: &mut Timers<CWheel>,
    handle: &mut CHandle,
    deadline: u64,
    action: u64,
) -> u32
    ensures { HasMade (SetAt (base_handle handle.old) deadline action (base_handle handle.new)) (IsSetRefusal handle.old deadline)
        result handle.old handle.new timers.old timers.new }
{
    let old = from_c_handle(*handle);
    match timers.set_at(old, deadline, action) {
        Ok(made) => {
            // A timer that was there keeps its place, which a compiler sees: then the serial alone is written.
            if made.place != old.place {
                handle.place = made.place;
            }
            handle.serial = made.serial;
            OK
        }
        Err(fault) => start_status(fault),
    }
}

/// A set that leaves its timer where it stands.
// Its deadline is later than now, as the old one is: so no body for one that has passed stands here.
#[inline(always)]
pub(crate) fn set_kept(
    timers: &mut Timers<CWheel>,
    handle: &mut CHandle,
    deadline: u64,
    action: u64,
) -> u32
    requires { IsStay (base_handle handle.old) deadline timers.old.wheel }
    ensures { HasMade (SetAt (base_handle handle.old) deadline action (base_handle handle.new)) (IsSetRefusal handle.old deadline)
        result handle.old handle.new timers.old timers.new }
{
    let old = from_c_handle(*handle);
    match timers.set_later(old, deadline, action) {
        Ok(made) => {
            // The place is the same, which a compiler sees: then the serial alone is written.
            if made.place != old.place {
                handle.place = made.place;
            }
            handle.serial = made.serial;
            OK
        }
        Err(fault) => start_status(fault),
    }
}

/// A set that moves its timer to another bucket.
// That it is there was seen when its way was, so nothing is looked for again.
#[inline(always)]
pub(crate) fn set_moved(
    timers: &mut Timers<CWheel>,
    handle: &mut CHandle,
    deadline: u64,
    action: u64,
) -> u32
    requires { IsLater (base_handle handle.old) deadline timers.old.wheel }
    ensures { HasMade (SetAt (base_handle handle.old) deadline action (base_handle handle.new)) (IsSetRefusal handle.old deadline)
        result handle.old handle.new timers.old timers.new }
{
    let old = from_c_handle(*handle);
    match timers.admit_later(deadline) {
        Ok(()) => {
            let made = timers.restart_later(old, deadline, action);
            // The place is the same, which a compiler sees: then the serial alone is written.
            if made.place != old.place {
                handle.place = made.place;
            }
            handle.serial = made.serial;
            OK
        }
        Err(fault) => start_status(fault),
    }
}

/// A set that starts its timer, out of line.
#[inline(never)]
pub(crate) fn set_started(
    timers: &mut Timers<CWheel>,
    handle: &mut CHandle,
    deadline: u64,
    action: u64,
) -> u32
    requires { held_at (base_handle handle.old) timers.old.wheel ≡ None }
    ensures { HasMade (SetAt (base_handle handle.old) deadline action (base_handle handle.new)) (IsSetRefusal handle.old deadline)
        result handle.old handle.new timers.old timers.new }
{
    if !timers.wheel().is_ready() {
        return set_apart(timers, handle, deadline, action);
    }
    set_new(timers, handle, deadline, action)
}

/// A set that starts its timer in any wheel.
#[inline(always)]
fn set_new(timers: &mut Timers<CWheel>, handle: &mut CHandle, deadline: u64, action: u64) -> u32
    requires { held_at (base_handle handle.old) timers.old.wheel ≡ None }
    ensures { HasMade (SetAt (base_handle handle.old) deadline action (base_handle handle.new)) (IsSetRefusal handle.old deadline)
        result handle.old handle.new timers.old timers.new }
{
    let started = timers.start_at(deadline, action);
    match started {
        Ok(made) => {
            *handle = to_c_handle(made);
            OK
        }
        Err(fault) => start_status(fault),
    }
}

/// Any other set, and one that is refused, out of line.
#[inline(never)]
pub(crate) fn set_apart(
    timers: &mut Timers<CWheel>,
    handle: &mut CHandle,
    deadline: u64,
    action: u64,
) -> u32
    ensures { HasMade (SetAt (base_handle handle.old) deadline action (base_handle handle.new)) (IsSetRefusal handle.old deadline)
        result handle.old handle.new timers.old timers.new }
{
    set(timers, handle, deadline, action)
}
