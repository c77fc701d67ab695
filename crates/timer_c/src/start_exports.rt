//! The functions that C calls to start, restart or set a timer. Each looks which way it will go, and goes it.
ghost use Rattle.std.specs.Prelude.{◌≡◌, ◌<◌};
ghost use Rattle.timer_c.specs.Calls.{DoesIfOk};
ghost use Rattle.timer_c.specs.Frames.{IsOpen, IsRefused, with_timers};
ghost use Rattle.timer_c.specs.Outcomes.{IsStartRefusal, IsStartAtRefusal, IsRestartRefusal, IsRestartAtRefusal, IsSetRefusal, base_handle};
ghost use Rattle.timer_c.specs.declared.status.TheConstants.{OK};
ghost use Rattle.timer_runs.specs.Runs.{Started, StartedAt, Restarted, RestartedAt, SetAt};

use crate::c_timers::CTimers;
use crate::conversions::from_c_handle;
use crate::layout::CHandle;
use crate::status::{NOT_OPEN, OK};
use crate::ways;
use timer_wheels::RestartWay;

/// Starts a timer that expires after `interval` ticks, and writes its handle.
#[unsafe(no_mangle)]
pub extern "C" fn timers_start(
    t: &mut CTimers,
    interval: u64,
    action: u64,
    handle: &mut CHandle,
) -> u32
    ensures was_open { result ≡ OK → IsOpen t.old }
    ensures call { DoesIfOk result (Started interval action (base_handle handle.new)) t.old t.new }
    ensures refused { 0 < result → IsRefused t.old result (IsStartRefusal interval t.old.slot.state result) }
    ensures kept { 0 < result → (t.new ≡ t.old) × (handle.new ≡ handle.old) }
    ensures only { t.new ≡ with_timers t.old t.new.slot.state }
{
    let Some(timers) = t.timers() else {
        return NOT_OPEN;
    };
    if !timers.wheel().is_ready() {
        return ways::start_apart(timers, interval, action, handle);
    }
    ways::start(timers, interval, action, handle)
}

/// Starts a timer that expires at the tick `deadline`, and writes its handle. If that is not after the
/// present tick, the timer has expired: it is the last of those that wait to be taken, and its deadline is
/// the present tick.
#[unsafe(no_mangle)]
pub extern "C" fn timers_start_at(
    t: &mut CTimers,
    deadline: u64,
    action: u64,
    handle: &mut CHandle,
) -> u32
    ensures was_open { result ≡ OK → IsOpen t.old }
    ensures call { DoesIfOk result (StartedAt deadline action (base_handle handle.new)) t.old t.new }
    ensures refused { 0 < result → IsRefused t.old result (IsStartAtRefusal deadline t.old.slot.state result) }
    ensures kept { 0 < result → (t.new ≡ t.old) × (handle.new ≡ handle.old) }
    ensures only { t.new ≡ with_timers t.old t.new.slot.state }
{
    let Some(timers) = t.timers() else {
        return NOT_OPEN;
    };
    if !timers.wheel().is_ready() {
        return ways::start_at_apart(timers, deadline, action, handle);
    }
    ways::start_at(timers, deadline, action, handle)
}

/// Stops the timer with exactly this handle, pending or expired and not yet taken, and starts another in its
/// place, and writes its handle.
#[unsafe(no_mangle)]
pub extern "C" fn timers_restart(
    t: &mut CTimers,
    handle: CHandle,
    interval: u64,
    action: u64,
    restarted: &mut CHandle,
) -> u32
    ensures was_open { result ≡ OK → IsOpen t.old }
    ensures call { DoesIfOk result (Restarted (base_handle handle) interval action (base_handle restarted.new))
        t.old t.new }
    ensures refused { 0 < result → IsRefused t.old result (IsRestartRefusal handle interval t.old.slot.state result) }
    ensures kept { 0 < result → (t.new ≡ t.old) × (restarted.new ≡ restarted.old) }
    ensures only { t.new ≡ with_timers t.old t.new.slot.state }
{
    let Some(timers) = t.timers() else {
        return NOT_OPEN;
    };
    let deadline = timers.now().wrapping_add(interval);
    match timers.wheel().way(from_c_handle(handle), deadline) {
        RestartWay::Stays => ways::restart(timers, handle, interval, action, restarted),
        RestartWay::Moves => ways::restart_moved(timers, handle, interval, action, restarted),
        _ => ways::restart_apart(timers, handle, interval, action, restarted),
    }
}

/// Stops the timer with exactly this handle as `timers_restart`, and starts one as `timers_start_at`.
#[unsafe(no_mangle)]
pub extern "C" fn timers_restart_at(
    t: &mut CTimers,
    handle: CHandle,
    deadline: u64,
    action: u64,
    restarted: &mut CHandle,
) -> u32
    ensures was_open { result ≡ OK → IsOpen t.old }
    ensures call { DoesIfOk result (RestartedAt (base_handle handle) deadline action (base_handle restarted.new))
        t.old t.new }
    ensures refused { 0 < result → IsRefused t.old result (IsRestartAtRefusal handle deadline t.old.slot.state result) }
    ensures kept { 0 < result → (t.new ≡ t.old) × (restarted.new ≡ restarted.old) }
    ensures only { t.new ≡ with_timers t.old t.new.slot.state }
{
    let Some(timers) = t.timers() else {
        return NOT_OPEN;
    };
    match timers.wheel().way(from_c_handle(handle), deadline) {
        RestartWay::Stays => ways::restart_at(timers, handle, deadline, action, restarted),
        RestartWay::Moves => ways::restart_at_moved(timers, handle, deadline, action, restarted),
        _ => ways::restart_at_apart(timers, handle, deadline, action, restarted),
    }
}

/// Starts a timer as `timers_start_at`, in place of the one with exactly this handle, if there is one, and writes
/// its handle over the old one.
#[unsafe(no_mangle)]
pub extern "C" fn timers_set_at(
    t: &mut CTimers,
    handle: &mut CHandle,
    deadline: u64,
    action: u64,
) -> u32
    ensures was_open { result ≡ OK → IsOpen t.old }
    ensures call { DoesIfOk result (SetAt (base_handle handle.old) deadline action (base_handle handle.new)) t.old t.new }
    ensures refused { 0 < result → IsRefused t.old result (IsSetRefusal handle.old deadline t.old.slot.state result) }
    ensures kept { 0 < result → (t.new ≡ t.old) × (handle.new ≡ handle.old) }
    ensures only { t.new ≡ with_timers t.old t.new.slot.state }
{
    let Some(timers) = t.timers() else {
        return NOT_OPEN;
    };
    match timers.wheel().way(from_c_handle(*handle), deadline) {
        RestartWay::Stays => ways::set_kept(timers, handle, deadline, action),
        RestartWay::Moves => ways::set_moved(timers, handle, deadline, action),
        RestartWay::Starts => ways::set_started(timers, handle, deadline, action),
        RestartWay::Other => ways::set_apart(timers, handle, deadline, action),
    }
}
