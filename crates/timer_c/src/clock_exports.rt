//! The functions that C calls to pass ticks, and to take the timers that expire then.
ghost use Rattle.std.specs.Prelude.{◌≡◌, ◌<◌, ◌++◌, false, Option, List, map, take, drop, length, min};
ghost use Rattle.timer_base.specs.declared.timer.Timer.{Timer};
ghost use Rattle.timer_base.specs.Pending.{timers_of};
ghost use Rattle.timer_c.specs.Calls.{Does, DoesIfOk, advance_to, handed};
ghost use Rattle.timer_c.specs.Frames.{IsOpen, IsShut, IsRefused, with_timers};
ghost use Rattle.timer_c.specs.Outcomes.{IsTickRefusal, IsAdvanceRefusal, told, tell, after_expiries};
ghost use Rattle.timer_c.specs.declared.status.TheConstants.{OK};
ghost use Rattle.timer_runs.specs.Runs as runs;
ghost use Rattle.timer_runs.specs.Runs.{Ticked, Advanced, Took, ExpiredBatch};
ghost use Rattle.timer_total.specs.TimersState.{with_wheel};
ghost use Rattle.timer_total.specs.Refusals.{left_until};

use crate::c_timers::CTimers;
use crate::conversions::to_c_expired;
use crate::layout::Expired;
use crate::status::{CLOCK_END, DUE, NOT_OPEN, OK};
use timer_total::AdvanceFault;

/// Advances the clock by one tick. The timers that expire wait for `timers_expire`.
#[unsafe(no_mangle)]
pub extern "C" fn timers_tick(t: &mut CTimers) -> u32
    ensures was_open { result ≡ OK → IsOpen t.old }
    ensures call { DoesIfOk result Ticked t.old t.new }
    ensures refused { 0 < result → IsRefused t.old result (IsTickRefusal t.old.slot.state result) }
    ensures kept { 0 < result → t.new ≡ t.old }
    ensures only { t.new ≡ with_timers t.old t.new.slot.state }
{
    let Some(timers) = t.timers() else {
        return NOT_OPEN;
    };
    match timers.tick() {
        Ok(()) => OK,
        Err(AdvanceFault::Due) => DUE,
        Err(AdvanceFault::ClockEnd) => CLOCK_END,
    }
}

/// Passes at most `most` ticks, stops at the first at which a timer expires or at the last tick, and writes how many
/// were passed: 0 only if `most` is 0. Then nothing changes, and no reason is looked for.
#[unsafe(no_mangle)]
pub extern "C" fn timers_advance(t: &mut CTimers, most: u64, passed: &mut u64) -> u32
    ensures was_open { result ≡ OK → IsOpen t.old }
    ensures call { DoesIfOk result (Advanced most passed.new) t.old t.new }
    ensures refused { 0 < result → IsRefused t.old result (IsAdvanceRefusal most t.old.slot.state result) }
    ensures kept { 0 < result → (t.new ≡ t.old) × (passed.new ≡ passed.old) }
    ensures only { t.new ≡ with_timers t.old t.new.slot.state }
{
    let Some(timers) = t.timers() else {
        return NOT_OPEN;
    };
    match timers.advance(most) {
        Ok(ticks) => {
            *passed = ticks;
            OK
        }
        Err(AdvanceFault::Due) => DUE,
        Err(AdvanceFault::ClockEnd) => CLOCK_END,
    }
}

/// Passes ticks up to this one, and stops at the first at which a timer expires. For a tick that is not after the
/// present one it does nothing.
#[unsafe(no_mangle)]
pub extern "C" fn timers_advance_to(t: &mut CTimers, tick: u64) -> u32
    ensures was_open { result ≡ OK → IsOpen t.old }
    ensures call { DoesIfOk result (advance_to tick t.old t.new) t.old t.new }
    ensures refused { 0 < result → IsRefused t.old result
        (IsAdvanceRefusal (left_until tick t.old.slot.state) t.old.slot.state result) }
    ensures kept { 0 < result → t.new ≡ t.old }
    ensures only { t.new ≡ with_timers t.old t.new.slot.state }
{
    let Some(timers) = t.timers() else {
        return NOT_OPEN;
    };
    match timers.advance_to(tick) {
        Ok(_) => OK,
        Err(AdvanceFault::Due) => DUE,
        Err(AdvanceFault::ClockEnd) => CLOCK_END,
    }
}

/// Takes the next timer that is due by this tick, and passes the ticks up to it. Returns whether there was one:
/// if not, the clock is at this tick, or at its last one, or was past it before.
#[unsafe(no_mangle)]
pub extern "C" fn timers_take(t: &mut CTimers, tick: u64, out: &mut Expired) -> bool
    ensures call { (timer : Option Timer) × (told timer ≡ handed result out.new) × Does (Took tick timer) t.old t.new }
    ensures not_open { IsShut t.old → (result ≡ false) × (t.new ≡ t.old) }
    ensures kept { result ≡ false → out.new ≡ out.old }
    ensures only { t.new ≡ with_timers t.old t.new.slot.state }
{
    let Some(timers) = t.timers() else {
        return false;
    };
    match timers.take(tick) {
        Some(timer) => {
            *out = to_c_expired(timer);
            true
        }
        None => false,
    }
}

/// Takes the first of the expired timers. Returns whether there was one.
#[unsafe(no_mangle)]
pub extern "C" fn timers_expire(t: &mut CTimers, out: &mut Expired) -> bool
    ensures call { (timer : Option Timer) × (told timer ≡ handed result out.new) × Does (runs.Expired timer) t.old t.new }
    ensures none { result ≡ false → (t.new ≡ t.old) × (out.new ≡ out.old) }
    ensures only { t.new ≡ with_timers t.old t.new.slot.state }
{
    let Some(timers) = t.timers() else {
        return false;
    };
    match timers.expire() {
        Some(timer) => {
            *out = to_c_expired(timer);
            true
        }
        None => false,
    }
}

/// Takes the first of the expired timers, as many as fit into `out`. Returns how many.
#[unsafe(no_mangle)]
pub extern "C" fn timers_expire_batch(t: &mut CTimers, out: &mut [Expired]) -> usize
    ensures call { (timers : List Timer) × (map tell timers ≡ take result out.new)
        × Does (ExpiredBatch timers) t.old t.new }
    ensures count { IsOpen t.old → result ≡ min (length out.old) (length t.old.slot.state.wheel.due) }
    ensures told { IsOpen t.old → out.new ≡ map tell (take result (timers_of t.old.slot.state.wheel.due))
        ++ drop result out.old }
    ensures rest { IsOpen t.old → t.new.slot.state
        ≡ with_wheel (after_expiries result t.old.slot.state.wheel) t.old.slot.state }
    ensures not_open { IsShut t.old → (result ≡ 0) × (t.new ≡ t.old) × (out.new ≡ out.old) }
    ensures only { t.new ≡ with_timers t.old t.new.slot.state }
{
    let Some(timers) = t.timers() else {
        return 0;
    };
    let room = out.len();
    for count in 0..room {
        match timers.expire() {
            Some(timer) => out[count] = to_c_expired(timer),
            None => return count,
        }
    }
    room
}
