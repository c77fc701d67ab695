//! Calls of a smooth wheel, out of line. What they return fits into registers: else the calls of a lazy wheel would have their
//! results in memory, too.
ghost use Rattle.std.specs.Prelude.{◌≡◌, ◌+◌, ◌<◌, ◌≤◌, ℕ, [], None, Some, IfOk, IfSome, IsSome, IfNone, MatchOption, MatchResult};
ghost use Rattle.timer_base.specs.WakeUps.{IsQuietUntil};
ghost use Rattle.timer_base.specs.WheelState.{held_at, held_count, after_held_start, after_removal, after_tick};
ghost use Rattle.timer_base.specs.declared.limits.TheConstants.{LAST};
ghost use Rattle.timer_wheels.specs.Buckets.{RemovesRow};
ghost use Rattle.timer_wheels.specs.Tables.{radices_of};
ghost use Rattle.timer_wheels.specs.TieredWheel.{option_of, KeepsPace};
ghost use Rattle.timer_wheels.specs.WakeUps.{next_visit};
ghost use Rattle.timer_wheels.specs.smooth.Paces.{tick_bound};
ghost use Rattle.timer_wheels.specs.smooth.SmoothWheel.{smooth_state, starts_of, moves_of, next_moves, moves_ahead, lists_in, wheels_left, wheel_in, IsPacedFor};

use crate::smooth::SmoothWheel;
use crate::tiered::NEVER;
use timer_base::{Handle, OutOfMemory, Timer, Wheel};
use timer_links::Kept;

/// The same timer. A call that has it in memory takes this copy, so that the timer itself needs no memory.
#[inline(always)]
pub fn copy_of(timer: Timer) -> Timer
    ensures { result ≡ timer }
{
    Timer {
        serial: timer.serial,
        client: timer.client,
        number: timer.number,
        deadline: timer.deadline,
        action: timer.action,
    }
}

/// The handle of a timer that was started at this place, if it was.
#[inline(always)]
pub fn handle_at(place: Option<usize>, serial: u64) -> Result<Handle, OutOfMemory>
    ensures named { IfOk result (λ handle. handle.serial ≡ serial) }
    ensures placed { MatchResult result (λ handle. place ≡ Some handle.place) (λ _. place ≡ None) }
{
    match place {
        Some(place) => Ok(Handle { place, serial }),
        None => Err(OutOfMemory),
    }
}

/// Starts a timer, and returns its place.
#[inline(never)]
pub fn start_smooth<N: Kept>(
    wheel: &mut SmoothWheel<N>,
    serial: u64,
    client: u64,
    number: u64,
    deadline: u64,
    action: u64,
) -> Option<usize>
    requires not_past { (smooth_state wheel.old).now ≤ deadline }
    requires deadline { deadline ≤ (smooth_state wheel.old).last_tick }
    requires fresh { (smooth_state wheel.old).last_serial < serial }
    requires serial { serial ≤ LAST }
    requires keeps { N.keeps (record {
      timer = record { serial = serial; client = client; number = number; deadline = deadline; action = action };
      rounds = 0;
    }) }
    ensures started { IfSome result (λ place. smooth_state wheel.new
        ≡ after_held_start place (record { serial = serial; client = client; number = number; deadline = deadline; action = action }) (smooth_state wheel.old)) }
    ensures full { IfNone result ((smooth_state wheel.old).room ≤ held_count (smooth_state wheel.old)) }
    ensures err { IfNone result (smooth_state wheel.new ≡ smooth_state wheel.old) }
    ensures starts { MatchOption result (starts_of wheel.new ≡ starts_of wheel.old)
        (λ _. starts_of wheel.new ≡ starts_of wheel.old + 1) }
    ensures counted { IfSome result (λ _. moves_of wheel.new + wheels_left wheel.new ≡ moves_of wheel.old
        + wheels_left wheel.old + wheel_in wheel.old (record { serial = serial; client = client; number = number; deadline = deadline; action = action })) }
    ensures two { moves_of wheel.new ≤ moves_of wheel.old + 2 }
    ensures none { IfNone result (moves_of wheel.new ≡ moves_of wheel.old) }
    ensures stay { IfNone result (lists_in wheel.new ≡ lists_in wheel.old) }
    ensures paced { KeepsPace wheel.old wheel.new }
{
    let timer = Timer {
        serial,
        client,
        number,
        deadline,
        action,
    };
    match wheel.start(timer) {
        Ok(handle) => Some(handle.place),
        Err(_) => None,
    }
}

/// Removes the timer with this handle, if there is one.
#[inline(never)]
pub fn stop_smooth<N: Kept>(wheel: &mut SmoothWheel<N>, handle: Handle)
    ensures stopped { smooth_state wheel.new ≡ after_removal handle (smooth_state wheel.old) }
    ensures starts { starts_of wheel.new ≡ starts_of wheel.old }
    ensures moves { moves_of wheel.new ≡ moves_of wheel.old }
    ensures stay { RemovesRow (held_at handle (smooth_state wheel.old)) handle.place (lists_in wheel.old) (lists_in wheel.new) }
    ensures paced { KeepsPace wheel.old wheel.new }
{
    let _removed = wheel.stop(handle);
}

/// Removes the timer with this handle, starts another, and returns its place.
#[inline(never)]
pub fn restart_smooth<N: Kept>(
    wheel: &mut SmoothWheel<N>,
    handle: Handle,
    timer: Timer,
) -> Option<usize>
    requires not_past { (smooth_state wheel.old).now ≤ timer.deadline }
    requires deadline { timer.deadline ≤ (smooth_state wheel.old).last_tick }
    requires fresh { (smooth_state wheel.old).last_serial < timer.serial }
    requires serial { timer.serial ≤ LAST }
    requires keeps { N.keeps (record { timer = timer; rounds = 0 }) }
    ensures none { IfNone result (held_at handle (smooth_state wheel.old) ≡ None) }
    ensures place { IfSome result (λ place. place ≡ handle.place) }
    ensures same { IfNone result (smooth_state wheel.new ≡ smooth_state wheel.old) }
    ensures restarted { IfSome result (λ place. smooth_state wheel.new
        ≡ after_held_start place timer (after_removal handle (smooth_state wheel.old))) }
    ensures starts { MatchOption result (starts_of wheel.new ≡ starts_of wheel.old)
        (λ _. starts_of wheel.new ≡ starts_of wheel.old + 1) }
    ensures counted { IfSome (held_at handle (smooth_state wheel.old)) (λ stopped. moves_of wheel.new
        + wheels_left wheel.new + wheel_in wheel.old stopped ≡ moves_of wheel.old + wheels_left wheel.old + wheel_in wheel.old timer) }
    ensures two { moves_of wheel.new ≤ moves_of wheel.old + 2 }
    ensures no_move { IfNone result (moves_of wheel.new ≡ moves_of wheel.old) }
    ensures stay { IfNone result (lists_in wheel.new ≡ lists_in wheel.old) }
    ensures paced { KeepsPace wheel.old wheel.new }
{
    match wheel.restart(handle, timer) {
        Some((made, _old)) => Some(made.place),
        None => None,
    }
}

/// The same for a timer that is there.
pub fn restart_held<N: Kept>(wheel: &mut SmoothWheel<N>, handle: Handle, timer: Timer) -> Handle
    requires held { IsSome (held_at handle (smooth_state wheel.old)) }
    requires not_past { (smooth_state wheel.old).now ≤ timer.deadline }
    requires deadline { timer.deadline ≤ (smooth_state wheel.old).last_tick }
    requires fresh { (smooth_state wheel.old).last_serial < timer.serial }
    requires serial { timer.serial ≤ LAST }
    requires keeps { N.keeps (record { timer = timer; rounds = 0 }) }
    ensures named { result.serial ≡ timer.serial }
    ensures restarted { smooth_state wheel.new
        ≡ after_held_start result.place timer (after_removal handle (smooth_state wheel.old)) }
    ensures starts { starts_of wheel.new ≡ starts_of wheel.old + 1 }
{
    let Some(place) = restart_smooth(wheel, handle, timer) else {
        unreachable!()
    };
    Handle {
        place,
        serial: timer.serial,
    }
}

/// Advances by one tick.
#[inline(never)]
pub fn tick_smooth<N: Kept>(wheel: &mut SmoothWheel<N>)
    requires nothing_due { (smooth_state wheel.old).due ≡ [] }
    requires before_last { (smooth_state wheel.old).now < (smooth_state wheel.old).last_tick }
    ensures ticked { smooth_state wheel.new ≡ after_tick (smooth_state wheel.old) }
    ensures starts { starts_of wheel.new ≡ starts_of wheel.old }
    ensures at_most { moves_of wheel.new ≤ moves_of wheel.old + next_moves wheel.old }
    ensures ahead { moves_of wheel.new ≤ moves_of wheel.old + moves_ahead wheel.old }
    ensures bound { (n : ℕ) → IsPacedFor n wheel.old → moves_of wheel.new ≤ moves_of wheel.old
        + tick_bound n }
    ensures counted { moves_of wheel.new + wheels_left wheel.new ≡ moves_of wheel.old + wheels_left wheel.old }
    ensures paced { (n : ℕ) → held_count (smooth_state wheel.new) ≤ n → IsPacedFor n wheel.old → IsPacedFor n wheel.new }
{
    wheel.per_tick();
}

/// The next tick to wake up at, or `NEVER`.
#[inline(never)]
pub fn quiet_smooth<N: Kept>(wheel: &SmoothWheel<N>) -> u64
    ensures quiet { IsQuietUntil (option_of result) (smooth_state wheel.now).now (smooth_state wheel.now).pending }
    ensures exact { option_of result ≡ next_visit (radices_of (smooth_state wheel.now).layout)
        (smooth_state wheel.now).now (smooth_state wheel.now).pending }
{
    match wheel.quiet_until() {
        Some(tick) => tick,
        None => NEVER,
    }
}

/// The tick, unless it is `NEVER`.
#[inline(always)]
pub fn tick_of(tick: u64) -> Option<u64>
    ensures { result ≡ option_of tick }
{
    if tick == NEVER { None } else { Some(tick) }
}
