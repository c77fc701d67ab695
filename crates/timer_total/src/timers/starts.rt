//! Starts and restarts, and the two as one call.
ghost use Rattle.std.specs.Prelude.{◌≡◌, ◌+◌, ◌<◌, ◌≤◌, ◌⊎◌, ℕ, IfOk, IfErr, OnErr, None, true, false};
ghost use Rattle.timer_base.specs.declared.limits.TheConstants.{LAST};
ghost use Rattle.timer_base.specs.WheelState.{held_at, after_start, after_held_start, after_removal};
ghost use Rattle.timer_total.specs.Refusals.{interval_until, after_start_at, next_timer, timer_due, IsAt, IsStartable, IsRoomUsed, WhyNotStarted, WhyNotRestarted};
ghost use Rattle.timer_base.specs.declared.timer.Handle.{Handle};
ghost use Rattle.timer_total.specs.TimersState.{TimersState, with_start};

use crate::fault::{RestartFault, StartFault};
use crate::timers::Timers;
use timer_base::{Handle, LAST, OutOfMemory, Timer, Wheel};

impl<W: Wheel + Drop> Timers<W> {
    /// Starts a timer that expires after `interval` ticks, under the next serial.
    #[inline(always)]
    pub fn start(&mut self, interval: u64, action: u64) -> Result<Handle, StartFault>
        ensures started { IfOk result (λ handle. self.new ≡ with_start W.count_start
            (after_start handle.place (next_timer interval action self.old) self.old.wheel) self.old) }
        ensures named { IfOk result (λ handle. handle.serial ≡ self.old.last_serial + 1) }
        ensures in_order { IfOk result (λ _. IsStartable interval self.old) }
        ensures fault { IfErr result (λ fault. WhyNotStarted interval self.old fault
            ⊎ ((fault ≡ StartFault.OutOfMemory) × IsStartable interval self.old × IsRoomUsed self.old)) }
        ensures err { OnErr result (self.new ≡ self.old) }
    {
        let deadline = self.admit(interval)?;
        self.launch(deadline, action)
    }

    /// The deadline of a timer with this interval, if its start is accepted once memory is available.
    // An interval of 0 is told by its deadline: so the wheel need not ask again whether that is later than now.
    #[inline(always)]
    fn admit(&self, interval: u64) -> Result<u64, StartFault>
        ensures deadline { IfOk result (λ deadline. deadline ≡ self.now.wheel.now + interval) }
        ensures in_order { IfOk result (λ _. IsStartable interval self.now) }
        ensures fault { IfErr result (WhyNotStarted interval self.now) }
    {
        let now = self.wheel.now();
        if interval > self.wheel.last_tick() - now {
            return Err(StartFault::TooLate);
        }
        let deadline = now + interval;
        if deadline <= now {
            return Err(StartFault::ZeroInterval);
        }
        if self.last_serial >= LAST {
            return Err(StartFault::SerialsSpent);
        }
        Ok(deadline)
    }

    /// Starts a timer for this tick, which is now or later, under the next serial.
    // Always inlined: else its result goes through memory.
    #[inline(always)]
    fn launch(&mut self, deadline: u64, action: u64) -> Result<Handle, StartFault>
        requires not_past { self.old.wheel.now ≤ deadline }
        requires deadline { deadline ≤ self.old.wheel.last_tick }
        requires serial { self.old.last_serial < LAST }
        ensures started { IfOk result (λ handle. self.new ≡ with_start W.count_start
            (after_held_start handle.place (timer_due deadline action self.old) self.old.wheel) self.old) }
        ensures named { IfOk result (λ handle. handle.serial ≡ self.old.last_serial + 1) }
        ensures fault { IfErr result (λ fault. (fault ≡ StartFault.OutOfMemory) × IsRoomUsed self.old) }
        ensures err { OnErr result (self.new ≡ self.old) }
    {
        let timer = self.next(deadline, action);
        match self.wheel.start(timer) {
            Ok(handle) => {
                self.last_serial = timer.serial;
                Ok(handle)
            }
            Err(_) => Err(StartFault::OutOfMemory),
        }
    }

    /// The next timer, for this tick.
    fn next(&self, deadline: u64, action: u64) -> Timer
        requires { self.now.last_serial < LAST }
        ensures { result ≡ timer_due deadline action self.now }
    {
        Timer {
            serial: self.last_serial + 1,
            client: 0,
            number: 0,
            deadline,
            action,
        }
    }

    /// Starts a timer that expires at the tick `deadline`, under the next serial. If that is not after the
    /// present tick, the timer expires at once: it goes to the back of those that wait to be taken, with the
    /// present tick as its deadline.
    ///
    /// A passed deadline is accepted exactly if the next tick is. So the error is never `ZeroInterval`, and
    /// at the last tick it is `TooLate` for each deadline. Otherwise the errors are those of `start`.
    #[inline(always)]
    pub fn start_at(&mut self, deadline: u64, action: u64) -> Result<Handle, StartFault>
        ensures started { IfOk result (λ handle. self.new ≡ with_start W.count_start
            (after_start_at handle.place deadline action self.old.wheel self.old) self.old) }
        ensures named { IfOk result (λ handle. handle.serial ≡ self.old.last_serial + 1) }
        ensures in_order { IfOk result (λ _. IsStartable (interval_until deadline self.old) self.old) }
        ensures fault { IfErr result (λ fault. WhyNotStarted (interval_until deadline self.old) self.old fault
            ⊎ ((fault ≡ StartFault.OutOfMemory) × IsStartable (interval_until deadline self.old) self.old
            × IsRoomUsed self.old)) }
        ensures err { OnErr result (self.new ≡ self.old) }
    {
        // One test of the deadline, and in each branch one more: none has to be found first that is not passed.
        let now = self.wheel.now();
        if deadline > now {
            self.admit_at(deadline > self.wheel.last_tick())?;
            self.launch(deadline, action)
        } else {
            self.admit_at(now >= self.wheel.last_tick())?;
            self.launch(now, action)
        }
    }

    /// Whether a start is accepted if memory is available, once it is known whether its deadline is too late.
    #[inline(always)]
    fn admit_at(&self, is_too_late: bool) -> Result<(), StartFault>
        ensures in_order { IfOk result (λ _. (is_too_late ≡ false) × (self.now.last_serial < LAST)) }
        ensures fault { IfErr result (λ fault. ((fault ≡ StartFault.TooLate) × (is_too_late ≡ true))
            ⊎ ((fault ≡ StartFault.SerialsSpent) × (is_too_late ≡ false) × (LAST ≤ self.now.last_serial))) }
    {
        if is_too_late {
            return Err(StartFault::TooLate);
        }
        if self.last_serial >= LAST {
            return Err(StartFault::SerialsSpent);
        }
        Ok(())
    }

    /// Removes the timer with exactly this handle, pending or expired and not yet taken, and starts another
    /// in its place, under the next serial. Does not allocate.
    #[inline(always)]
    pub fn restart(
        &mut self,
        handle: Handle,
        interval: u64,
        action: u64,
    ) -> Result<Handle, RestartFault>
        ensures restarted { IfOk result (λ made. self.new ≡ with_start W.count_start
            (after_start made.place (next_timer interval action self.old) (after_removal handle self.old.wheel))
            self.old) }
        ensures named { IfOk result (λ made. made.serial ≡ self.old.last_serial + 1) }
        ensures in_order { IfOk result (λ _. IsAt handle self.old × IsStartable interval self.old) }
        ensures fault { IfErr result (WhyNotRestarted handle interval self.old) }
        ensures err { OnErr result (self.new ≡ self.old) }
    {
        let deadline = self.check_restart(handle, interval)?;
        self.replace(handle, deadline, action)
    }

    /// Removes the timer with exactly this handle, as `restart`, and starts one that expires at the tick
    /// `deadline`, or at once, as `start_at`. The error is `NotPending` if there is no such timer, and
    /// otherwise that of `start_at`, except that it is never out of memory. Does not allocate.
    #[inline(always)]
    pub fn restart_at(
        &mut self,
        handle: Handle,
        deadline: u64,
        action: u64,
    ) -> Result<Handle, RestartFault>
        ensures restarted { IfOk result (λ made. self.new ≡ with_start W.count_start
            (after_start_at made.place deadline action (after_removal handle self.old.wheel) self.old) self.old) }
        ensures named { IfOk result (λ made. made.serial ≡ self.old.last_serial + 1) }
        ensures in_order { IfOk result (λ _. IsAt handle self.old
            × IsStartable (interval_until deadline self.old) self.old) }
        ensures fault { IfErr result (WhyNotRestarted handle (interval_until deadline self.old) self.old) }
        ensures err { OnErr result (self.new ≡ self.old) }
    {
        if self.look(handle).is_none() {
            return Err(RestartFault::NotPending);
        }
        let now = self.wheel.now();
        if deadline > now {
            match self.admit_at(deadline > self.wheel.last_tick()) {
                Ok(()) => self.replace(handle, deadline, action),
                Err(fault) => Err(restart_fault(fault)),
            }
        } else {
            match self.admit_at(now >= self.wheel.last_tick()) {
                Ok(()) => self.replace(handle, now, action),
                Err(fault) => Err(restart_fault(fault)),
            }
        }
    }

    /// Starts a timer that expires at the tick `deadline`, as `start_at`, in place of the timer with exactly this
    /// handle, if there is one: it is restarted then, as by `restart_at`, and nothing is allocated.
    ///
    /// The errors are those of `start_at`. It is out of memory only if no timer has the handle.
    #[inline(always)]
    pub fn set_at(
        &mut self,
        handle: Handle,
        deadline: u64,
        action: u64,
    ) -> Result<Handle, StartFault>
        ensures set { IfOk result (λ made. self.new ≡ with_start W.count_start
            (after_start_at made.place deadline action (after_removal handle self.old.wheel) self.old) self.old) }
        ensures named { IfOk result (λ made. made.serial ≡ self.old.last_serial + 1) }
        ensures in_order { IfOk result (λ _. IsStartable (interval_until deadline self.old) self.old) }
        ensures fault { IfErr result (λ fault. WhyNotStarted (interval_until deadline self.old) self.old fault
            ⊎ ((fault ≡ StartFault.OutOfMemory) × (held_at handle self.old.wheel ≡ None)
            × IsStartable (interval_until deadline self.old) self.old × IsRoomUsed self.old)) }
        ensures err { OnErr result (self.new ≡ self.old) }
    {
        match self.restart_at(handle, deadline, action) {
            Ok(made) => Ok(made),
            Err(RestartFault::NotPending) => self.start_at(deadline, action),
            Err(RestartFault::ZeroInterval) => Err(StartFault::ZeroInterval),
            Err(RestartFault::TooLate) => Err(StartFault::TooLate),
            Err(RestartFault::SerialsSpent) => Err(StartFault::SerialsSpent),
        }
    }

    /// The same for a timer that is there, and a deadline that has not passed.
    #[inline(always)]
    pub fn set_later(
        &mut self,
        handle: Handle,
        deadline: u64,
        action: u64,
    ) -> Result<Handle, StartFault>
        requires at { IsAt handle self.old }
        requires later { self.old.wheel.now < deadline }
        ensures set { IfOk result (λ made. self.new ≡ with_start W.count_start
            (after_start_at made.place deadline action (after_removal handle self.old.wheel) self.old) self.old) }
        ensures named { IfOk result (λ made. made.serial ≡ self.old.last_serial + 1) }
        ensures in_order { IfOk result (λ _. IsStartable (interval_until deadline self.old) self.old) }
        ensures fault { IfErr result (WhyNotStarted (interval_until deadline self.old) self.old) }
        ensures err { OnErr result (self.new ≡ self.old) }
    {
        self.admit_at(deadline > self.wheel.last_tick())?;
        match self.replace(handle, deadline, action) {
            Ok(made) => Ok(made),
            Err(_) => unreachable!(),
        }
    }

    /// Whether a start for this tick, which is after now, is accepted if memory is available.
    #[inline(always)]
    pub fn admit_later(&self, deadline: u64) -> Result<(), StartFault>
        requires { self.now.wheel.now < deadline }
        ensures in_order { IfOk result (λ _. IsStartable (interval_until deadline self.now) self.now) }
        ensures in_time { IfOk result (λ _. (deadline ≤ self.now.wheel.last_tick) × (self.now.last_serial < LAST)) }
        ensures fault { IfErr result (WhyNotStarted (interval_until deadline self.now) self.now) }
    {
        self.admit_at(deadline > self.wheel.last_tick())
    }

    /// Restarts a timer that is there, for an accepted tick after now: no test is made. Does not allocate.
    #[inline(always)]
    pub fn restart_later(&mut self, handle: Handle, deadline: u64, action: u64) -> Handle
        requires at { IsAt handle self.old }
        requires after_now { self.old.wheel.now < deadline }
        requires deadline { deadline ≤ self.old.wheel.last_tick }
        requires serial { self.old.last_serial < LAST }
        ensures restarted { self.new ≡ with_start W.count_start
            (after_start_at result.place deadline action (after_removal handle self.old.wheel) self.old) self.old }
        ensures named { result.serial ≡ self.old.last_serial + 1 }
    {
        let timer = self.next(deadline, action);
        let made = self.wheel.restart_later(handle, timer);
        self.last_serial = timer.serial;
        made
    }

    /// Removes the timer with this handle, and starts another in its place for this tick, which is now or later,
    /// under the next serial.
    #[inline(always)]
    fn replace(
        &mut self,
        handle: Handle,
        deadline: u64,
        action: u64,
    ) -> Result<Handle, RestartFault>
        requires not_past { self.old.wheel.now ≤ deadline }
        requires deadline { deadline ≤ self.old.wheel.last_tick }
        requires serial { self.old.last_serial < LAST }
        ensures replaced { IfOk result (λ made. self.new ≡ with_start W.count_start
            (after_held_start made.place (timer_due deadline action self.old)
            (after_removal handle self.old.wheel)) self.old) }
        ensures named { IfOk result (λ made. made.serial ≡ self.old.last_serial + 1) }
        ensures fault { IfErr result (λ fault. (fault ≡ RestartFault.NotPending)
            × (held_at handle self.old.wheel ≡ None)) }
        ensures err { OnErr result (self.new ≡ self.old) }
    {
        let timer = self.next(deadline, action);
        match self.wheel.restart(handle, timer) {
            Some((made, _)) => {
                self.last_serial = timer.serial;
                Ok(made)
            }
            None => Err(RestartFault::NotPending),
        }
    }

    /// The deadline of a timer with this interval, if a restart of the one with this handle is accepted.
    #[inline(always)]
    fn check_restart(&self, handle: Handle, interval: u64) -> Result<u64, RestartFault>
        ensures deadline { IfOk result (λ deadline. deadline ≡ self.now.wheel.now + interval) }
        ensures in_order { IfOk result (λ _. IsAt handle self.now × IsStartable interval self.now) }
        ensures fault { IfErr result (WhyNotRestarted handle interval self.now) }
    {
        if self.look(handle).is_none() {
            return Err(RestartFault::NotPending);
        }
        let now = self.wheel.now();
        if interval > self.wheel.last_tick() - now {
            return Err(RestartFault::TooLate);
        }
        let deadline = now + interval;
        if deadline <= now {
            return Err(RestartFault::ZeroInterval);
        }
        if self.last_serial >= LAST {
            return Err(RestartFault::SerialsSpent);
        }
        Ok(deadline)
    }
}

/// Why a restart is refused that finds its timer, if a start with its interval or deadline is.
#[inline(always)]
fn restart_fault(fault: StartFault) -> RestartFault
    ensures { (handle : Handle) → (interval : ℕ) → (s : TimersState) → IsAt handle s → WhyNotStarted interval s fault
        → WhyNotRestarted handle interval s result }
{
    match fault {
        StartFault::ZeroInterval => RestartFault::ZeroInterval,
        StartFault::TooLate => RestartFault::TooLate,
        // No start is refused for memory before it allocates.
        StartFault::SerialsSpent | StartFault::OutOfMemory => RestartFault::SerialsSpent,
    }
}
