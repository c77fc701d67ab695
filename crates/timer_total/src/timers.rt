//! A wheel whose calls, once it is made, have no preconditions.
ghost use Rattle.std.specs.Prelude.{◌≡◌, ◌<◌, ◌≤◌, ◌↔◌, ℕ, ◌-◌, [], length, min, IsTrue, IfOk, IfErr, OnOk, OnErr, None};
ghost use Rattle.timer_base.specs.WakeUps.{IsQuietUntil};
ghost use Rattle.timer_base.specs.WheelState.{held_at, first_due, after_removal, after_reserve, after_tick, after_expiry};
ghost use Rattle.timer_total.specs.Refusals.{left_until, WhyNotTicked, WhyNotAdvanced};
ghost use Rattle.timer_total.specs.Ticks.{IsTakenBy, IsAdvanced};
ghost use Rattle.timer_total.specs.TimersState.{TimersState, with_wheel, KeepsUnowned, without_due, after_drop};

use crate::fault::AdvanceFault;
use std::marker::Model;
use timer_base::{Handle, OutOfMemory, Timer, Wheel};

mod starts;

/// A wheel and the last serial that was used. Its model has both, and what the wheel counted.
#[derive(Drop)]
pub struct Timers<W: Wheel + Drop> {
    wheel: W,
    // At least the wheel's own, which begins at 0.
    last_serial: u64,
}

impl<W: Wheel + Drop> Model for Timers<W> {
    ghost use Rattle.timer_total.specs.TimersState.{TimersState, IsTimersOver};

    ghost Value = { TimersState };

    ghost view = { λ t. record {
      wheel = W.state t.wheel;
      counts = W.counts t.wheel;
      last_serial = t.last_serial;
    } };

    ghost invariant = { λ t. IsTimersOver W.keeps (W.state t.wheel) t.last_serial };
}

impl<W: Wheel + Drop> Timers<W> {
    /// Wraps a wheel. The next start gets the serial after `last_serial`. The wheel must keep every timer whole that
    /// has no owner, that is whose client and number are 0: it is started no others.
    pub fn new(wheel: W, last_serial: u64) -> Timers<W>
        requires serial { (W.state wheel).last_serial ≤ last_serial }
        requires keeps { KeepsUnowned W.keeps }
        ensures { result ≡ record {
          wheel = W.state wheel;
          counts = W.counts wheel;
          last_serial = last_serial;
        } }
    {
        Timers { wheel, last_serial }
    }

    /// The present tick.
    pub fn now(&self) -> u64
        ensures { result ≡ self.now.wheel.now }
    {
        self.wheel.now()
    }

    /// The wheel, for what only its own readers show. Its last serial may be lower than that of the timers.
    pub fn wheel(&self) -> &W
        ensures state { W.state result.now ≡ self.now.wheel }
        ensures counts { W.counts result.now ≡ self.now.counts }
    {
        &self.wheel
    }

    /// How many timers are pending. Expired timers that were not yet taken are not counted.
    pub fn len(&self) -> usize
        ensures { result ≡ length self.now.wheel.pending }
    {
        self.wheel.len()
    }

    /// Whether a timer expired and was not yet taken.
    pub fn has_due(&self) -> bool
        ensures { IsTrue result ↔ (0 < length self.now.wheel.due) }
    {
        self.wheel.has_due()
    }

    /// The serial of the last start or restart, or the one that `new` was given.
    pub fn last_serial(&self) -> u64
        ensures { result ≡ self.now.last_serial }
    {
        self.last_serial
    }

    /// A tick until which nothing expires, or None exactly if nothing is pending. It is after the
    /// present tick and at most the first pending deadline, and the wheel's `wakes` says which it is.
    pub fn quiet_until(&self) -> Option<u64>
        ensures quiet { IsQuietUntil result self.now.wheel.now self.now.wheel.pending }
        ensures wakes { W.wakes self.now.wheel.layout self.now.wheel.now self.now.wheel.pending result }
    {
        self.wheel.quiet_until()
    }

    /// Makes room for `most` timers at one time, pending ones and those that expired and were not yet taken.
    /// No timer changes. The only error is out of memory, and then there is as much room as before.
    ///
    /// While fewer are held, a start then finds memory, also after others were removed.
    pub fn reserve(&mut self, most: usize) -> Result<(), OutOfMemory>
        ensures ok { OnOk result (self.new ≡ with_wheel (after_reserve most self.old.wheel) self.old) }
        ensures err { OnErr result (self.new ≡ self.old) }
    {
        self.wheel.reserve(most)
    }

    /// The timer with exactly this handle, pending or expired and not yet taken, or None if there is none.
    /// Does not allocate.
    pub fn look(&self, handle: Handle) -> Option<Timer>
        ensures { result ≡ held_at handle self.now.wheel }
    {
        self.wheel.look(handle)
    }

    /// Removes the timer with exactly this handle, pending or expired and not yet taken, and returns it. If
    /// there is none, nothing changes. The handle is dead then: no timer has it. Does not allocate.
    #[tactic(auto, using(timer_base::proofs::HeldLaws::held_at_removed))]
    pub fn stop(&mut self, handle: Handle) -> Option<Timer>
        ensures timer { result ≡ held_at handle self.old.wheel }
        ensures stopped { self.new ≡ with_wheel (after_removal handle self.old.wheel) self.old }
        ensures dead { held_at handle self.new.wheel ≡ None }
    {
        self.wheel.stop(handle)
    }

    /// Advances the clock by one tick: the pending timers with that deadline expire, and wait to be taken.
    pub fn tick(&mut self) -> Result<(), AdvanceFault>
        ensures due { IfOk result (λ _. self.old.wheel.due ≡ []) }
        ensures ticked { IfOk result (λ _. self.new ≡ record {
          wheel = after_tick self.old.wheel;
          counts = W.count_tick self.old.wheel self.old.counts;
          last_serial = self.old.last_serial;
        }) }
        ensures fault { IfErr result (WhyNotTicked self.old) }
        ensures err { OnErr result (self.new ≡ self.old) }
    {
        if self.wheel.has_due() {
            return Err(AdvanceFault::Due);
        }
        if self.wheel.now() == self.wheel.last_tick() {
            return Err(AdvanceFault::ClockEnd);
        }
        self.wheel.per_tick();
        Ok(())
    }

    /// Passes at most `most` ticks, stops at the first at which a timer expires or at the clock's last, and returns
    /// how many were passed: 0 only if `most` is 0. Then nothing changes, and there is no error.
    ///
    /// Stretches in which nothing expires are skipped, as far as the wheel can skip them.
    pub fn advance(&mut self, most: u64) -> Result<u64, AdvanceFault>
        ensures passed { IfOk result (λ passed. IsAdvanced W.count_advance most passed self.old self.new) }
        ensures fault { IfErr result (WhyNotAdvanced most self.old) }
        ensures err { OnErr result (self.new ≡ self.old) }
    {
        if most == 0 {
            return Ok(0);
        }
        if self.wheel.has_due() {
            return Err(AdvanceFault::Due);
        }
        let left = self.wheel.last_tick() - self.wheel.now();
        if left == 0 {
            return Err(AdvanceFault::ClockEnd);
        }
        Ok(self.pass(most.min(left)))
    }

    /// Passes at most so many ticks, some and no more than are left of the clock, while nothing is due.
    #[inline(always)]
    fn pass(&mut self, ticks: u64) -> u64
        requires nothing_due { self.old.wheel.due ≡ [] }
        requires some { 0 < ticks }
        requires left { ticks ≤ self.old.wheel.last_tick - self.old.wheel.now }
        ensures { (most : ℕ) → ticks ≡ min most (self.old.wheel.last_tick - self.old.wheel.now)
            → IsAdvanced W.count_advance most result self.old self.new }
    {
        self.wheel.advance(ticks)
    }

    /// Passes ticks up to this one, as `advance`, and stops at the first at which a timer expires. A tick that
    /// is not after the present one is none to pass: then nothing changes, and there is no error.
    #[inline(always)]
    pub fn advance_to(&mut self, tick: u64) -> Result<u64, AdvanceFault>
        ensures passed { IfOk result (λ passed. IsAdvanced W.count_advance (left_until tick self.old) passed
            self.old self.new) }
        ensures fault { IfErr result (WhyNotAdvanced (left_until tick self.old) self.old) }
        ensures err { OnErr result (self.new ≡ self.old) }
    {
        // In ticks and not in how many are left of them: it is the end that a wheel asks for.
        let now = self.wheel.now();
        if tick <= now {
            return Ok(0);
        }
        if self.wheel.has_due() {
            return Err(AdvanceFault::Due);
        }
        let last = self.wheel.last_tick();
        if now == last {
            return Err(AdvanceFault::ClockEnd);
        }
        Ok(self.pass(tick.min(last) - now))
    }

    /// Removes the first of the expired timers, in order of starting, and returns it.
    #[inline(always)]
    pub fn expire(&mut self) -> Option<Timer>
        ensures first { result ≡ first_due self.old.wheel }
        ensures rest { self.new ≡ with_wheel (after_expiry self.old.wheel) self.old }
    {
        self.wheel.expire()
    }

    /// Removes the next timer that is due by this tick, and returns it: one that has expired already, or the
    /// first whose deadline is at most this tick, up to which ticks are passed.
    ///
    /// With None the clock is at this tick, or at its last one, or was past it before. Does not allocate.
    pub fn take(&mut self, tick: u64) -> Option<Timer>
        ensures { IsTakenBy W.count_advance tick result self.old self.new }
    {
        // Refused while an expired timer waits, and at the last tick: then no tick has to pass.
        let _passed = self.advance_to(tick);
        self.expire()
    }

    /// Drops every timer, pending or expired and not yet taken. The clock and the last serial stay. Does not
    /// allocate.
    pub fn clear(&mut self)
        ensures { self.new ≡ with_wheel (after_drop self.old.wheel) self.old }
    {
        self.wheel.clear();
        drop_due(&mut self.wheel);
    }
}

/// Drops the timers that are due.
fn drop_due<W: Wheel>(wheel: &mut W)
    ensures state { W.state wheel.new ≡ without_due (W.state wheel.old) }
    ensures counts { W.counts wheel.new ≡ W.counts wheel.old }
{
    while wheel.expire().is_some() {}
}
