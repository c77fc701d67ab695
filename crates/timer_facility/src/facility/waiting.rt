//! Ticks and the close, after which timers wait, and the notices of those that wait.
ghost use Rattle.std.specs.Prelude.{◌≡◌, false, None, Some, ◌-◌, ◌<◌, ◌≤◌, ◌↔◌, [], length, drop, slice_get, slice_index, slice_set, IsTrue, IfSome, IfOk, IfErr, OnErr, OnOk, MatchResult, vec_capacity};
ghost use Rattle.timer_base.specs.Pending.{timers_of};
ghost use Rattle.timer_base.specs.WheelState.{after_clear};
ghost use Rattle.timer_facility.specs.State.{Tick, Close};
ghost use Rattle.timer_facility.specs.Verdict.{tick_refusal, TickRefused, verdict, verdict_on_close};
ghost use Rattle.timer_facility.specs.Step.{step};
ghost use Rattle.timer_facility.specs.Owed.{timer_handed};
ghost use Rattle.timer_facility.specs.Ticked.{AreTicked};
ghost use Rattle.timer_facility.specs.Facility.{view_after, NoRoomToClose};

use crate::config::CLIENTS;
use crate::facility::Facility;
use crate::request::{CloseFault, Notice, TickFault};
use timer_base::{OutOfMemory, Timer, Wheel};

impl<W: Wheel + Drop> Facility<W> {
    /// Advances the clock by one tick. The timers that expire wait to be handed out.
    ///
    /// A refusal changes nothing. Does not allocate. No timer may wait to be handed out.
    pub fn tick(&mut self) -> Result<(), TickFault>
        requires { self.old.waiting ≡ [] }
        ensures ticked { self.new ≡ view_after (step self.old.state Tick 0) }
        ensures fault { MatchResult result (λ _. tick_refusal self.old.state
            ≡ None) (λ fault. tick_refusal self.old.state ≡ Some fault) }
        ensures verdict { MatchResult result
            (λ _. verdict self.old.state Tick ≡ None)
            (λ fault. verdict self.old.state Tick ≡ Some (TickRefused fault)) }
        ensures err { OnErr result (self.new ≡ self.old) }
    {
        if let Some(fault) = self.tick_refusal() {
            return Err(fault);
        }
        self.wheel.per_tick();
        Ok(())
    }

    /// Passes at least one and at most `limit` ticks, and returns how many. The timers that expire at the
    /// last of them wait to be handed out.
    ///
    /// Nothing expires before the last of them, and fewer than `limit` are passed only if a timer
    /// expires then or the clock is at its end. A refusal changes nothing. Does not allocate. No timer may
    /// wait to be handed out.
    pub fn ticks(&mut self, limit: u64) -> Result<u64, TickFault>
        requires waiting { self.old.waiting ≡ [] }
        requires some { 0 < limit }
        ensures ticked { IfOk result (λ passed. AreTicked limit passed self.old.state self.new) }
        ensures fault { MatchResult result (λ _. tick_refusal self.old.state
            ≡ None) (λ fault. tick_refusal self.old.state ≡ Some fault) }
        ensures err { OnErr result (self.new ≡ self.old) }
    {
        if let Some(fault) = self.tick_refusal() {
            return Err(fault);
        }
        let left = self.wheel.last_tick() - self.wheel.now();
        Ok(self.wheel.advance(limit.min(left)))
    }

    /// Closes the facility, and returns how many timers were pending. They wait to be handed out.
    ///
    /// A refusal changes nothing: after `OutOfMemory` the facility is still open. After a `reserve` that returned
    /// Ok, a close is never out of memory. No timer may wait to be handed out.
    pub fn close(&mut self) -> Result<u64, CloseFault>
        requires { self.old.waiting ≡ [] }
        ensures count { IfOk result (λ count. count ≡ length self.old.state.pending) }
        ensures open { OnOk result (self.old.state.is_closed ≡ false) }
        ensures closed { OnOk result (self.new ≡ view_after (step self.old.state Close 0)) }
        ensures fault { IfErr result (λ fault. fault ≡ CloseFault.Closed ↔ IsTrue self.old.state.is_closed) }
        ensures verdict { MatchResult result
            (λ _. verdict self.old.state Close ≡ None)
            (λ fault. verdict self.old.state Close ≡ verdict_on_close fault) }
        ensures room { IfErr result (NoRoomToClose self.old.state) }
        ensures err { OnErr result (self.new ≡ self.old) }
    {
        if self.is_closed {
            return Err(CloseFault::Closed);
        }
        let Ok(()) = take_all(&mut self.wheel, &mut self.returned) else {
            return Err(CloseFault::OutOfMemory);
        };
        self.handed = 0;
        self.is_closed = true;
        Ok(self.returned.len() as u64)
    }

    /// Hands out the next timer that waits, or returns None if none waits. Does not allocate.
    pub fn next_out(&mut self) -> Option<Notice>
        ensures first { result ≡ slice_get self.old.waiting 0 }
        ensures rest { self.new ≡ record self.old { waiting = drop 1 self.old.waiting } }
        ensures client { IfSome result (λ notice. (timer_handed notice).client
            < length self.old.state.numbers) }
    {
        if let Some(timer) = self.wheel.expire() {
            count_one_less(&mut self.counts, timer.client);
            return Some(Notice::Expired(timer));
        }
        if self.handed == self.returned.len() {
            return None;
        }
        let timer = self.returned[self.handed];
        self.handed += 1;
        count_one_less(&mut self.counts, timer.client);
        Some(Notice::Returned(timer))
    }
}

/// Moves all pending timers from the wheel into a list, in the order in which they are returned.
///
/// The only error is out of memory, and then nothing changes.
fn take_all<W: Wheel>(wheel: &mut W, timers: &mut Vec<Timer>) -> Result<(), OutOfMemory>
    ensures timers { OnOk result (timers.new.items ≡ timers_of (W.state wheel.old).pending) }
    ensures cleared { OnOk result (W.state wheel.new ≡ after_clear (W.state wheel.old)) }
    ensures capacity { vec_capacity timers.old ≤ vec_capacity timers.new }
    ensures full { OnErr result (vec_capacity timers.old < length (W.state wheel.old).pending) }
    ensures err { OnErr result ((wheel.new ≡ wheel.old) × (timers.new.items ≡ timers.old.items)) }
{
    wheel.list_into(timers)?;
    wheel.clear();
    Ok(())
}

/// Counts one timer fewer for this client.
#[inline(always)]
pub(crate) fn count_one_less(counts: &mut [usize; CLIENTS], client: u64)
    requires { 0 < slice_index counts.old client }
    ensures { counts.new ≡ slice_set counts.old client (slice_index counts.old client - 1) }
{
    counts[client as usize] -= 1;
}
