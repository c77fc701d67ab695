//! What a wheel is: it keeps timers until the tick of their deadline.
//!
//! One record, `WheelState`, is the abstract state of a wheel, however it keeps its timers:
//!
//!     layout        how its slots are laid out, which never changes
//!     last_tick     the last tick of its clock, which never changes
//!     now           the present tick
//!     pending       the timers that wait for their deadline, by deadline and then serial, each with its
//!                   place
//!     due           the timers whose deadline is now, by serial, each with its place, until they are taken,
//!                   stopped or restarted
//!     last_serial   the serial of the last start, 0 if there was none
//!     room          for how many timers at one time, pending and due, room was made
//!
//! A timer that is pending or due is held, and is found under its handle. Each call that changes a wheel is one
//! equation on this record. The four routines of G. Varghese and T. Lauck, "Hashed and Hierarchical Timing
//! Wheels" (SOSP 1987), are `start` (START_TIMER), `stop` (STOP_TIMER), `per_tick` (PER_TICK_BOOKKEEPING) and
//! `expire` (the timers that their EXPIRY_PROCESSING is for).
ghost use Rattle.std.specs.Prelude.{◌≡◌, ◌<◌, ◌≤◌, ◌-◌, ◌↔◌, ⊤, ℕ, List, [], Option, length, IsTrue, IfOk, OnOk, OnErr, IfSome, IsSome, MatchOption, MatchResult, vec_capacity};
ghost use Rattle.timer_base.specs.Types.{LAST, Timer};
ghost use Rattle.timer_base.specs.Counts.{WheelCounts, no_counts};
ghost use Rattle.timer_base.specs.Layout.{Layout};
ghost use Rattle.timer_base.specs.Pending.{Entry, timers_of};
ghost use Rattle.timer_base.specs.WakeUps.{IsQuietUntil, next_deadline};
ghost use Rattle.timer_base.specs.WheelState.{WheelState, IsWellFormed, NamesOne, held_at, held_count, old_timer, first_due, after_reserve, after_held_start, after_removal, after_replacement, after_tick, after_expiry, after_clear, Advances};

use crate::fault::OutOfMemory;
use crate::timer::{Handle, Timer};

/// Keeps timers until the tick of their deadline.
pub trait Wheel {
    /// The abstract state of the wheel, however it keeps its timers.
    ghost state: { Self → WheelState };

    /// What `quiet_until` returns, for the layout of the slots, the present tick and the pending timers: each wheel says
    /// which tick it is, or which ticks it may be.
    ghost wakes: { Layout → ℕ → List Entry → Option ℕ → Type 0 };

    /// The timers that it can give back whole: a start and a restart take no others. A wheel that keeps all of a timer
    /// leaves this out.
    ghost keeps: { Timer → Type 0 } = { λ _. ⊤ };

    /// What it counted since it was made. No other call changes it than a start, a restart and ticks. A wheel
    /// that counts nothing leaves out these members.
    ghost counts: { Self → WheelCounts } = { λ _. no_counts };

    /// The counts after one more start or restart.
    ghost count_start: { WheelCounts → WheelCounts } = { λ counts. counts };

    /// The counts after a tick from this state.
    ghost count_tick: { WheelState → WheelCounts → WheelCounts } = { λ _ counts. counts };

    /// The counts after an advance from the first state to the second.
    ghost count_advance: { WheelState → WheelState → WheelCounts → WheelCounts } = { λ _ _ counts. counts };

    /// The last tick of the wheel's clock: constant, and at most `LAST`.
    fn last_tick(&self) -> u64
        ensures { result ≡ (state self.now).last_tick };

    /// The present tick.
    fn now(&self) -> u64
        ensures { result ≡ (state self.now).now };

    /// How many timers are pending. Those that are due are not counted.
    ///
    /// A wheel may have to count those that are due, to leave them out: while some wait, it takes time for
    /// each of them. `has_due` says whether there are any.
    fn len(&self) -> usize
        ensures { result ≡ length (state self.now).pending };

    /// Whether a timer is due and was not yet taken.
    fn has_due(&self) -> bool
        ensures { IsTrue result ↔ (0 < length (state self.now).due) };

    /// The serial of the last start, or 0 if none was started.
    fn last_serial(&self) -> u64
        ensures { result ≡ (state self.now).last_serial };

    /// Starts a timer (START_TIMER), and returns its handle. Its deadline is now or later: if it is now, the
    /// timer is due at once, after those that are due already.
    ///
    /// The only error is out of memory, and then nothing changes. A wheel with a limited number of places
    /// returns it at its limit too, though no allocation failed. While fewer timers are held than `reserve`
    /// made room for, there is no error. The place is a free choice of the wheel. Due timers may be waiting,
    /// here and in `look`, `stop`, `restart`, `list`, `list_into`
    /// and `clear`.
    fn start(&mut self, timer: Timer) -> Result<Handle, OutOfMemory>
        requires not_past { (state self.old).now ≤ timer.deadline }
        requires deadline { timer.deadline ≤ (state self.old).last_tick }
        requires fresh { (state self.old).last_serial < timer.serial }
        requires serial { timer.serial ≤ LAST }
        requires keeps { keeps timer }
        ensures named { IfOk result (λ handle. handle.serial ≡ timer.serial) }
        ensures started { IfOk result (λ handle. state self.new
            ≡ after_held_start handle.place timer (state self.old)) }
        ensures full { OnErr result ((state self.old).room ≤ held_count (state self.old)) }
        ensures err { OnErr result (state self.new ≡ state self.old) }
        ensures counts { MatchResult result (λ _. counts self.new ≡ count_start (counts self.old))
            (λ _. counts self.new ≡ counts self.old) };

    /// Makes room for `most` timers at one time, pending or due, those that are here among them. The only
    /// error is out of memory; no timer changes, either way.
    ///
    /// A start then succeeds while there are fewer than `most`, also after others were removed. A wheel of
    /// this project doesn't allocate then. One that doesn't write this call makes no room, and returns out
    /// of memory.
    fn reserve(&mut self, most: usize) -> Result<(), OutOfMemory>
        ensures ok { OnOk result (state self.new ≡ after_reserve most (state self.old)) }
        ensures err { OnErr result (state self.new ≡ state self.old) }
        ensures counts { counts self.new ≡ counts self.old }
    {
        let _most = most;
        Err(OutOfMemory)
    }

    /// Returns the timer with exactly this handle, place and serial, pending or due, or None if there is none.
    /// A timer that becomes due keeps its handle until it is taken, stopped or restarted. Does not allocate.
    ///
    /// No handle names a pending timer and a due one.
    fn look(&self, handle: Handle) -> Option<Timer>
        ensures timer { result ≡ held_at handle (state self.now) }
        ensures one { NamesOne handle (state self.now) };

    /// Removes the timer with exactly this handle (STOP_TIMER), pending or due, and returns it.
    ///
    /// If there is none, nothing changes. Does not allocate.
    fn stop(&mut self, handle: Handle) -> Option<Timer>
        ensures timer { result ≡ held_at handle (state self.old) }
        ensures stopped { state self.new ≡ after_removal handle (state self.old) }
        ensures counts { counts self.new ≡ counts self.old };

    /// Removes the timer with exactly this handle, pending or due, starts another in its place (RESTART), and
    /// returns the new handle and the old timer. The new deadline is now or later, as that of a start.
    ///
    /// If there is none, nothing changes. Does not allocate. The place is a free choice of the wheel.
    fn restart(&mut self, handle: Handle, timer: Timer) -> Option<(Handle, Timer)>
        requires not_past { (state self.old).now ≤ timer.deadline }
        requires deadline { timer.deadline ≤ (state self.old).last_tick }
        requires fresh { (state self.old).last_serial < timer.serial }
        requires serial { timer.serial ≤ LAST }
        requires keeps { keeps timer }
        ensures old { old_timer result ≡ held_at handle (state self.old) }
        ensures named { IfSome result (λ r. r.0.serial ≡ timer.serial) }
        ensures restarted { state self.new ≡ after_replacement result handle timer (state self.old) }
        ensures counts { MatchOption result (counts self.new ≡ counts self.old)
            (λ _. counts self.new ≡ count_start (counts self.old)) };

    /// Restarts a timer that is there, as `restart`, for a tick after now, and returns the new handle. Does not allocate.
    ///
    /// A wheel that doesn't write this call looks for the timer all the same.
    fn restart_later(&mut self, handle: Handle, timer: Timer) -> Handle
        requires held { IsSome (held_at handle (state self.old)) }
        requires later { (state self.old).now < timer.deadline }
        requires deadline { timer.deadline ≤ (state self.old).last_tick }
        requires fresh { (state self.old).last_serial < timer.serial }
        requires serial { timer.serial ≤ LAST }
        requires keeps { keeps timer }
        ensures named { result.serial ≡ timer.serial }
        ensures restarted { state self.new
            ≡ after_held_start result.place timer (after_removal handle (state self.old)) }
        ensures counts { counts self.new ≡ count_start (counts self.old) }
    {
        match self.restart(handle, timer) {
            Some((made, _)) => made,
            None => unreachable!(),
        }
    }

    /// Advances the clock by one tick (PER_TICK_BOOKKEEPING): the pending timers with that deadline
    /// become due, by serial. Does not allocate.
    fn per_tick(&mut self)
        requires nothing_due { (state self.old).due ≡ [] }
        requires before_last { (state self.old).now < (state self.old).last_tick }
        ensures ticked { state self.new ≡ after_tick (state self.old) }
        ensures counts { counts self.new ≡ count_tick (state self.old) (counts self.old) };

    /// Passes at least one and at most `most` ticks, and returns how many.
    ///
    /// Nothing becomes due before the last of them, and fewer than `most` are passed only if something
    /// is due then.
    /// Does not allocate.
    fn advance(&mut self, most: u64) -> u64
        requires nothing_due { (state self.old).due ≡ [] }
        requires some { 0 < most }
        requires before_last { most ≤ (state self.old).last_tick - (state self.old).now }
        ensures advances { Advances most result (state self.old) (state self.new) }
        ensures counts { counts self.new ≡ count_advance (state self.old) (state self.new) (counts self.old) };

    /// Returns a tick until which nothing becomes due, or None exactly if nothing is pending.
    ///
    /// It is after the present tick and at most the first pending deadline, so an owner sleeps until
    /// then, calls `advance`, and calls this again. A wheel may wake its owner before the first deadline
    /// rather than search for it: `wakes` says when. Does not allocate.
    fn quiet_until(&self) -> Option<u64>
        ensures quiet { IsQuietUntil result (state self.now).now (state self.now).pending }
        ensures wakes { wakes (state self.now).layout (state self.now).now (state self.now).pending result };

    /// Returns the first pending deadline, or None exactly when nothing is pending.
    ///
    /// It is exact, while `quiet_until` may be early, and a wheel may have to walk timers to find it. Due
    /// timers may be waiting: they are not looked at. Does not allocate.
    fn next_deadline(&self) -> Option<u64>
        ensures { result ≡ next_deadline (state self.now).pending };

    /// Removes the first of the due timers and returns it. Does not allocate.
    fn expire(&mut self) -> Option<Timer>
        ensures first { result ≡ first_due (state self.old) }
        ensures rest { state self.new ≡ after_expiry (state self.old) }
        ensures counts { counts self.new ≡ counts self.old };

    /// The pending timers, by deadline and then serial. The only error is out of memory.
    fn list(&self) -> Result<Vec<Timer>, OutOfMemory>
        ensures { IfOk result (λ timers. timers.items ≡ timers_of (state self.now).pending) };

    /// Fills a vector with the pending timers, by deadline and then serial. What it held before is dropped.
    ///
    /// The only error is out of memory, and then the vector is as it was. If its capacity is at least the number of
    /// pending timers, there is no error: a wheel of this project doesn't allocate then.
    fn list_into(&self, timers: &mut Vec<Timer>) -> Result<(), OutOfMemory>
        ensures listed { OnOk result (timers.new.items ≡ timers_of (state self.now).pending) }
        ensures full { OnErr result (vec_capacity timers.old < length (state self.now).pending) }
        ensures err { OnErr result (timers.new.items ≡ timers.old.items) }
        ensures capacity { vec_capacity timers.old ≤ vec_capacity timers.new };

    /// Drops every pending timer. The tick and the last serial stay. Does not allocate.
    fn clear(&mut self)
        ensures cleared { state self.new ≡ after_clear (state self.old) }
        ensures counts { counts self.new ≡ counts self.old };

    /// The invariant of every wheel.
    ghost well_formed: { (wheel : Self) → IsWellFormed (state wheel) };
}
