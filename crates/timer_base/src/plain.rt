//! The plain wheel: Scheme 1 of G. Varghese and T. Lauck, "Hashed and Hierarchical Timing Wheels",
//! SOSP 1987.
//!
//! One `Vec` of timers in order of starting, and no slots at all: each tick scans all of them, and so does
//! a jump to the next deadline. A timer whose deadline is the present tick is due, and stays in the `Vec`
//! until it is taken. It is slow, and the shortest implementation of a wheel.
//!
//! Three timers, started at tick 0 for the deadlines 5, 3 and 5 (written serial:deadline):
//!
//!     now   the timers        pending, in order   due
//!       0   1:5 2:3 3:5       2:3 1:5 3:5
//!       3   1:5 2:3 3:5       1:5 3:5             2:3
//!           1:5 3:5           1:5 3:5                   2 is taken
//!       5   1:5 3:5                               1:5 3:5
//!
//! Each handle has place 0: the serial alone identifies the timer.
ghost use Rattle.std.specs.Prelude.{◌≡◌, ◌≤◌, ◌<◌, ◌+◌, ◌↔◌, ◌++◌, [], IfOk, IfErr, IsErr, Some, length, filter, find, not, vec_len, vec_capacity};
ghost use Rattle.std.proofs.Math.Nat.{ℕ_set};
ghost use Rattle.std.specs.List.{AllByRecursion};
ghost use Rattle.timer_base.specs.Types.{LAST};
ghost use Rattle.timer_base.specs.Layout.{NoSlots};
ghost use Rattle.timer_base.specs.Order.{AreRising};
ghost use Rattle.timer_base.specs.WellFormed.{AreRising-prop, IsKept-prop, plain_state-well_formed, with_room-well_formed};
ghost use Rattle.timer_base.specs.Pending.{has_serial, is_due_at};
ghost use Rattle.timer_base.specs.PlainState.{IsKept, AreDueAfter, IsJump, is_after, due_count, first_after, plain_state};
ghost use Rattle.timer_base.specs.WakeUps.{IsQuietUntil, next_deadline};
ghost use Rattle.timer_base.specs.WheelState.{empty_wheel, with_room};

use crate::fault::{MakeFault, OutOfMemory};
use crate::limits::LAST;
use crate::order::{earlier, sort_timers};
use crate::timer::{Handle, Timer};
use crate::wheel::Wheel;
use std::alloc::Global;

/// One list of timers, which every tick scans (Scheme 1).
#[derive(Drop)]
pub struct PlainWheel {
    now: u64,
    last_serial: u64,
    // In order of starting, the due ones among them.
    timers: Vec<Timer>,
    // How many of them are due, so that `len` needs no scan.
    due: usize,
    // For how many timers `reserve` made room.
    room: usize,
    ghost now_in_range: { now ≤ LAST },
    ghost serial_in_range: { last_serial ≤ LAST },
    ghost rising: { AreRising 0 timers.items } by { AreRising-prop 0 timers.items },
    ghost kept: { AllByRecursion (IsKept now last_serial) timers.items } by { IsKept-prop
        now last_serial timers.items },
    ghost has_room: { room ≤ vec_capacity timers },
    ghost counted: { due ≡ due_count now timers.items } by { ℕ_set _ _ },
}

impl PlainWheel {
    /// A wheel with no timer, at a first tick of at most `LAST`. That is its only error: it does
    /// not allocate.
    pub fn new(alloc: Global, first_tick: u64) -> Result<PlainWheel, MakeFault>
        ensures made { IfOk result (λ wheel. ⟦<PlainWheel as Wheel>⟧.state wheel
            ≡ empty_wheel NoSlots LAST first_tick) }
        ensures fault { IsErr result ↔ (LAST < first_tick) }
        ensures first_tick { IfErr result (λ fault. fault ≡ MakeFault.FirstTick) }
    {
        if first_tick > LAST {
            return Err(MakeFault::FirstTick);
        }
        Ok(PlainWheel {
            now: first_tick,
            last_serial: 0,
            timers: Vec::new(alloc),
            due: 0,
            room: 0,
        })
    }

    /// How far the clock can jump: to the first pending deadline, or by `most` ticks if that is nearer.
    fn ticks_ahead(&self, most: u64) -> u64
        requires nothing_due { (plain_state self.now.now self.now.last_serial self.now.timers.items).due
            ≡ [] }
        requires some { 0 < most }
        ensures { IsJump self.entry.now.now most result self.entry.now.timers.items }
    {
        match self.quiet_until() {
            Some(deadline) => most.min(deadline - self.now),
            None => most,
        }
    }

    /// Sets the clock forward over ticks at which nothing is due.
    fn skip(&mut self, ticks: u64)
        requires nothing_due { (plain_state self.old.now self.old.last_serial self.old.timers.items).due
            ≡ [] }
        requires quiet { AreDueAfter (self.old.now + ticks) self.old.timers.items }
        requires in_range { self.old.now + ticks ≤ LAST }
        ensures timers { self.new.timers.items ≡ self.old.timers.items }
        ensures now { self.new.now ≡ self.old.now + ticks }
        ensures last_serial { self.new.last_serial ≡ self.old.last_serial }
        ensures room { self.new.room ≡ self.old.room }
    {
        self.now += ticks;
    }
}

impl Wheel for PlainWheel {
    ghost state = { λ w. with_room w.room (plain_state w.now w.last_serial w.timers.items) };

    ghost wakes = { λ layout now pending wake. wake ≡ next_deadline pending };

    ghost well_formed = { λ w. with_room-well_formed w.room (plain_state w.now w.last_serial w.timers.items)
        (plain_state-well_formed w.now w.last_serial w.timers.items w.now_in_range w.serial_in_range w.rising
        w.kept) };

    fn last_tick(&self) -> u64 {
        LAST
    }

    fn now(&self) -> u64 {
        self.now
    }

    #[tactic(auto, using(crate::proofs::PlainSteps::due_count_le, crate::proofs::PlainSteps::pending_count))]
    fn len(&self) -> usize {
        self.timers.len() - self.due
    }

    fn has_due(&self) -> bool {
        self.due != 0
    }

    fn last_serial(&self) -> u64 {
        self.last_serial
    }

    fn start(&mut self, timer: Timer) -> Result<Handle, OutOfMemory> {
        let Ok(()) = self.timers.push(timer) else {
            return Err(OutOfMemory);
        };
        self.due += usize::from(timer.deadline == self.now);
        self.last_serial = timer.serial;
        Ok(Handle {
            place: 0,
            serial: timer.serial,
        })
    }

    fn reserve(&mut self, most: usize) -> Result<(), OutOfMemory> {
        self.timers.reserve(most.saturating_sub(self.timers.len()))?;
        self.room = self.room.max(most);
        Ok(())
    }

    #[tactic(auto, using(crate::proofs::PlainHeld::held_here, crate::proofs::PlainHeld::names_one))]
    fn look(&self, handle: Handle) -> Option<Timer> {
        if handle.place != 0 {
            return None;
        }
        find_serial(self.timers.as_slice(), handle.serial)
    }

    fn stop(&mut self, handle: Handle) -> Option<Timer> {
        let stopped = self.look(handle)?;
        drop_serial(&mut self.timers, stopped.serial);
        self.due = count_due(self.timers.as_slice(), self.now);
        Some(stopped)
    }

    fn restart(&mut self, handle: Handle, timer: Timer) -> Option<(Handle, Timer)> {
        let old = self.look(handle)?;
        drop_serial(&mut self.timers, old.serial);
        // The removed timer left room for it.
        self.timers.push_reserved(timer);
        self.due = count_due(self.timers.as_slice(), self.now);
        self.last_serial = timer.serial;
        let handle = Handle {
            place: 0,
            serial: timer.serial,
        };
        Some((handle, old))
    }

    fn per_tick(&mut self) {
        self.now += 1;
        self.due = count_due(self.timers.as_slice(), self.now);
    }

    /// Jumps to the first pending deadline, or by `most` ticks if that is nearer: two scans of all timers,
    /// however long the jump is.
    fn advance(&mut self, most: u64) -> u64 {
        let passed = self.ticks_ahead(most);
        self.skip(passed - 1);
        self.per_tick();
        passed
    }

    /// Exactly the first pending deadline, found by a scan of all timers.
    fn quiet_until(&self) -> Option<u64>
        ensures wake_up { IsQuietUntil result self.entry.now.now (plain_state self.entry.now.now
            self.entry.now.last_serial self.entry.now.timers.items).pending }
        ensures exact { result ≡ next_deadline (plain_state self.entry.now.now self.entry.now.last_serial
            self.entry.now.timers.items).pending }
    {
        first_deadline(self.timers.as_slice(), self.now)
    }

    /// The same as `quiet_until`, which is exact here: a scan of all timers.
    fn next_deadline(&self) -> Option<u64> {
        self.quiet_until()
    }

    fn expire(&mut self) -> Option<Timer> {
        let first = find_due(self.timers.as_slice(), self.now)?;
        drop_serial(&mut self.timers, first.serial);
        self.due -= 1;
        Some(first)
    }

    fn list(&self) -> Result<Vec<Timer>, OutOfMemory> {
        let mut timers = Vec::new(*self.timers.allocator());
        self.list_into(&mut timers)?;
        Ok(timers)
    }

    fn list_into(&self, timers: &mut Vec<Timer>) -> Result<(), OutOfMemory> {
        let pending = self.len();
        timers.reserve_exact(pending.saturating_sub(timers.len()))?;
        timers.clear();
        copy_pending(self.timers.as_slice(), self.now, timers);
        sort_timers(timers);
        Ok(())
    }

    fn clear(&mut self) {
        keep_due(&mut self.timers, self.now);
    }
}

/// How many of the timers are due at the tick.
fn count_due(timers: &[Timer], tick: u64) -> usize
    ensures { result ≡ due_count tick timers.now }
{
    timers.iter().filter(|t| t.deadline == tick).count()
}

/// The first of the timers that is due at the tick.
fn find_due(timers: &[Timer], tick: u64) -> Option<Timer>
    ensures { result ≡ find (is_due_at tick) timers.now }
{
    timers.iter().copied().find(|t| t.deadline == tick)
}

/// The earliest deadline after the tick.
fn first_deadline(timers: &[Timer], tick: u64) -> Option<u64>
    ensures { result ≡ first_after tick timers.now }
{
    let mut first = None;
    for timer in timers {
        if timer.deadline > tick {
            first = earlier(first, Some(timer.deadline));
        }
    }
    first
}

/// The first of the timers with the serial.
fn find_serial(timers: &[Timer], serial: u64) -> Option<Timer>
    ensures { result ≡ find (has_serial serial) timers.now }
{
    timers.iter().copied().find(|t| t.serial == serial)
}

/// Removes the timer with the serial, and keeps the order of the others.
fn drop_serial(timers: &mut Vec<Timer>, serial: u64)
    ensures items { timers.new.items ≡ filter (λ t. not (has_serial serial t)) timers.old.items }
    ensures room { length timers.new.items < length timers.old.items
        → vec_len timers.new < vec_capacity timers.new }
    ensures capacity { vec_capacity timers.new ≡ vec_capacity timers.old }
{
    timers.retain(|t| t.serial != serial);
}

/// Appends the timers that are due after the tick, in their order. Room for them was reserved.
fn copy_pending(timers: &[Timer], tick: u64, pending: &mut Vec<Timer>)
    requires { length pending.old.items + length (filter (is_after tick) timers.now) ≤ vec_capacity pending.old }
    ensures items { pending.new.items ≡ pending.old.items ++ filter (is_after tick) timers.now }
    ensures capacity { vec_capacity pending.new ≡ vec_capacity pending.old }
{
    for timer in timers {
        if timer.deadline > tick {
            pending.push_reserved(*timer);
        }
    }
}

/// Keeps the timers that are due at the tick, in their order.
fn keep_due(timers: &mut Vec<Timer>, tick: u64)
    ensures items { timers.new.items ≡ filter (is_due_at tick) timers.old.items }
    ensures capacity { vec_capacity timers.new ≡ vec_capacity timers.old }
{
    timers.retain(|t| t.deadline == tick);
}
