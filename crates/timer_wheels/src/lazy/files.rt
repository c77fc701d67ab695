//! The buckets of a lazy wheel and their bits: each timer is filed in a bucket that is visited by its deadline.
//!
//! A start files a timer in the bucket of its deadline. A push back leaves it there, so a bucket may be visited before the
//! deadlines of its timers, and never after one. Ticks and visits are in `leaps`.
ghost use Rattle.std.specs.Prelude.{◌≡◌, ◌⊎◌, ◌<◌, ◌≤◌, ◌+◌, ℕ, IfOk, IfSome, IfNone, OnOk, OnErr, IsSome, MatchOption, MatchResult, Some};
ghost use Rattle.timer_base.specs.Layout.{OneWheel};
ghost use Rattle.timer_base.specs.WheelState.{after_reserve, empty_wheel, held_at, held_count, first_due, old_timer, after_held_start, after_removal, after_replacement, after_expiry, after_clear};
ghost use Rattle.timer_base.specs.declared.limits.TheConstants.{LAST};
ghost use Rattle.timer_links.specs.Lists.{SetsNode};
ghost use Rattle.timer_wheels.specs.Buckets.{state_of, IsListOf};
ghost use Rattle.timer_wheels.specs.Digits.{bucket, slots};
ghost use Rattle.timer_wheels.specs.lazy.Files.{AreFiles, AreFiles-prop, ArePaid, StaysInPlace, with_start};
ghost use Rattle.timer_wheels.specs.Tables.{radices, slots_of_table, last_of_table};

use crate::buckets::Buckets;
use crate::lazy::filing::SPARE_LISTS;
use crate::occupied::{Occupied, enter_first, leave};
use crate::table::{Table, bucket_of, buckets_of, last_tick_of};
use std::alloc::Global;
use timer_base::{Handle, OutOfMemory, Timer};
use timer_links::Kept;

/// What a lazy wheel did since it was made.
#[derive(Clone, Copy, Drop)]
pub struct FilingCounts {
    /// Timers that were started or restarted.
    pub starts: u64,
    /// Timers that were filed anew, at a visit of their bucket.
    pub filings: u64,
}

/// The buckets of a table, and which of them have a timer.
#[derive(Drop)]
pub struct Files<N: Kept = Timer> {
    // First, as in a smooth wheel: so C reads the buckets of either without a branch.
    /// A bucket for each slot of each wheel, and after them the spare lists of `filing`.
    pub buckets: Buckets<N>,
    /// The radices, which no call changes.
    pub table: Table,
    /// Which buckets have a timer.
    pub occupied: Occupied,
    /// What it counted.
    pub counts: FilingCounts,
    ghost files: { AreFiles table buckets occupied } by { AreFiles-prop table buckets occupied },
    ghost few_starts: { counts.starts ≤ buckets.last_serial },
    ghost paid: { ArePaid table buckets counts },
}

impl<N: Kept> Files<N> {
    /// The empty buckets of a table.
    pub fn new(alloc: Global, table: Table, first_tick: u64) -> Result<Files<N>, OutOfMemory>
        requires { first_tick ≤ last_of_table table }
        ensures state { IfOk result (λ files. state_of files.buckets
            ≡ empty_wheel (OneWheel (slots_of_table table + 35)) (last_of_table table) first_tick) }
        ensures table { IfOk result (λ files. files.table ≡ table) }
        ensures counts { IfOk result (λ files. files.counts ≡ record {
          starts = 0;
          filings = 0;
        }) }
    {
        let slots = buckets_of(table) + SPARE_LISTS;
        let buckets = Buckets::new(alloc, slots, last_tick_of(table), first_tick)?;
        Ok(Files {
            table,
            buckets,
            occupied: Occupied::new(),
            counts: FilingCounts {
                starts: 0,
                filings: 0,
            },
        })
    }

    /// The list of a timer that is started now: its bucket, or the list of due timers if its deadline is now.
    #[inline(always)]
    fn list_of(&self, deadline: u64) -> usize
        requires not_past { self.now.buckets.tick ≤ deadline }
        requires deadline { deadline ≤ self.now.buckets.last_tick }
        ensures list { IsListOf result self.now.buckets.slots self.now.buckets.tick deadline }
        ensures bucket { self.now.buckets.tick < deadline
            → result ≡ bucket (radices self.now.table) self.now.buckets.tick deadline }
        ensures in_table { self.now.buckets.tick < deadline → result < slots (radices self.now.table) }
    {
        let buckets = &self.buckets;
        if deadline > buckets.tick {
            bucket_of(self.table, buckets.tick, deadline)
        } else {
            buckets.slots
        }
    }

    /// Starts a timer, in its bucket or as the last of the due ones.
    #[inline(always)]
    pub fn start(&mut self, timer: Timer) -> Result<Handle, OutOfMemory>
        requires not_past { self.old.buckets.tick ≤ timer.deadline }
        requires deadline { timer.deadline ≤ self.old.buckets.last_tick }
        requires fresh { self.old.buckets.last_serial < timer.serial }
        requires serial { timer.serial ≤ LAST }
        requires keeps { N.keeps (record { timer = timer; rounds = 0 }) }
        ensures named { IfOk result (λ handle. handle.serial ≡ timer.serial) }
        ensures started { IfOk result (λ handle. state_of self.new.buckets
            ≡ after_held_start handle.place timer (state_of self.old.buckets)) }
        ensures full { OnErr result ((state_of self.old.buckets).room
            ≤ held_count (state_of self.old.buckets)) }
        ensures err { OnErr result (state_of self.new.buckets ≡ state_of self.old.buckets) }
        ensures counts { MatchResult result (λ _. self.new.counts ≡ with_start self.old.counts)
            (λ _. self.new.counts ≡ self.old.counts) }
        ensures table { self.new.table ≡ self.old.table }
    {
        let tick = self.buckets.tick;
        let list = self.list_of(timer.deadline);
        let was_empty = self.buckets.links.is_empty(list);
        let handle = self.buckets.start(list, timer, 0)?;
        enter_first(&mut self.occupied, tick, timer.deadline, list, was_empty);
        let counts = &mut self.counts;
        counts.starts += 1;
        Ok(handle)
    }

    /// Removes the timer with just this handle, pending or due. Does not allocate.
    #[inline]
    pub fn stop(&mut self, handle: Handle) -> Option<Timer>
        ensures timer { result ≡ held_at handle (state_of self.old.buckets) }
        ensures stopped { state_of self.new.buckets ≡ after_removal handle (state_of self.old.buckets) }
        ensures counts { self.new.counts ≡ self.old.counts }
        ensures table { self.new.table ≡ self.old.table }
    {
        self.buckets.links.lemma_keys_unique();
        let (timer, emptied) = self.buckets.take(handle)?;
        leave(&mut self.occupied, self.buckets.slots, emptied);
        Some(timer)
    }

    /// Removes the pending timer with just this handle, and starts another at its place, whose deadline is not before that of
    /// the old one: no link changes, and no bit. None, and nothing changes, if there is no such timer or the deadline is
    /// earlier.
    #[inline(always)]
    pub fn postpone(&mut self, handle: Handle, timer: Timer) -> Option<Timer>
        requires deadline { timer.deadline ≤ self.old.buckets.last_tick }
        requires fresh { self.old.buckets.last_serial < timer.serial }
        requires serial { timer.serial ≤ LAST }
        requires keeps { N.keeps (record { timer = timer; rounds = 0 }) }
        ensures old { IfSome result (λ t. held_at handle (state_of self.old.buckets) ≡ Some t) }
        ensures ahead { IfSome result (λ t. (self.old.buckets.tick < t.deadline) × (t.deadline ≤ timer.deadline)) }
        ensures restarted { IfSome result (λ t. state_of self.new.buckets
            ≡ after_held_start handle.place timer (after_removal handle (state_of self.old.buckets))) }
        ensures lists { IfSome result (λ t. SetsNode handle.place (record { timer = timer; rounds = 0 })
            self.old.buckets.links.lists self.new.buckets.links.lists) }
        ensures none { IfNone result (self.new.buckets ≡ self.old.buckets) }
        ensures refused { IfNone result ((t : Timer) → held_at handle (state_of self.old.buckets) ≡ Some t
            → (t.deadline ≤ self.old.buckets.tick) ⊎ (timer.deadline < t.deadline)) }
        ensures counts { MatchOption result (self.new.counts ≡ self.old.counts)
            (λ _. self.new.counts ≡ with_start self.old.counts) }
        ensures table { self.new.table ≡ self.old.table }
    {
        self.buckets.links.lemma_keys_unique();
        let old = self.buckets.postpone(handle, timer)?;
        let counts = &mut self.counts;
        counts.starts += 1;
        Some(old)
    }

    /// Removes the timer with just this handle, and starts another at its place. Does not allocate.
    ///
    /// If the new deadline is not before the old one, no link changes.
    #[inline(always)]
    pub fn restart(&mut self, handle: Handle, timer: Timer) -> Option<(Handle, Timer)>
        requires not_past { self.old.buckets.tick ≤ timer.deadline }
        requires deadline { timer.deadline ≤ self.old.buckets.last_tick }
        requires fresh { self.old.buckets.last_serial < timer.serial }
        requires serial { timer.serial ≤ LAST }
        requires keeps { N.keeps (record { timer = timer; rounds = 0 }) }
        ensures old { old_timer result ≡ held_at handle (state_of self.old.buckets) }
        ensures named { IfSome result (λ r. r.0.serial ≡ timer.serial) }
        ensures place { IfSome result (λ r. r.0.place ≡ handle.place) }
        ensures restarted { state_of self.new.buckets
            ≡ after_replacement result handle timer (state_of self.old.buckets) }
        ensures in_place { StaysInPlace handle timer (state_of self.old.buckets) self.old.buckets.links.lists
            self.new.buckets.links.lists }
        ensures counts { MatchOption result (self.new.counts ≡ self.old.counts)
            (λ _. self.new.counts ≡ with_start self.old.counts) }
        ensures table { self.new.table ≡ self.old.table }
    {
        match self.postpone(handle, timer) {
            Some(old) => {
                let handle = Handle {
                    place: handle.place,
                    serial: timer.serial,
                };
                Some((handle, old))
            }
            None => self.restart_apart(handle, timer),
        }
    }

    /// Removes the timer with just this handle, and starts another at its place, in its bucket. Does not allocate.
    #[inline(always)]
    pub fn restart_apart(&mut self, handle: Handle, timer: Timer) -> Option<(Handle, Timer)>
        requires not_past { self.old.buckets.tick ≤ timer.deadline }
        requires deadline { timer.deadline ≤ self.old.buckets.last_tick }
        requires fresh { self.old.buckets.last_serial < timer.serial }
        requires serial { timer.serial ≤ LAST }
        requires keeps { N.keeps (record { timer = timer; rounds = 0 }) }
        ensures old { old_timer result ≡ held_at handle (state_of self.old.buckets) }
        ensures named { IfSome result (λ r. r.0.serial ≡ timer.serial) }
        ensures place { IfSome result (λ r. r.0.place ≡ handle.place) }
        ensures restarted { state_of self.new.buckets
            ≡ after_replacement result handle timer (state_of self.old.buckets) }
        ensures counts { MatchOption result (self.new.counts ≡ self.old.counts)
            (λ _. self.new.counts ≡ with_start self.old.counts) }
        ensures table { self.new.table ≡ self.old.table }
    {
        self.buckets.links.lemma_keys_unique();
        let tick = self.buckets.tick;
        let list = self.list_of(timer.deadline);
        let had_timers = !self.buckets.links.is_empty(list);
        let (restarted, emptied) = self.buckets.replace(handle, list, timer, 0)?;
        // The one that it had may be this one, which leaves it first.
        let was_empty = !had_timers || emptied.is_some();
        leave(&mut self.occupied, self.buckets.slots, emptied);
        enter_first(&mut self.occupied, tick, timer.deadline, list, was_empty);
        let counts = &mut self.counts;
        counts.starts += 1;
        Some(restarted)
    }

    /// Removes the timer with just this handle, which is there, and starts another at its place, for a later tick. No test is
    /// made whether it may stay in its bucket. Does not allocate.
    #[inline(always)]
    pub fn restart_later(&mut self, handle: Handle, timer: Timer) -> Handle
        requires held { IsSome (held_at handle (state_of self.old.buckets)) }
        requires later { self.old.buckets.tick < timer.deadline }
        requires deadline { timer.deadline ≤ self.old.buckets.last_tick }
        requires fresh { self.old.buckets.last_serial < timer.serial }
        requires serial { timer.serial ≤ LAST }
        requires keeps { N.keeps (record { timer = timer; rounds = 0 }) }
        ensures named { result.serial ≡ timer.serial }
        ensures place { result.place ≡ handle.place }
        ensures restarted { state_of self.new.buckets
            ≡ after_held_start result.place timer (after_removal handle (state_of self.old.buckets)) }
        ensures counts { self.new.counts ≡ with_start self.old.counts }
        ensures table { self.new.table ≡ self.old.table }
    {
        self.buckets.links.lemma_keys_unique();
        let tick = self.buckets.tick;
        let moved = self.buckets.move_later(self.table, handle, timer);
        leave(&mut self.occupied, self.buckets.slots, moved.emptied);
        enter_first(
            &mut self.occupied,
            tick,
            timer.deadline,
            moved.list,
            moved.was_empty,
        );
        let counts = &mut self.counts;
        counts.starts += 1;
        Handle {
            place: handle.place,
            serial: timer.serial,
        }
    }

    /// Makes room for so many timers.
    pub fn reserve(&mut self, most: usize) -> Result<(), OutOfMemory>
        ensures ok { OnOk result (state_of self.new.buckets ≡ after_reserve most (state_of self.old.buckets)) }
        ensures more { OnErr result ((state_of self.old.buckets).room < most) }
        ensures err { OnErr result (state_of self.new.buckets ≡ state_of self.old.buckets) }
        ensures counts { self.new.counts ≡ self.old.counts }
        ensures table { self.new.table ≡ self.old.table }
    {
        self.buckets.reserve(most)
    }

    /// Takes the first of the due timers.
    pub fn expire(&mut self) -> Option<Timer>
        ensures first { result ≡ first_due (state_of self.old.buckets) }
        ensures rest { state_of self.new.buckets ≡ after_expiry (state_of self.old.buckets) }
        ensures counts { self.new.counts ≡ self.old.counts }
        ensures table { self.new.table ≡ self.old.table }
    {
        self.buckets.expire()
    }

    /// Drops the pending timers. Does not allocate.
    pub fn clear(&mut self)
        ensures cleared { state_of self.new.buckets ≡ after_clear (state_of self.old.buckets) }
        ensures counts { self.new.counts ≡ self.old.counts }
        ensures table { self.new.table ≡ self.old.table }
    {
        self.buckets.clear();
        self.occupied = Occupied::new();
    }
}
