//! What is ahead of a smooth wheel: the first bucket with a timer of each wheel, and the next tick that needs a look.
ghost use Rattle.std.specs.Prelude.{◌≡◌, ◌<◌, ◌≤◌, ◌+◌, ◌*◌, ℕ, IfSome, length, true, false};
ghost use Rattle.timer_base.specs.declared.limits.TheConstants.{LAST};
ghost use Rattle.timer_wheels.specs.smooth.Wheels.{next_len};
ghost use Rattle.timer_wheels.specs.BucketLists.{EachRow};
ghost use Rattle.timer_wheels.specs.Digits.{weight};
ghost use Rattle.timer_base.specs.WakeUps.{IsQuietUntil, next_deadline};
ghost use Rattle.timer_wheels.specs.Buckets.{state_of};
ghost use Rattle.timer_wheels.specs.smooth.WakeUps.{IsFirstSlot, IsEventFrom, event_tick, IsNotBefore, IsInPresent, IsFoundBelow, IsPendingDeadline, IsBegin};
ghost use Rattle.timer_wheels.specs.WakeUps.{next_visit};
ghost use Rattle.timer_wheels.specs.smooth.Smooth.{slot_in};
ghost use Rattle.timer_wheels.specs.Tables.{wide};
ghost use Rattle.timer_wheels.specs.declared.table.Table.TheVariants.{Wide};

use crate::deadlines::least_in;
use crate::smooth::slot_lists::{
    level_of, list_of_slot, slot_of, turns_of, weight_of, wheel_count,
};
use crate::smooth::wheels::Wheels;
use timer_base::earlier;
use timer_links::Kept;

impl<N: Kept> Wheels<N> {
    /// The first slot of a wheel after the present one that has a timer.
    pub fn first_slot(&self, wheel: usize) -> Option<u64>
        requires { wheel < length wide }
        ensures first { IsFirstSlot wide self.now.buckets.tick wheel self.now.buckets.links.lists result }
        ensures begins { IfSome result (λ slot. slot * weight wheel wide ≤ self.now.buckets.last_tick) }
    {
        let turns = turns_of(wheel);
        let now = slot_of(wheel, self.buckets.tick);
        let end = now + turns;
        let mut slot = now + 1;
        while slot < end {
            let clear = self.filled.clear_from(list_of_slot(wheel, slot)) as u64;
            if clear == 0 {
                return Some(slot);
            }
            // As far as the last list of the wheel, after which its first one comes.
            slot += clear.min(turns - slot % turns);
        }
        None
    }

    /// The first tick ahead that needs a look, or the end if that comes first: a timer is due, or a bucket with timers
    /// begins to be a wheel's next one. No next bucket has timers.
    pub fn next_event(&self, end: u64) -> u64
        requires open { (k : ℕ) → 0 < k → k < length wide → next_len Wide self.now.buckets k ≡ 0 }
        requires later { self.now.buckets.tick < end }
        ensures later { self.now.buckets.tick < result }
        ensures at_most { result ≤ end }
        ensures events { EachRow (IsEventFrom wide result (length wide))
            self.now.buckets.slots self.now.buckets.links.lists }
    {
        let count = wheel_count();
        let mut event = self.event_before(0, end);
        let mut wheel = 1;
        while wheel < count {
            // This wheel and those above have none before the end of its present slot.
            if is_in_present(self.buckets.tick, wheel, event - 1) {
                return event;
            }
            event = self.event_before(wheel, event);
            wheel += 1;
        }
        event
    }

    /// The event of a wheel, if it has one before that of the wheels below.
    fn event_before(&self, wheel: usize, event: u64) -> u64
        requires wheel { wheel < length wide }
        requires open { 0 < wheel → next_len Wide self.now.buckets wheel ≡ 0 }
        requires later { self.now.buckets.tick < event }
        requires below { EachRow (IsEventFrom wide event wheel) self.now.buckets.slots
            self.now.buckets.links.lists }
        ensures later { self.now.buckets.tick < result }
        ensures at_most { result ≤ event }
        ensures events { EachRow (IsEventFrom wide result (wheel + 1)) self.now.buckets.slots
            self.now.buckets.links.lists }
    {
        match self.first_slot(wheel) {
            Some(slot) => event.min(event_of(wheel, slot)),
            None => event,
        }
    }

    /// The first pending deadline. Does not allocate.
    ///
    /// On wheel 0 a slot is one tick, and needs no walk. Of a higher wheel the first bucket with a timer is walked, unless it
    /// begins after a deadline that was found below.
    pub fn next_deadline(&self) -> Option<u64>
        ensures { result ≡ next_deadline (state_of self.now.buckets).pending }
    {
        let count = wheel_count();
        let mut first = None;
        let mut wheel = 0;
        while wheel < count {
            if is_settled(self.buckets.tick, wheel, first) {
                return first;
            }
            first = self.deadline_before(wheel, first);
            wheel += 1;
        }
        first
    }

    /// The first deadline of a wheel, if it has one before that of the wheels below.
    fn deadline_before(&self, wheel: usize, first: Option<u64>) -> Option<u64>
        requires wheel { wheel < length wide }
        requires below { IsFoundBelow (IsPendingDeadline self.now.buckets) Wide self.now.buckets wheel first }
        ensures { IsFoundBelow (IsPendingDeadline self.now.buckets) Wide self.now.buckets (wheel + 1) result }
    {
        let Some(slot) = self.first_slot(wheel) else {
            return first;
        };
        if wheel == 0 {
            return earlier(first, Some(slot));
        }
        if is_after(first, slot * weight_of(wheel)) {
            earlier(
                first,
                least_in(&self.buckets.links, list_of_slot(wheel, slot)),
            )
        } else {
            first
        }
    }

    /// The next tick at which Scheme 7 would visit a bucket with a timer, or None if nothing is pending. Does not allocate.
    ///
    /// It is the first deadline with zeros below the highest digit in which it differs from now, and follows from the first
    /// slot with a timer of each wheel, without a walk.
    pub fn next_visit(&self) -> Option<u64>
        ensures quiet { IsQuietUntil result self.now.buckets.tick (state_of self.now.buckets).pending }
        ensures exact { result ≡ next_visit wide self.now.buckets.tick
            (state_of self.now.buckets).pending }
    {
        match self.first_begin() {
            Some(begins) => {
                let level = level_of(self.buckets.tick, begins);
                Some(slot_of(level, begins) * weight_of(level))
            }
            None => None,
        }
    }

    /// The first tick at which a slot with a timer begins.
    fn first_begin(&self) -> Option<u64>
        ensures { IsFoundBelow (IsBegin Wide self.now.buckets) Wide self.now.buckets
            (length wide) result }
    {
        let count = wheel_count();
        let mut first = None;
        let mut wheel = 0;
        while wheel < count {
            if is_settled(self.buckets.tick, wheel, first) {
                return first;
            }
            first = self.begin_before(wheel, first);
            wheel += 1;
        }
        first
    }

    /// The begin of a wheel's first slot with a timer, if it is before that of the wheels below.
    fn begin_before(&self, wheel: usize, first: Option<u64>) -> Option<u64>
        requires wheel { wheel < length wide }
        requires below { IsFoundBelow (IsBegin Wide self.now.buckets) Wide self.now.buckets wheel first }
        ensures { IsFoundBelow (IsBegin Wide self.now.buckets) Wide self.now.buckets (wheel + 1) result }
    {
        match self.first_slot(wheel) {
            Some(slot) => earlier(first, Some(slot * weight_of(wheel))),
            None => first,
        }
    }
}

/// The tick at which a slot ahead matters: on wheel 0 its timers are due, on a higher one its bucket begins to be the next.
fn event_of(wheel: usize, slot: u64) -> u64
    requires wheel { wheel < length wide }
    requires slot { 0 < slot }
    requires begins { slot * weight wheel wide ≤ LAST }
    ensures { result ≡ event_tick wide wheel slot }
{
    if wheel == 0 {
        return slot;
    }
    (slot - 1) * weight_of(wheel)
}

/// Whether a tick ahead is in the present slot of a wheel. No timer of that wheel, or of one above, is in that slot.
fn is_in_present(now: u64, wheel: usize, tick: u64) -> bool
    requires { wheel < length wide }
    ensures { result ≡ true → slot_in wide wheel tick ≤ slot_in wide wheel now }
{
    slot_of(wheel, tick) <= slot_of(wheel, now)
}

/// Whether what was found on the wheels below is before all timers of this wheel and of those above.
fn is_settled(now: u64, wheel: usize, first: Option<u64>) -> bool
    requires { wheel < length wide }
    ensures { result ≡ true → IsInPresent wide wheel now first }
{
    match first {
        Some(tick) => is_in_present(now, wheel, tick),
        None => false,
    }
}

/// Whether a first deadline is after a tick, or there is none yet.
fn is_after(first: Option<u64>, tick: u64) -> bool
    ensures { result ≡ false → IsNotBefore first tick }
{
    match first {
        Some(deadline) => deadline > tick,
        None => true,
    }
}
