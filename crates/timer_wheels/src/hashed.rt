//! The hashed timing wheel: Scheme 6 of G. Varghese and T. Lauck, "Hashed and Hierarchical Timing
//! Wheels", SOSP 1987.
//!
//! N buckets. A timer goes to the back of bucket (deadline mod N), with its rounds: how often the
//! clock still passes its slot before it is due, (interval - 1) div N. Tick t sweeps bucket (t mod N)
//! alone, from its front: a timer with no rounds left is due, and any other has one round fewer.
//!
//!     N = 8, at tick 0, intervals 1, 8, 9, 16, 8 (written serial:rounds, from the front)
//!                bucket 0        bucket 1     due
//!     started    2:0 4:1 5:0     1:0 3:1
//!     tick 1     2:0 4:1 5:0     3:0          1
//!     tick 8     4:0             3:0          2 5
//!
//! Timer 4, followed to its end: 16 mod 8 is 0 and (16 - 1) div 8 is 1, so it stands in bucket 0 with
//! one round. Tick 8 leaves it there with no round. Tick 16 finds it there, and it is due.
//!
//! A bucket is in order of starting and not of deadlines, so a start needs no walk. The rounds are
//! counted from the interval less 1, since an interval of N ends when the clock is back at the slot
//! for the first time.
ghost use Rattle.std.specs.Prelude.{◌≡◌, ◌<◌, ◌≤◌, ◌+◌, ◌-◌, ◌%◌, [], IfOk, IfErr, OnOk, OnErr, None};
ghost use Rattle.std.specs.Option.{IfSome};
ghost use Rattle.timer_base.specs.declared.limits.TheConstants.{LAST};
ghost use Rattle.timer_base.specs.Layout.{OneWheel};
ghost use Rattle.timer_base.specs.WakeUps.{IsQuietUntil};
ghost use Rattle.timer_base.specs.WheelState.{empty_wheel, held_at, old_timer, after_reserve, after_replacement, Advances};
ghost use Rattle.timer_wheels.specs.BucketLaws.{AreInOrder-prop};
ghost use Rattle.timer_wheels.specs.BucketLists.{AreInOrder, slots_in};
ghost use Rattle.timer_wheels.specs.Buckets.{IsListOf};
ghost use Rattle.timer_wheels.specs.hashed.Hashed.{slot_of, rounds_of, IsHashed, AreInBuckets, AreInBuckets-prop, IsNextSweep};
ghost use Rattle.timer_wheels.specs.WakeUps.{earliest_sweep};

use crate::buckets::Buckets;
use crate::deadlines::first_deadline_by_walk;
use crate::hashed::revolutions::skip_revolutions;
use crate::hashed::sweep::{next_sweep, slot_after, sweep_tick};
use std::alloc::Global;
use timer_base::{Handle, LAST, MakeFault, OutOfMemory, Timer, Wheel};
use timer_links::Links;

mod revolutions;
mod sweep;

/// The greatest number of slots of a hashed wheel.
pub const MAX_SLOTS: usize = 65536;

/// A table of buckets with a count of rounds (Scheme 6): a clock of 2^60 ticks.
///
/// At about 4.29 billion timers, the most that its links can name (after a `reserve` maybe at half of them),
/// `start` returns out of memory though no allocation failed.
#[derive(Drop)]
pub struct HashedWheel {
    buckets: Buckets,
    // That of the present tick.
    slot: usize,
    ghost to_last: { buckets.last_tick ≡ LAST },
    ghost has_slots: { 0 < buckets.slots },
    ghost slots_in_range: { buckets.slots ≤ 65536 },
    ghost at_tick: { slot ≡ buckets.tick % buckets.slots },
    ghost in_buckets: { AreInBuckets buckets.slots buckets.tick buckets.links.lists } by { AreInBuckets-prop
        buckets.slots buckets.tick buckets.links.lists },
    ghost in_order: { AreInOrder buckets.slots buckets.links.lists } by { AreInOrder-prop buckets.slots buckets.links.lists },
}

impl HashedWheel {
    ghost use Rattle.timer_wheels.specs.hashed.HashedWheel.{hashed_state, slots_of, argument_fault, IsHashedFault};

    /// A wheel with no timer, of 1 to 65,536 slots, at a first tick of at most `LAST`.
    ///
    /// Errors, in this order: `Slots` if there are none or more than `MAX_SLOTS`; `FirstTick` above
    /// `LAST`; `OutOfMemory`.
    pub fn new(alloc: Global, slots: usize, first_tick: u64) -> Result<HashedWheel, MakeFault>
        ensures ok { IfOk result (λ wheel. hashed_state wheel ≡ empty_wheel (OneWheel slots) LAST first_tick) }
        ensures slots { IfOk result (λ wheel. slots_of wheel ≡ slots) }
        ensures no_fault { IfOk result (λ wheel. argument_fault slots first_tick ≡ None) }
        ensures err { IfErr result (λ fault. IsHashedFault slots first_tick fault) }
    {
        if slots == 0 || slots > MAX_SLOTS {
            return Err(MakeFault::Slots);
        }
        if first_tick > LAST {
            return Err(MakeFault::FirstTick);
        }
        let Ok(buckets) = Buckets::new(alloc, slots, LAST, first_tick) else {
            return Err(MakeFault::OutOfMemory);
        };
        let slot = (first_tick % slots as u64) as usize;
        Ok(HashedWheel { buckets, slot })
    }

    /// How many slots there are. Does not allocate.
    pub fn slots(&self) -> usize
        ensures { result ≡ slots_of self.now }
    {
        self.buckets.slots
    }

    /// The buckets, and after them the list of due timers. Does not allocate.
    ///
    /// List s, for s below the number N of slots, holds the pending timers with deadline mod N = s,
    /// by serial, each under its handle's place with (deadline - now - 1) div N rounds. List N holds
    /// the due ones, by serial.
    pub fn links(&self) -> &Links
        ensures { IsHashed (slots_of self.now) (hashed_state self.now) result.now.lists }
    {
        &self.buckets.links
    }

    /// The list and the rounds of a timer that is started now: its bucket, or the list of due timers if its
    /// deadline is now.
    #[inline(always)]
    #[tactic(auto, using(crate::proofs::hashed_lemmas::Ticks::slot_from))]
    fn list_and_rounds(&self, timer: Timer) -> (usize, u64)
        requires not_past { (hashed_state self.now).now ≤ timer.deadline }
        ensures list { IsListOf result.0 (slots_of self.now) (hashed_state self.now).now timer.deadline }
        ensures bucket { (hashed_state self.now).now < timer.deadline → result.0 ≡ slot_of (slots_of self.now) timer }
        ensures rounds { (hashed_state self.now).now < timer.deadline
            → result.1 ≡ rounds_of (slots_of self.now) (hashed_state self.now).now timer }
    {
        let buckets = &self.buckets;
        let slots = buckets.slots;
        if timer.deadline <= buckets.tick {
            return (slots, 0);
        }
        // What is left of the interval after the next tick: one division gives its rounds and its slots.
        let rest = timer.deadline - buckets.tick - 1;
        let rounds = rest / slots as u64;
        let steps = (rest % slots as u64) as usize + 1;
        (slot_after(self.slot, steps, slots), rounds)
    }

    /// Passes at least one and at most `most` ticks, one by one, up to the first at which something is due,
    /// and returns how many.
    fn tick_until_due(&mut self, most: u64) -> u64
        requires nothing_due { (hashed_state self.old).due ≡ [] }
        requires some { 0 < most }
        requires before_last { most ≤ (hashed_state self.old).last_tick - (hashed_state self.old).now }
        ensures { Advances most result (hashed_state self.old) (hashed_state self.new) }
    {
        for passed in 0..most {
            self.per_tick();
            if self.has_due() {
                return passed + 1;
            }
        }
        most
    }
}

impl Wheel for HashedWheel {
    ghost use Rattle.timer_wheels.specs.hashed.HashedWheel.{hashed_state, slots_of};
    ghost use Rattle.timer_wheels.specs.Buckets.{state_of-well_formed};

    ghost state = { λ wheel. hashed_state wheel };

    ghost wakes = { λ layout now pending wake. wake ≡ earliest_sweep (slots_in layout) now pending };

    ghost well_formed = { λ wheel. state_of-well_formed wheel.buckets };

    fn last_tick(&self) -> u64 {
        self.buckets.last_tick
    }

    fn now(&self) -> u64 {
        self.buckets.tick
    }

    fn len(&self) -> usize {
        self.buckets.len()
    }

    fn has_due(&self) -> bool {
        self.buckets.has_due()
    }

    fn last_serial(&self) -> u64 {
        self.buckets.last_serial
    }

    fn start(&mut self, timer: Timer) -> Result<Handle, OutOfMemory> {
        let (list, rounds) = self.list_and_rounds(timer);
        self.buckets.start(list, timer, rounds)
    }

    fn reserve(&mut self, most: usize) -> Result<(), OutOfMemory>
        ensures ok { OnOk result (hashed_state self.new ≡ after_reserve most (hashed_state self.old)) }
        ensures more { OnErr result ((hashed_state self.old).room < most) }
        ensures err { OnErr result (hashed_state self.new ≡ hashed_state self.old) }
    {
        self.buckets.reserve(most)
    }

    fn look(&self, handle: Handle) -> Option<Timer> {
        self.buckets.look(handle)
    }

    fn stop(&mut self, handle: Handle) -> Option<Timer> {
        self.buckets.stop(handle)
    }

    fn restart(&mut self, handle: Handle, timer: Timer) -> Option<(Handle, Timer)>
        requires not_past { (hashed_state self.old).now ≤ timer.deadline }
        requires deadline { timer.deadline ≤ (hashed_state self.old).last_tick }
        requires fresh { (hashed_state self.old).last_serial < timer.serial }
        requires serial { timer.serial ≤ LAST }
        ensures old { old_timer result ≡ held_at handle (hashed_state self.old) }
        ensures named { IfSome result (λ r. r.0.serial ≡ timer.serial) }
        ensures place { IfSome result (λ r. r.0.place ≡ handle.place) }
        ensures restarted { hashed_state self.new ≡ after_replacement result handle timer (hashed_state self.old) }
    {
        let (list, rounds) = self.list_and_rounds(timer);
        self.buckets.restart(handle, list, timer, rounds)
    }

    fn per_tick(&mut self) {
        let buckets = &mut self.buckets;
        let slot = slot_after(self.slot, 1, buckets.slots);
        sweep_tick(buckets, slot);
        self.slot = slot;
    }

    /// Takes single ticks for a revolution, and then skips whole revolutions in which nothing is due: at most
    /// two revolutions of ticks and two walks along all timers, however far the next deadline is.
    fn advance(&mut self, most: u64) -> u64 {
        let revolution = self.slots() as u64;
        let mut passed = 0;
        while passed < most {
            passed += self.tick_until_due(revolution.min(most - passed));
            if self.has_due() {
                return passed;
            }
            passed += skip_revolutions(&mut self.buckets, most - passed);
        }
        most
    }

    /// The tick of the first slot ahead that has a timer, due then or a revolution or more later. Each slot
    /// before it is looked at.
    fn quiet_until(&self) -> Option<u64>
        ensures next { IfSome result (λ tick. IsNextSweep (slots_of self.now) tick (hashed_state self.now)) }
        ensures quiet { IsQuietUntil result (hashed_state self.now).now (hashed_state self.now).pending }
        ensures exact { result ≡ earliest_sweep (slots_in (hashed_state self.now).layout) (hashed_state self.now).now
            (hashed_state self.now).pending }
    {
        next_sweep(&self.buckets, self.slot)
    }

    /// Found by a walk along every bucket: a bucket has timers of many revolutions.
    fn next_deadline(&self) -> Option<u64> {
        first_deadline_by_walk(&self.buckets)
    }

    fn expire(&mut self) -> Option<Timer> {
        self.buckets.expire()
    }

    fn list(&self) -> Result<Vec<Timer>, OutOfMemory> {
        self.buckets.list()
    }

    fn list_into(&self, timers: &mut Vec<Timer>) -> Result<(), OutOfMemory> {
        self.buckets.list_into(timers)
    }

    fn clear(&mut self) {
        self.buckets.clear()
    }
}
