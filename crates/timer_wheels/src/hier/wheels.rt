//! A hierarchy of wheels: the buckets of a table of radices, and a bit for each bucket that has a timer.
//!
//! A call that puts a timer into a bucket sets the bucket's bit, and one that takes the last timer out of it clears it.
//! The list of due timers is no bucket, and has no bit.
//! So the clock finds the next bucket with a timer among the bits, and looks at no other (`leap`). One tick is in
//! `migration`.
ghost use Rattle.std.specs.Prelude.{◌≡◌, ◌<◌, ◌≤◌, ◌+◌, [], IfOk, OnErr, IfSome, IfNone, length};
ghost use Rattle.timer_base.specs.declared.limits.TheConstants.{LAST};
ghost use Rattle.timer_base.specs.WakeUps.{next_deadline};
ghost use Rattle.timer_base.specs.WheelState.{empty_wheel, held_at, held_count, old_timer, after_held_start, after_removal, after_replacement, after_tick, after_clear};
ghost use Rattle.timer_wheels.specs.Buckets.{state_of, IsListOf};
ghost use Rattle.timer_wheels.specs.hier.Leap.{list_visit};
ghost use Rattle.timer_wheels.specs.Digits.{bucket, emptied, slots, last_of, lowest_radix};
ghost use Rattle.timer_wheels.specs.Tables.{radices};
ghost use Rattle.timer_wheels.specs.hier.Hier.{IsHier, IsHier-prop, potential};

use crate::buckets::Buckets;
use crate::deadlines::least_in;
use crate::hier::migration::empty_bucket;
use crate::occupied::{Occupied, enter, leave};
use crate::table::{
    Table, bucket_of, buckets_of, last_tick_of, lowest_slots, visit_of, with_constant_table,
};
use std::alloc::Global;
use timer_base::{Handle, OutOfMemory, Timer};
use timer_links::Kept;

/// The buckets of a table, and which of them have a timer.
#[derive(Drop)]
pub struct Wheels<N: Kept = Timer> {
    /// The radices, which no call changes.
    pub table: Table,
    /// A bucket for each slot of each wheel.
    pub buckets: Buckets<N>,
    /// Which buckets have a timer.
    pub occupied: Occupied,
    ghost hier: { IsHier table buckets occupied } by { IsHier-prop table buckets occupied },
}

impl<N: Kept> Wheels<N> {
    ghost use Rattle.timer_wheels.specs.hier.Placement.{hops_of};
    ghost use Rattle.timer_base.specs.Layout.{OneWheel};
    ghost use Rattle.timer_wheels.specs.Tables.{last_of_table, slots_of_table};

    /// Makes the empty buckets of a table.
    pub fn new(alloc: Global, table: Table, first_tick: u64) -> Result<Wheels<N>, OutOfMemory>
        requires { first_tick ≤ last_of_table table }
        ensures state { IfOk result (λ wheels. state_of wheels.buckets
            ≡ empty_wheel (OneWheel (slots_of_table table)) (last_of_table table) first_tick) }
        ensures table { IfOk result (λ wheels. wheels.table ≡ table) }
    {
        let slots = buckets_of(table);
        let buckets = Buckets::new(alloc, slots, last_tick_of(table), first_tick)?;
        Ok(Wheels {
            table,
            buckets,
            occupied: Occupied::new(),
        })
    }

    /// The list of a timer that is started now: its bucket, or the list of due timers if its deadline is now.
    #[inline(always)]
    fn list_of(&self, deadline: u64) -> usize
        requires not_past { self.now.buckets.tick ≤ deadline }
        requires deadline { deadline ≤ self.now.buckets.last_tick }
        ensures list { IsListOf result self.now.buckets.slots self.now.buckets.tick deadline }
        ensures bucket { self.now.buckets.tick < deadline
            → result ≡ bucket (radices self.now.table) self.now.buckets.tick deadline }
        ensures in_table { self.now.buckets.tick < deadline → result < slots (radices self.now.table) }
    {
        let buckets = &self.buckets;
        if deadline > buckets.tick {
            bucket_of(self.table, buckets.tick, deadline)
        } else {
            buckets.slots
        }
    }

    /// Starts a timer, in its bucket or as the last of the due ones.
    #[inline(always)]
    pub fn start(&mut self, timer: Timer) -> Result<Handle, OutOfMemory>
        requires not_past { self.old.buckets.tick ≤ timer.deadline }
        requires deadline { timer.deadline ≤ self.old.buckets.last_tick }
        requires fresh { self.old.buckets.last_serial < timer.serial }
        requires serial { timer.serial ≤ LAST }
        requires keeps { N.keeps (record { timer = timer; rounds = 0 }) }
        ensures named { IfOk result (λ handle. handle.serial ≡ timer.serial) }
        ensures started { IfOk result (λ handle. state_of self.new.buckets
            ≡ after_held_start handle.place timer (state_of self.old.buckets)) }
        ensures full { OnErr result ((state_of self.old.buckets).room
            ≤ held_count (state_of self.old.buckets)) }
        ensures err { OnErr result (state_of self.new.buckets ≡ state_of self.old.buckets) }
        ensures table { self.new.table ≡ self.old.table }
    {
        let tick = self.buckets.tick;
        let list = self.list_of(timer.deadline);
        let handle = self.buckets.start(list, timer, 0)?;
        enter(&mut self.occupied, tick, timer.deadline, list);
        Ok(handle)
    }

    /// Removes the timer with just this handle, pending or due. Does not allocate.
    #[inline]
    pub fn stop(&mut self, handle: Handle) -> Option<Timer>
        ensures timer { result ≡ held_at handle (state_of self.old.buckets) }
        ensures stopped { state_of self.new.buckets
            ≡ after_removal handle (state_of self.old.buckets) }
        ensures table { self.new.table ≡ self.old.table }
    {
        self.buckets.links.lemma_keys_unique();
        let (timer, emptied) = self.buckets.take(handle)?;
        leave(&mut self.occupied, self.buckets.slots, emptied);
        Some(timer)
    }

    /// Removes the timer with just this handle, and starts another at its place. Does not allocate.
    #[inline(always)]
    pub fn restart(&mut self, handle: Handle, timer: Timer) -> Option<(Handle, Timer)>
        requires not_past { self.old.buckets.tick ≤ timer.deadline }
        requires deadline { timer.deadline ≤ self.old.buckets.last_tick }
        requires fresh { self.old.buckets.last_serial < timer.serial }
        requires serial { timer.serial ≤ LAST }
        requires keeps { N.keeps (record { timer = timer; rounds = 0 }) }
        ensures old { old_timer result ≡ held_at handle (state_of self.old.buckets) }
        ensures named { IfSome result (λ r. r.0.serial ≡ timer.serial) }
        ensures place { IfSome result (λ r. r.0.place ≡ handle.place) }
        ensures restarted { state_of self.new.buckets
            ≡ after_replacement result handle timer (state_of self.old.buckets) }
        ensures table { self.new.table ≡ self.old.table }
    {
        self.buckets.links.lemma_keys_unique();
        let tick = self.buckets.tick;
        let list = self.list_of(timer.deadline);
        let (restarted, emptied) = self.buckets.replace(handle, list, timer, 0)?;
        leave(&mut self.occupied, self.buckets.slots, emptied);
        enter(&mut self.occupied, tick, timer.deadline, list);
        Some(restarted)
    }

    /// Advances to the next tick, which empties this bucket: that of its lowest digit that isn't zero.
    ///
    /// Returns how many timers went to a lower wheel. Does not allocate.
    #[inline(always)]
    pub fn visit_next(&mut self, list: usize) -> u64
        requires nothing_due { (state_of self.old.buckets).due ≡ [] }
        requires before_last { self.old.buckets.tick < self.old.buckets.last_tick }
        requires emptied { list ≡ emptied (radices self.old.table) (self.old.buckets.tick + 1) }
        requires in_range { list < slots (radices self.old.table) }
        ensures ticked { state_of self.new.buckets ≡ after_tick (state_of self.old.buckets) }
        ensures moves { result ≡ hops_of (radices self.old.table) self.old.buckets.tick 1
            (state_of self.old.buckets).pending }
        ensures falls { result + potential self.old.table self.new.buckets
            ≤ potential self.old.table self.old.buckets }
        ensures table { self.new.table ≡ self.old.table }
    {
        let tick = self.buckets.tick + 1;
        let buckets = &mut self.buckets;
        let moves = empty_bucket(
            self.table,
            &mut buckets.links,
            &mut self.occupied,
            list,
            tick,
        );
        buckets.tick = tick;
        moves
    }

    /// The first pending deadline, found in the first bucket with a timer. Does not allocate.
    ///
    /// A slot of wheel 0 is one tick, and so its deadline needs no walk.
    pub fn next_deadline(&self) -> Option<u64>
        ensures { result ≡ next_deadline (state_of self.now.buckets).pending }
    {
        let Some(list) = self.occupied.first() else {
            return None;
        };
        match self.lowest_visit(list) {
            Some(visit) => Some(visit),
            None => least_in(&self.buckets.links, list),
        }
    }

    /// The visit of a bucket of the lowest wheel, which is the deadline of its timers. None if the bucket is one of a higher
    /// wheel.
    #[inline(always)]
    fn lowest_visit(&self, list: usize) -> Option<u64>
        requires list { list < slots (radices self.now.table) }
        ensures some { IfSome result (λ visit. (list < lowest_radix (radices self.now.table))
            × (visit ≡ list_visit (radices self.now.table) list self.now.buckets.tick)) }
        ensures none { IfNone result (lowest_radix (radices self.now.table) ≤ list) }
    {
        let tick = self.buckets.tick;
        with_constant_table!(lowest_visit_by(self.table, list, tick))
    }

    /// Drops the pending timers. Does not allocate.
    pub fn clear(&mut self)
        ensures cleared { state_of self.new.buckets ≡ after_clear (state_of self.old.buckets) }
        ensures table { self.new.table ≡ self.old.table }
    {
        self.buckets.clear();
        self.occupied = Occupied::new();
    }
}

/// `lowest_visit` by the wheels' table.
#[inline(always)]
fn lowest_visit_by(table: Table, list: usize, now: u64) -> Option<u64>
    requires list { list < slots (radices table) }
    requires now { now ≤ last_of (radices table) }
    ensures some { IfSome result (λ visit. (list < lowest_radix (radices table))
        × (visit ≡ list_visit (radices table) list now)) }
    ensures none { IfNone result (lowest_radix (radices table) ≤ list) }
{
    if list < lowest_slots(table) {
        Some(visit_of(table, list, now))
    } else {
        None
    }
}
