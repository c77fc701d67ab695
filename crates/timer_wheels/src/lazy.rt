//! The lazy wheel: Scheme 7 in which a push back touches no link.
//!
//! A server's time-out is pushed back at each packet, and seldom expires. Here a restart for a deadline that is not before
//! the old one stores the new timer where the old one stands. The bucket is then visited before the deadline. At that visit
//! a timer that is not due yet is filed anew, as one that is started then. So a timer is filed once for each visit, and
//! not at each packet.
//!
//! One timer of `Wide`, started at tick 0 for 70, pushed back at tick 60 for 130 and at tick 63 for 133:
//!
//!      now   deadline   the timer stands in
//!        0         70   wheel 1, slot 1
//!       60        130   wheel 1, slot 1          pushed back: nothing moves
//!       63        133   wheel 1, slot 1
//!       64        133   wheel 1, slot 2          visited, and filed anew
//!      128        133   wheel 0, slot 5
//!      133        133   the due list
//!
//! The timers of a bucket stand in no order. What is due at a tick is put in the order of starting, if it isn't (`sorts`):
//! a tick with k timers due may take k log k steps. After each start or restart a timer is filed anew at most once in each
//! wheel.
//!
//!     files      the buckets, their bits, and what changes them between ticks
//!     leaps      ticks, and leaps over those at which nothing happens
//!     filing     one bucket is emptied
ghost use Rattle.std.specs.Prelude.{◌≡◌, ◌<◌, ◌≤◌, ◌+◌, ◌-◌, ◌*◌, [], length, IfOk, IfErr, IfSome, IsSome, OnOk, OnErr, MatchOption, MatchResult};
ghost use Rattle.timer_base.specs.WakeUps.{IsQuietUntil};
ghost use Rattle.timer_base.specs.WheelState.{empty_wheel, held_at, held_count, old_timer, first_due, after_reserve, after_held_start, after_removal, after_replacement, after_tick, after_expiry, after_clear, Advances};
ghost use Rattle.timer_base.specs.declared.limits.TheConstants.{LAST};
ghost use Rattle.timer_wheels.specs.HeldPlaces.{IsFirstHeld};
ghost use Rattle.timer_wheels.specs.Tables.{radices, last_of_table, layout_of_table};

use crate::buckets::Buckets;
use crate::iteration::held_from;
use crate::lazy::files::Files;
use crate::table::{Table, last_tick_of};
use std::alloc::Global;
use timer_base::{Handle, MakeFault, OutOfMemory, Timer, Wheel};
use timer_links::{Kept, Links};

mod files;
mod filing;
mod leaps;
mod sorts;

/// Wheels with the slots of a table, in which a restart for a deadline that is not before the old one touches no link.
///
/// `N` is what its lists keep of a timer. A start and a restart take the timers that it can give back whole; `Timer` keeps
/// all of them.
#[derive(Drop)]
pub struct LazyWheel<N: Kept = Timer> {
    files: Files<N>,
}

impl LazyWheel {
    ghost use Rattle.timer_wheels.specs.hier.HierWheel.{IsHierFault};
    ghost use Rattle.timer_wheels.specs.lazy.LazyWheel.{lazy_state, lazy_table, lazy_counts};

    /// An empty wheel at its first tick.
    ///
    /// Errors, in this order: `FirstTick` above the table's last tick, which is `LAST` or
    /// `LAST_OF_CLOCK`; `OutOfMemory`.
    pub fn with_table(alloc: Global, table: Table, first_tick: u64) -> Result<LazyWheel, MakeFault>
        ensures state { IfOk result (λ wheel. lazy_state wheel
            ≡ empty_wheel (layout_of_table table) (last_of_table table) first_tick) }
        ensures counts { IfOk result (λ wheel. lazy_counts wheel ≡ record {
          starts = 0;
          filings = 0;
        }) }
        ensures table { IfOk result (λ wheel. lazy_table wheel ≡ table) }
        ensures in_range { IfOk result (λ wheel. first_tick ≤ last_of_table table) }
        ensures fault { IfErr result (λ fault. IsHierFault (last_of_table table) first_tick fault) }
    {
        LazyWheel::keeping(alloc, table, first_tick)
    }
}

impl<N: Kept> LazyWheel<N> {
    ghost use Rattle.timer_wheels.specs.hier.HierWheel.{IsHierFault};
    ghost use Rattle.timer_wheels.specs.lazy.LazyWheel.{lazy_state, lazy_table, lazy_counts, ShowsFiled};

    /// The same as `with_table`, whose lists keep of a timer what `N` says.
    pub fn keeping(alloc: Global, table: Table, first_tick: u64) -> Result<LazyWheel<N>, MakeFault>
        ensures state { IfOk result (λ wheel. lazy_state wheel
            ≡ empty_wheel (layout_of_table table) (last_of_table table) first_tick) }
        ensures counts { IfOk result (λ wheel. lazy_counts wheel ≡ record {
          starts = 0;
          filings = 0;
        }) }
        ensures table { IfOk result (λ wheel. lazy_table wheel ≡ table) }
        ensures in_range { IfOk result (λ wheel. first_tick ≤ last_of_table table) }
        ensures fault { IfErr result (λ fault. IsHierFault (last_of_table table) first_tick fault) }
    {
        if first_tick > last_tick_of(table) {
            return Err(MakeFault::FirstTick);
        }
        let Ok(files) = Files::new(alloc, table, first_tick) else {
            return Err(MakeFault::OutOfMemory);
        };
        Ok(LazyWheel { files })
    }

    /// The buckets, then 35 lists that are empty, and the list of due timers.
    ///
    /// Slot s of wheel k is the list whose number is s more than the lower wheels have slots. A pending timer stands in a
    /// bucket that is visited after now, and at most at the timer's deadline. The timers of a bucket stand in no order, each
    /// under its handle's place, with rounds 0. Does not allocate.
    pub fn links(&self) -> &Links<N>
        ensures { ShowsFiled (radices (lazy_table self.now)) (lazy_state self.now) result.now.lists }
    {
        &self.files.buckets.links
    }

    /// The table whose slots the wheels have, which stays as it was chosen. Does not allocate.
    pub fn table(&self) -> Table
        ensures table { result ≡ lazy_table self.now }
        ensures layout { (lazy_state self.now).layout ≡ layout_of_table result }
    {
        self.files.table
    }

    /// How many timers were started or restarted since the wheel was made. Does not allocate.
    pub fn starts(&self) -> u64
        ensures { result ≡ (lazy_counts self.now).starts }
    {
        self.files.counts.starts
    }

    /// How many times a timer was filed anew, at a visit of its bucket, since the wheel was made. Does not allocate.
    ///
    /// At most once in each wheel after a start or restart: ten times in `Table::Wide`.
    pub fn filings(&self) -> u64
        ensures value { result ≡ (lazy_counts self.now).filings }
        ensures at_most { result ≤ length (radices (lazy_table self.now)) * (lazy_counts self.now).starts }
    {
        self.files.counts.filings
    }

    /// Whether a node is ready for the next timer. Nothing depends on it but how a start is compiled.
    #[inline]
    pub(crate) fn is_ready(&self) -> bool {
        self.files.buckets.links.is_ready()
    }

    /// The clock and the buckets.
    #[inline]
    pub(crate) fn buckets(&self) -> &Buckets<N>
        ensures { result.now ≡ self.now.files.buckets }
    {
        &self.files.buckets
    }

    /// The handle of the timer, pending or due, at this place or the first later one that has a timer, or
    /// None when there is none. Does not allocate.
    ///
    /// It looks at each place on the way: in practice at most 63 more than there ever were timers at one time.
    pub fn held_from(&self, place: usize) -> Option<Handle>
        ensures first { IsFirstHeld place (lazy_state self.now) result }
        ensures in_range { IfSome result (λ handle. handle.place < 4294967296) }
    {
        held_from(&self.files.buckets, place)
    }
}

impl<N: Kept> Wheel for LazyWheel<N> {
    ghost use Rattle.timer_wheels.specs.lazy.Files.{StaysInPlace, with_start, with_filings};
    ghost use Rattle.timer_wheels.specs.lazy.LazyWheel.{lazy_state, lazy_lists, lazy_counts, lazy_left, lazy_filed_next, lazy-well_formed};

    ghost state = { λ wheel. lazy_state wheel };

    ghost wakes = { λ layout now pending wake. IsQuietUntil wake now pending };

    ghost keeps = { λ timer. N.keeps (record { timer = timer; rounds = 0 }) };

    fn last_tick(&self) -> u64 {
        self.files.buckets.last_tick
    }

    fn now(&self) -> u64 {
        self.files.buckets.tick
    }

    fn len(&self) -> usize {
        self.files.buckets.len()
    }

    fn has_due(&self) -> bool {
        self.files.buckets.has_due()
    }

    fn last_serial(&self) -> u64 {
        self.files.buckets.last_serial
    }

    #[inline(always)]
    fn start(&mut self, timer: Timer) -> Result<Handle, OutOfMemory>
        requires not_past { (lazy_state self.old).now ≤ timer.deadline }
        requires deadline { timer.deadline ≤ (lazy_state self.old).last_tick }
        requires fresh { (lazy_state self.old).last_serial < timer.serial }
        requires serial { timer.serial ≤ LAST }
        requires keeps { N.keeps (record { timer = timer; rounds = 0 }) }
        ensures named { IfOk result (λ handle. handle.serial ≡ timer.serial) }
        ensures started { IfOk result (λ handle. lazy_state self.new
            ≡ after_held_start handle.place timer (lazy_state self.old)) }
        ensures full { OnErr result ((lazy_state self.old).room ≤ held_count (lazy_state self.old)) }
        ensures err { OnErr result (lazy_state self.new ≡ lazy_state self.old) }
        ensures counts { MatchResult result (λ _. lazy_counts self.new ≡ with_start (lazy_counts self.old))
            (λ _. lazy_counts self.new ≡ lazy_counts self.old) }
    {
        self.files.start(timer)
    }

    fn reserve(&mut self, most: usize) -> Result<(), OutOfMemory>
        ensures ok { OnOk result (lazy_state self.new ≡ after_reserve most (lazy_state self.old)) }
        ensures more { OnErr result ((lazy_state self.old).room < most) }
        ensures err { OnErr result (lazy_state self.new ≡ lazy_state self.old) }
        ensures counts { lazy_counts self.new ≡ lazy_counts self.old }
    {
        self.files.reserve(most)
    }

    fn look(&self, handle: Handle) -> Option<Timer> {
        self.files.buckets.look(handle)
    }

    fn stop(&mut self, handle: Handle) -> Option<Timer>
        ensures timer { result ≡ held_at handle (lazy_state self.old) }
        ensures stopped { lazy_state self.new ≡ after_removal handle (lazy_state self.old) }
        ensures counts { lazy_counts self.new ≡ lazy_counts self.old }
    {
        self.files.stop(handle)
    }

    /// If the timer is pending, and the new deadline is not before the old one, no link changes.
    #[inline(always)]
    fn restart(&mut self, handle: Handle, timer: Timer) -> Option<(Handle, Timer)>
        requires not_past { (lazy_state self.old).now ≤ timer.deadline }
        requires deadline { timer.deadline ≤ (lazy_state self.old).last_tick }
        requires fresh { (lazy_state self.old).last_serial < timer.serial }
        requires serial { timer.serial ≤ LAST }
        requires keeps { N.keeps (record { timer = timer; rounds = 0 }) }
        ensures old { old_timer result ≡ held_at handle (lazy_state self.old) }
        ensures named { IfSome result (λ r. r.0.serial ≡ timer.serial) }
        ensures place { IfSome result (λ r. r.0.place ≡ handle.place) }
        ensures restarted { lazy_state self.new ≡ after_replacement result handle timer (lazy_state self.old) }
        ensures in_place { StaysInPlace handle timer (lazy_state self.old) (lazy_lists self.old) (lazy_lists self.new) }
        ensures counts { MatchOption result (lazy_counts self.new ≡ lazy_counts self.old)
            (λ _. lazy_counts self.new ≡ with_start (lazy_counts self.old)) }
    {
        self.files.restart(handle, timer)
    }

    /// No test is made whether the timer is there, or may stay in its bucket.
    #[inline(always)]
    fn restart_later(&mut self, handle: Handle, timer: Timer) -> Handle
        requires held { IsSome (held_at handle (lazy_state self.old)) }
        requires later { (lazy_state self.old).now < timer.deadline }
        requires deadline { timer.deadline ≤ (lazy_state self.old).last_tick }
        requires fresh { (lazy_state self.old).last_serial < timer.serial }
        requires serial { timer.serial ≤ LAST }
        requires keeps { N.keeps (record { timer = timer; rounds = 0 }) }
        ensures named { result.serial ≡ timer.serial }
        ensures place { result.place ≡ handle.place }
        ensures restarted { lazy_state self.new
            ≡ after_held_start result.place timer (after_removal handle (lazy_state self.old)) }
        ensures counts { lazy_counts self.new ≡ with_start (lazy_counts self.old) }
    {
        self.files.restart_later(handle, timer)
    }

    /// Of the bucket that it visits, each timer that is not due is filed anew.
    #[inline(always)]
    fn per_tick(&mut self)
        requires nothing_due { (lazy_state self.old).due ≡ [] }
        requires before_last { (lazy_state self.old).now < (lazy_state self.old).last_tick }
        ensures ticked { lazy_state self.new ≡ after_tick (lazy_state self.old) }
        ensures counts { lazy_counts self.new ≡ with_filings (lazy_filed_next self.old) (lazy_counts self.old) }
        ensures counted { (lazy_counts self.new).filings + lazy_left self.new
            ≤ (lazy_counts self.old).filings + lazy_left self.old }
    {
        self.files.next_tick();
    }

    /// Each bucket with timers that is visited on the way is emptied, as by `per_tick`.
    #[inline(always)]
    fn advance(&mut self, most: u64) -> u64
        requires nothing_due { (lazy_state self.old).due ≡ [] }
        requires some { 0 < most }
        requires before_last { most ≤ (lazy_state self.old).last_tick - (lazy_state self.old).now }
        ensures advances { Advances most result (lazy_state self.old) (lazy_state self.new) }
        ensures starts { (lazy_counts self.new).starts ≡ (lazy_counts self.old).starts }
        ensures counted { (lazy_counts self.new).filings + lazy_left self.new
            ≤ (lazy_counts self.old).filings + lazy_left self.old }
    {
        self.files.advance(most)
    }

    /// The first tick that visits a bucket with a timer. It is found without a walk, and depends on where timers were
    /// filed.
    fn quiet_until(&self) -> Option<u64>
        ensures quiet { IsQuietUntil result (lazy_state self.now).now (lazy_state self.now).pending }
    {
        self.files.first_visit()
    }

    /// Found by a walk along the buckets in the order of their visits, up to one that isn't visited before a deadline that
    /// was found.
    fn next_deadline(&self) -> Option<u64> {
        self.files.next_deadline()
    }

    fn expire(&mut self) -> Option<Timer>
        ensures first { result ≡ first_due (lazy_state self.old) }
        ensures rest { lazy_state self.new ≡ after_expiry (lazy_state self.old) }
        ensures counts { lazy_counts self.new ≡ lazy_counts self.old }
    {
        self.files.expire()
    }

    fn list(&self) -> Result<Vec<Timer>, OutOfMemory> {
        self.files.buckets.list()
    }

    fn list_into(&self, timers: &mut Vec<Timer>) -> Result<(), OutOfMemory> {
        self.files.buckets.list_into(timers)
    }

    fn clear(&mut self)
        ensures cleared { lazy_state self.new ≡ after_clear (lazy_state self.old) }
        ensures counts { lazy_counts self.new ≡ lazy_counts self.old }
    {
        self.files.clear();
    }

    ghost well_formed = { λ wheel. lazy-well_formed wheel };
}
