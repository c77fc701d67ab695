//! The hierarchical timing wheel: Scheme 7 of G. Varghese and T. Lauck, "Hashed and Hierarchical
//! Timing Wheels", SOSP 1987.
//!
//! One body serves each `Table` of radices. Digit k of a tick t is t divided by the product of the lower
//! radices, modulo radix k, and wheel k has a slot for each value of digit k.
//!
//!     Wide: ticks 0 to 2^60 - 1
//!                                         a slot is      range, ahead of now    lists
//!     wheel 9   [ 0 | 1 | 2 | .. | 63 ]   64^9 ticks     64^10 - 1 ticks        576 to 639
//!       ..
//!     wheel 2   [ 0 | 1 | 2 | .. | 63 ]   4,096 ticks    262,143 ticks          128 to 191
//!     wheel 1   [ 0 | 1 | 2 | .. | 63 ]   64 ticks       4,095 ticks             64 to 127
//!     wheel 0   [ 0 | 1 | 2 | .. | 63 ]   1 tick         63 ticks                 0 to  63
//!     due                                                                       640
//!
//!     Clock: ticks 0 to 8,639,999
//!                                         a slot is      range, ahead of now    lists
//!     days      [ 0 | 1 | 2 | .. | 99 ]   86,400 ticks   8,639,999 ticks        144 to 243
//!     hours     [ 0 | 1 | 2 | .. | 23 ]   3,600 ticks    86,399 ticks           120 to 143
//!     minutes   [ 0 | 1 | 2 | .. | 59 ]   60 ticks       3,599 ticks             60 to 119
//!     seconds   [ 0 | 1 | 2 | .. | 59 ]   1 tick         59 ticks                 0 to  59
//!     due                                                                       244
//!
//!     Small: ticks 0 to 2^24 - 1
//!                                         a slot is      range, ahead of now    lists
//!     wheel 5   [ 0 | 1 | 2 | .. | 15 ]   16^5 ticks     16^6 - 1 ticks          80 to  95
//!       ..
//!     wheel 0   [ 0 | 1 | 2 | .. | 15 ]   1 tick         15 ticks                 0 to  15
//!     due                                                                        96
//!
//! A wheel's range is the farthest deadline that it can have. The nearest is the next tick, in every
//! wheel: before a rollover the deadline one tick ahead differs from now in a high digit.
//!
//! A pending timer stands in wheel k, slot s, where k is the highest digit in which its deadline
//! differs from now, and s is digit k of its deadline. A start puts it at the back of that bucket.
//! A tick empties one bucket, of the tick's lowest digit that isn't zero: a timer whose deadline it
//! is becomes due, and any other goes to the back of its bucket in a lower wheel.
//!
//! One timer of Wide, started at tick 0 for deadline 4161 = 1 * 4096 + 1 * 64 + 1:
//!
//!      now   digits 2 1 0   emptied           then the timer stands in
//!        0          0 0 0                     wheel 2, slot 1
//!     4096          1 0 0   wheel 2, slot 1   wheel 1, slot 1
//!     4160          1 1 0   wheel 1, slot 1   wheel 0, slot 1
//!     4161          1 1 1   wheel 0, slot 1   the due list
//!
//! And one of Clock, started at 11 days 10:24:30 for 11 days 11:15:15:
//!
//!         now   digits 3 2 1 0   emptied             then the timer stands in
//!     987,870      11 10 24 30                       hours, slot 11
//!     990,000      11 11  0  0   hours, slot 11      minutes, slot 15
//!     990,900      11 11 15  0   minutes, slot 15    seconds, slot 15
//!     990,915      11 11 15 15   seconds, slot 15    the due list
//!
//! A timer may skip wheels: in Wide one for 4097 moves once, from wheel 2 to wheel 0. Slot 0 of a wheel
//! stays empty, since at that wheel the deadline's digit is above that of now.
ghost use Rattle.std.specs.Prelude.{◌≡◌, ◌+◌, ◌-◌, ◌*◌, ◌<◌, ◌≤◌, [], IfOk, IfErr, OnOk, OnErr, MatchOption};
ghost use Rattle.std.specs.Option.{IfSome};
ghost use Rattle.timer_base.specs.declared.limits.TheConstants.{LAST};
ghost use Rattle.timer_base.specs.WakeUps.{IsQuietUntil};
ghost use Rattle.timer_base.specs.WheelState.{empty_wheel, held_at, old_timer, after_reserve, after_replacement, after_tick, Advances};
ghost use Rattle.timer_wheels.specs.Buckets.{state_of};
ghost use Rattle.timer_wheels.specs.hier.Leap.{IsNextVisit};
ghost use Rattle.timer_wheels.specs.Digits.{emptied, slots};
ghost use Rattle.timer_wheels.specs.Tables.{radices, radices_of, last_of_table, layout_of_table};
ghost use Rattle.timer_wheels.specs.declared.table.Table.TheVariants.{Wide};
ghost use Rattle.timer_wheels.specs.HeldPlaces.{IsFirstHeld};
ghost use Rattle.timer_wheels.specs.hier.Placement.{ShowsWheels, IsPaid, most_moves};
ghost use Rattle.timer_wheels.specs.WakeUps.{next_visit};

use crate::hier::counts::Counts;
use crate::hier::wheels::Wheels;
use crate::iteration::held_from;
use crate::table::{Table, emptied_at, last_tick_of};
use std::alloc::Global;
use timer_base::{Handle, LAST, MakeFault, OutOfMemory, Timer, Wheel};
use timer_links::{Kept, Links};

mod counts;
pub mod leap;
mod migration;
mod wheels;

/// Wheels with the slots of a table, whose timers go to lower wheels as the clock comes near their deadline.
///
/// A timer moves at most nine times in `Table::Wide` and three times in `Table::Clock`, and keeps its
/// place in the order of starting. At about 4.29 billion timers, the most that its links can name (after a
/// `reserve` maybe at half of them), `start` returns out of memory though no allocation failed.
///
/// `N` is what its lists keep of a timer. A start and a restart take the timers that it can give back whole; `Timer` keeps
/// all of them.
#[derive(Drop)]
pub struct HierWheel<N: Kept = Timer> {
    wheels: Wheels<N>,
    counts: Counts,
    ghost few_starts: { counts.starts ≤ wheels.buckets.last_serial },
    ghost few_skipped: { counts.skipped ≤ wheels.buckets.tick },
    // A start allows one move for each wheel but the highest, and each move lowers a level. So what is left
    // to move is counted too.
    ghost paid: { IsPaid (radices wheels.table) counts.starts counts.moves wheels.buckets.tick
        (state_of wheels.buckets).pending },
}

impl HierWheel {
    ghost use Rattle.timer_wheels.specs.hier.HierWheel.{hier_state, table_of, counts_of, IsHierFault};

    /// An empty hierarchy of ten wheels of 64 slots, a clock of 2^60 ticks, at its first tick.
    ///
    /// Errors, in this order: `FirstTick` above `LAST`; `OutOfMemory`.
    pub fn new(alloc: Global, first_tick: u64) -> Result<HierWheel, MakeFault>
        ensures state { IfOk result (λ wheel. hier_state wheel
            ≡ empty_wheel (layout_of_table Wide) LAST first_tick) }
        ensures counts { IfOk result (λ wheel. counts_of wheel ≡ record {
          starts = 0;
          moves = 0;
          visits = 0;
        }) }
        ensures table { IfOk result (λ wheel. table_of wheel ≡ Wide) }
        ensures in_range { IfOk result (λ wheel. first_tick ≤ LAST) }
        ensures fault { IfErr result (λ fault. IsHierFault LAST first_tick fault) }
    {
        HierWheel::with_table(alloc, Table::Wide, first_tick)
    }

    /// An empty hierarchy at its first tick, whose wheels have the slots of the table.
    ///
    /// Errors, in this order: `FirstTick` above the table's last tick, which is `LAST` or
    /// `LAST_OF_CLOCK`; `OutOfMemory`.
    pub fn with_table(alloc: Global, table: Table, first_tick: u64) -> Result<HierWheel, MakeFault>
        ensures state { IfOk result (λ wheel. hier_state wheel
            ≡ empty_wheel (layout_of_table table) (last_of_table table) first_tick) }
        ensures counts { IfOk result (λ wheel. counts_of wheel ≡ record {
          starts = 0;
          moves = 0;
          visits = 0;
        }) }
        ensures table { IfOk result (λ wheel. table_of wheel ≡ table) }
        ensures in_range { IfOk result (λ wheel. first_tick ≤ last_of_table table) }
        ensures fault { IfErr result (λ fault. IsHierFault (last_of_table table) first_tick fault) }
    {
        HierWheel::keeping(alloc, table, first_tick)
    }
}

impl<N: Kept> HierWheel<N> {
    ghost use Rattle.timer_wheels.specs.hier.HierWheel.{hier_state, table_of, counts_of, counts_of_tick, IsHierFault};

    /// The same as `with_table`, whose lists keep of a timer what `N` says.
    #[tactic(auto, using(crate::proofs::hier_lemmas::Invariant::new_paid))]
    pub fn keeping(alloc: Global, table: Table, first_tick: u64) -> Result<HierWheel<N>, MakeFault>
        ensures state { IfOk result (λ wheel. hier_state wheel
            ≡ empty_wheel (layout_of_table table) (last_of_table table) first_tick) }
        ensures counts { IfOk result (λ wheel. counts_of wheel ≡ record {
          starts = 0;
          moves = 0;
          visits = 0;
        }) }
        ensures table { IfOk result (λ wheel. table_of wheel ≡ table) }
        ensures in_range { IfOk result (λ wheel. first_tick ≤ last_of_table table) }
        ensures fault { IfErr result (λ fault. IsHierFault (last_of_table table) first_tick fault) }
    {
        if first_tick > last_tick_of(table) {
            return Err(MakeFault::FirstTick);
        }
        let Ok(wheels) = Wheels::new(alloc, table, first_tick) else {
            return Err(MakeFault::OutOfMemory);
        };
        let counts = Counts {
            starts: 0,
            moves: 0,
            skipped: first_tick,
        };
        Ok(HierWheel { wheels, counts })
    }

    /// The buckets, and after them the list of due timers, which is list 640 of `Table::Wide` and
    /// list 244 of `Table::Clock`.
    ///
    /// Slot s of wheel k is the list whose number is s more than the lower wheels have slots: `64 * k + s`
    /// in `Table::Wide`. The timers of a bucket stand by serial, each under its handle's place, with
    /// rounds 0. Does not allocate.
    pub fn links(&self) -> &Links<N>
        ensures { ShowsWheels (radices (table_of self.now)) (hier_state self.now) result.now.lists }
    {
        &self.wheels.buckets.links
    }

    /// The table whose slots the wheels have, which stays as it was chosen. Does not allocate.
    pub fn table(&self) -> Table
        ensures table { result ≡ table_of self.now }
        ensures layout { (hier_state self.now).layout ≡ layout_of_table result }
    {
        self.wheels.table
    }

    /// Advances by one tick, which empties this bucket.
    #[inline(always)]
    fn visit(&mut self, list: usize)
        requires nothing_due { (hier_state self.old).due ≡ [] }
        requires before_last { (hier_state self.old).now < (hier_state self.old).last_tick }
        requires emptied { list ≡ emptied (radices (table_of self.old)) ((hier_state self.old).now + 1) }
        requires in_range { list < slots (radices (table_of self.old)) }
        ensures ticked { hier_state self.new ≡ after_tick (hier_state self.old) }
        ensures counts { counts_of self.new ≡ counts_of_tick (hier_state self.old) (counts_of self.old) }
    {
        let moves = self.wheels.visit_next(list);
        let counts = &mut self.counts;
        counts.add_moves(moves);
    }

    /// How many timers were started or restarted since the wheel was made. Does not allocate.
    pub fn starts(&self) -> u64
        ensures { result ≡ (counts_of self.now).starts }
    {
        self.counts.starts
    }

    /// How many times a timer was put into a lower wheel since the wheel was made. Does not allocate.
    pub fn moves(&self) -> u64
        ensures value { result ≡ (counts_of self.now).moves }
        ensures at_most { result ≤ most_moves (radices (table_of self.now)) * (counts_of self.now).starts }
    {
        self.counts.moves
    }

    /// How many buckets were emptied since the wheel was made. Does not allocate.
    ///
    /// `per_tick` empties one. `advance` counts one at each multiple of the lowest wheel's slots that it
    /// passes, and that of its last tick if something is due then: buckets emptied, and those known to
    /// be empty are counted without a look.
    pub fn visits(&self) -> u64
        ensures { result ≡ (counts_of self.now).visits }
    {
        self.wheels.buckets.tick - self.counts.skipped
    }

    /// The handle of the timer, pending or due, at this place or the first later one that has a timer, or
    /// None when there is none. Does not allocate.
    ///
    /// It looks at each place on the way: in practice at most 63 more than there ever were timers at one time.
    pub fn held_from(&self, place: usize) -> Option<Handle>
        ensures first { IsFirstHeld place (hier_state self.now) result }
        ensures in_range { IfSome result (λ handle. handle.place < 4294967296) }
    {
        held_from(&self.wheels.buckets, place)
    }
}

impl<N: Kept> Wheel for HierWheel<N> {
    ghost use Rattle.timer_wheels.specs.hier.HierWheel.{hier_state, hier-well_formed, table_of, counts_of, with_counted_start, counts_of_tick, counts_of_advance};

    ghost state = { λ wheel. hier_state wheel };

    ghost wakes = { λ layout now pending wake. wake ≡ next_visit (radices_of layout) now pending };

    ghost keeps = { λ timer. N.keeps (record { timer = timer; rounds = 0 }) };

    ghost counts = { λ wheel. counts_of wheel };

    ghost count_start = { with_counted_start };

    ghost count_tick = { counts_of_tick };

    ghost count_advance = { counts_of_advance };

    fn last_tick(&self) -> u64 {
        self.wheels.buckets.last_tick
    }

    fn now(&self) -> u64 {
        self.wheels.buckets.tick
    }

    fn len(&self) -> usize {
        self.wheels.buckets.len()
    }

    fn has_due(&self) -> bool {
        self.wheels.buckets.has_due()
    }

    fn last_serial(&self) -> u64 {
        self.wheels.buckets.last_serial
    }

    // Always inlined, as a restart is: the results of calls would go through memory.
    #[inline(always)]
    fn start(&mut self, timer: Timer) -> Result<Handle, OutOfMemory> {
        let handle = self.wheels.start(timer)?;
        let counts = &mut self.counts;
        counts.starts += 1;
        Ok(handle)
    }

    fn reserve(&mut self, most: usize) -> Result<(), OutOfMemory>
        ensures ok { OnOk result (hier_state self.new ≡ after_reserve most (hier_state self.old)) }
        ensures more { OnErr result ((hier_state self.old).room < most) }
        ensures err { OnErr result (hier_state self.new ≡ hier_state self.old) }
        ensures counts { counts_of self.new ≡ counts_of self.old }
    {
        self.wheels.buckets.reserve(most)
    }

    fn look(&self, handle: Handle) -> Option<Timer> {
        self.wheels.buckets.look(handle)
    }

    fn stop(&mut self, handle: Handle) -> Option<Timer> {
        self.wheels.stop(handle)
    }

    #[inline(always)]
    fn restart(&mut self, handle: Handle, timer: Timer) -> Option<(Handle, Timer)>
        requires not_past { (hier_state self.old).now ≤ timer.deadline }
        requires deadline { timer.deadline ≤ (hier_state self.old).last_tick }
        requires fresh { (hier_state self.old).last_serial < timer.serial }
        requires serial { timer.serial ≤ LAST }
        requires keeps { N.keeps (record { timer = timer; rounds = 0 }) }
        ensures old { old_timer result ≡ held_at handle (hier_state self.old) }
        ensures named { IfSome result (λ r. r.0.serial ≡ timer.serial) }
        ensures place { IfSome result (λ r. r.0.place ≡ handle.place) }
        ensures restarted { hier_state self.new ≡ after_replacement result handle timer (hier_state self.old) }
        ensures counts { MatchOption result (counts_of self.new ≡ counts_of self.old)
            (λ _. counts_of self.new ≡ with_counted_start (counts_of self.old)) }
    {
        let restarted = self.wheels.restart(handle, timer)?;
        let counts = &mut self.counts;
        counts.starts += 1;
        Some(restarted)
    }

    fn per_tick(&mut self) {
        let list = emptied_at(self.wheels.table, self.wheels.buckets.tick + 1);
        self.visit(list);
    }

    fn advance(&mut self, most: u64) -> u64 {
        let end = self.wheels.buckets.tick + most;
        if !self.wheels.is_quiet_to(end) {
            return self.advance_far(most);
        }
        self.wheels.skip_to(end);
        let counts = &mut self.counts;
        counts.skipped += most;
        most
    }

    /// The next tick at which a bucket with a timer is emptied: a timer is due then, or moves to a lower
    /// wheel. None moves before it.
    fn quiet_until(&self) -> Option<u64>
        ensures next { IfSome result (λ tick. IsNextVisit (radices (table_of self.now)) tick
            (hier_state self.now)) }
        ensures quiet { IsQuietUntil result (hier_state self.now).now (hier_state self.now).pending }
        ensures exact { result ≡ next_visit (radices_of (hier_state self.now).layout)
            (hier_state self.now).now (hier_state self.now).pending }
    {
        self.wheels.first_visit()
    }

    /// Found in the first bucket with a timer: on wheel 0 without a look at its timers, and on a higher wheel
    /// by a walk along that bucket alone.
    fn next_deadline(&self) -> Option<u64> {
        self.wheels.next_deadline()
    }

    fn expire(&mut self) -> Option<Timer> {
        self.wheels.buckets.expire()
    }

    fn list(&self) -> Result<Vec<Timer>, OutOfMemory> {
        self.wheels.buckets.list()
    }

    fn list_into(&self, timers: &mut Vec<Timer>) -> Result<(), OutOfMemory> {
        self.wheels.buckets.list_into(timers)
    }

    fn clear(&mut self) {
        self.wheels.clear();
    }

    ghost well_formed = { λ wheel. hier-well_formed wheel };
}
