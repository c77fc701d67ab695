//! The smooth wheel: Scheme 7 whose timers go to lower wheels early, and a few at a time.
//!
//! Scheme 7 empties a whole bucket at one tick. Here the next bucket of each wheel moves while the present one passes:
//! at each tick some timers from its front, at a pace that empties it by the half of its time, and with each start
//! into it two. Once it is empty it is open: a start whose deadline is in it goes to a lower wheel at once. So the
//! timers of a bucket leave it in the order of starting, and none overtakes them.
//!
//! Each wheel has two revolutions of slots (`slot_lists`), since timers come to a lower wheel before its last revolution
//! ends. Which list a pending timer stands in follows from now, its deadline, its serial and the serials up to which
//! the next buckets have moved on (`smooth_bucket` in specs/smooth/Smooth.antt).
//!
//! Three timers of Wide, started at tick 10 for 8196 (serial 1), 8257 (2) and 12287 (3), all in slot 2 of wheel 2. At tick
//! 4096 it begins to be the next bucket, at a pace of 2:
//!
//!      now   wheel 2, slot 2   wheel 1 (a slot is 64 ticks)
//!     4096   1 2 3                                                a start for 8197 goes to the back, and 1 and 2 move
//!     4097   3                 slot 128: 1   slot 129: 2
//!     4098   open              slot 128: 1   slot 129: 2   slot 191: 3      a start for 8197 goes to slot 128 of wheel 1
//!
//! At tick 8128 slot 128 begins to be the next bucket of wheel 1, and at the next tick timer 1 goes to slot 8196 of wheel 0.
//!
//! At each tick some timers of each next bucket move: its pace (`paces`), fixed as it begins to be the next one
//! (`early_moves`). So no tick moves a whole bucket, and none moves more than 2n/63 + 18 timers, n the most that were held.
//! `advance` leaps to the next tick that needs a look while nothing is to be moved (`wake_ups`).
//!
//! It meets the whole of `Wheel`, and C has it, beside the hierarchy (`tiered`). Open: speed. First slots are found anew
//! each time, though only as far up as a wheel can have an earlier one.
ghost use Rattle.std.specs.Prelude.{◌≡◌, ◌+◌, ◌-◌, ◌*◌, ◌<◌, ◌≤◌, ℕ, [], length, IfOk, IfErr, IfSome, IfNone, OnOk, OnErr, MatchOption, MatchResult};
ghost use Rattle.timer_base.specs.declared.limits.TheConstants.{LAST};
ghost use Rattle.timer_base.specs.WheelState.{empty_wheel, held_at, held_count, old_timer, first_due, after_reserve, after_held_start, after_removal, after_replacement, after_tick, after_expiry, after_clear, Advances};
ghost use Rattle.timer_wheels.specs.smooth.Wheels.{potential_of};
ghost use Rattle.timer_wheels.specs.HeldPlaces.{IsFirstHeld};
ghost use Rattle.timer_wheels.specs.smooth.Paces.{AreInTime, AreInTime-prop, tick_bound};
ghost use Rattle.timer_wheels.specs.hier.Placement.{most_moves};
ghost use Rattle.timer_wheels.specs.smooth.Smooth.{next_lengths};
ghost use Rattle.timer_wheels.specs.Tables.{wide, radices_of, smooth_layout};
ghost use Rattle.timer_wheels.specs.declared.table.Table.TheVariants.{Wide};
ghost use Rattle.timer_wheels.specs.WakeUps.{next_visit};

use crate::buckets::Buckets;
use crate::iteration::held_from;
use crate::smooth::early_moves::{fix_paces, make_way, move_all};
use crate::smooth::paces::Paces;
use crate::smooth::wheels::Wheels;
use crate::table::{Table, is_rollover};
use std::alloc::Global;
use timer_base::{Handle, LAST, MakeFault, OutOfMemory, Timer, Wheel};
use timer_links::{Kept, Links};

mod early_moves;
mod leaps;
mod paces;
mod slot_lists;
mod wake_ups;
mod wheels;

/// Ten wheels of 64 slots, whose timers go to lower wheels early and a few at a time.
///
/// A timer moves at most nine times, and keeps its place in the order of starting.
///
/// `N` is what its lists keep of a timer. A start and a restart take the timers that it can give back whole; `Timer` keeps
/// all of them.
#[derive(Drop)]
pub struct SmoothWheel<N: Kept = Timer> {
    /// The buckets and their bits.
    wheels: Wheels<N>,
    /// How many timers of each next bucket move at a tick.
    paces: Paces,
    /// Timers that were started or restarted.
    starts: u64,
    /// How many times a timer was put into a lower wheel.
    moves: u64,
    // So each next bucket is empty before it begins to be the present one, and no tick moves a whole bucket.
    ghost in_time: { AreInTime Wide wheels.buckets paces } by { AreInTime-prop Wide wheels.buckets paces },
    ghost few_starts: { starts ≤ wheels.buckets.last_serial },
    // A start allows one move for each wheel but the highest, and each move lowers a wheel. So what is left to move is
    // counted too.
    ghost paid: { moves + potential_of Wide wheels.buckets ≤ most_moves wide * starts },
}

impl SmoothWheel {
    ghost use Rattle.timer_wheels.specs.smooth.SmoothWheel.{smooth_state, starts_of, moves_of, IsPacedFor};
    ghost use Rattle.timer_wheels.specs.hier.HierWheel.{IsHierFault};

    /// An empty wheel at its first tick.
    ///
    /// Errors, in this order: `FirstTick` above `LAST`; `OutOfMemory`.
    pub fn new(alloc: Global, first_tick: u64) -> Result<SmoothWheel, MakeFault>
        ensures state { IfOk result (λ wheel. smooth_state wheel
            ≡ empty_wheel (smooth_layout Wide) LAST first_tick) }
        ensures starts { IfOk result (λ wheel. starts_of wheel ≡ 0) }
        ensures moves { IfOk result (λ wheel. moves_of wheel ≡ 0) }
        ensures paced { IfOk result (λ wheel. IsPacedFor 0 wheel) }
        ensures in_range { IfOk result (λ wheel. first_tick ≤ LAST) }
        ensures fault { IfErr result (λ fault. IsHierFault LAST first_tick fault) }
    {
        SmoothWheel::keeping(alloc, first_tick)
    }
}

impl<N: Kept> SmoothWheel<N> {
    ghost use Rattle.timer_wheels.specs.smooth.SmoothWheel.{smooth_state, starts_of, moves_of, next_moves, moves_ahead, IsPacedFor, ShowsSmooth};
    ghost use Rattle.timer_wheels.specs.hier.HierWheel.{IsHierFault};

    /// The same as `new`, whose lists keep of a timer what `N` says.
    pub fn keeping(alloc: Global, first_tick: u64) -> Result<SmoothWheel<N>, MakeFault>
        ensures state { IfOk result (λ wheel. smooth_state wheel
            ≡ empty_wheel (smooth_layout Wide) LAST first_tick) }
        ensures starts { IfOk result (λ wheel. starts_of wheel ≡ 0) }
        ensures moves { IfOk result (λ wheel. moves_of wheel ≡ 0) }
        ensures paced { IfOk result (λ wheel. IsPacedFor 0 wheel) }
        ensures in_range { IfOk result (λ wheel. first_tick ≤ LAST) }
        ensures fault { IfErr result (λ fault. IsHierFault LAST first_tick fault) }
    {
        if first_tick > LAST {
            return Err(MakeFault::FirstTick);
        }
        let Ok(wheels) = Wheels::new(alloc, first_tick) else {
            return Err(MakeFault::OutOfMemory);
        };
        Ok(SmoothWheel {
            wheels,
            paces: Paces::new(),
            starts: 0,
            moves: 0,
        })
    }

    /// The buckets, and after them the list of due timers, which is list 1,280.
    ///
    /// Slot i of wheel k, of the slots counted from tick 0 on, is list `128 * k + i % 128`. The timers of a bucket stand by
    /// serial, each under its handle's place, with rounds 0. Does not allocate.
    pub fn links(&self) -> &Links<N>
        ensures shows { ShowsSmooth Wide (smooth_state self.now) result.now.lists }
        ensures ahead { moves_ahead self.now ≡ next_lengths wide (smooth_state self.now).now
            result.now.lists (length wide - 1) }
    {
        &self.wheels.buckets.links
    }

    /// The clock and the buckets.
    #[inline]
    pub(crate) fn buckets(&self) -> &Buckets<N>
        ensures { result.now ≡ self.now.wheels.buckets }
    {
        &self.wheels.buckets
    }

    /// How many timers were started or restarted since the wheel was made. Does not allocate.
    pub fn starts(&self) -> u64
        ensures { result ≡ starts_of self.now }
    {
        self.starts
    }

    /// How many times a timer was put into a lower wheel since the wheel was made. Does not allocate.
    pub fn moves(&self) -> u64
        ensures value { result ≡ moves_of self.now }
        ensures at_most { result ≤ most_moves wide * starts_of self.now }
    {
        self.moves
    }

    /// The most timers that the next tick moves, and 0 only if it moves none. Does not allocate.
    pub fn next_moves(&self) -> u64
        ensures { result ≡ next_moves self.now }
    {
        self.paces.sum()
    }

    /// Whether the next tick is quiet: no timer moves or becomes due, and no pace is fixed. Nothing depends on it but how a
    /// tick is compiled.
    #[inline(always)]
    pub(crate) fn is_quiet(&self) -> bool {
        let tick = self.wheels.buckets.tick + 1;
        self.paces.sum() == 0 && self.wheels.is_empty_at(tick) && !is_rollover(Table::Wide, tick)
    }

    /// The handle of the timer, pending or due, at this place or the first later one that has a timer, or
    /// None when there is none. Does not allocate.
    ///
    /// It looks at each place on the way: in practice at most 63 more than there ever were timers at one time.
    pub fn held_from(&self, place: usize) -> Option<Handle>
        ensures first { IsFirstHeld place (smooth_state self.now) result }
        ensures in_range { IfSome result (λ handle. handle.place < 4294967296) }
    {
        held_from(&self.wheels.buckets, place)
    }
}

impl<N: Kept> Wheel for SmoothWheel<N> {
    ghost use Rattle.timer_wheels.specs.smooth.SmoothWheel.{smooth_state, smooth-well_formed, starts_of, moves_of, next_moves, moves_ahead, lists_in, AreWhereTheyWere, wheels_left, wheel_in, IsPacedFor};
    ghost use Rattle.timer_wheels.specs.Buckets.{RemovesRow};

    ghost state = { λ wheel. smooth_state wheel };

    ghost keeps = { λ timer. N.keeps (record { timer = timer; rounds = 0 }) };

    ghost wakes = { λ layout now pending wake. wake ≡ next_visit (radices_of layout) now pending };

    fn last_tick(&self) -> u64 {
        self.wheels.buckets.last_tick
    }

    fn now(&self) -> u64 {
        self.wheels.buckets.tick
    }

    fn len(&self) -> usize {
        self.wheels.buckets.len()
    }

    fn has_due(&self) -> bool {
        self.wheels.buckets.has_due()
    }

    fn last_serial(&self) -> u64 {
        self.wheels.buckets.last_serial
    }

    /// If the timer comes to a next bucket that has timers, two of that bucket move.
    #[inline(always)]
    fn start(&mut self, timer: Timer) -> Result<Handle, OutOfMemory>
        requires not_past { (smooth_state self.old).now ≤ timer.deadline }
        requires deadline { timer.deadline ≤ (smooth_state self.old).last_tick }
        requires fresh { (smooth_state self.old).last_serial < timer.serial }
        requires serial { timer.serial ≤ LAST }
        requires keeps { N.keeps (record { timer = timer; rounds = 0 }) }
        ensures named { IfOk result (λ handle. handle.serial ≡ timer.serial) }
        ensures started { IfOk result (λ handle. smooth_state self.new
            ≡ after_held_start handle.place timer (smooth_state self.old)) }
        ensures full { OnErr result ((smooth_state self.old).room ≤ held_count (smooth_state self.old)) }
        ensures err { OnErr result (smooth_state self.new ≡ smooth_state self.old) }
        ensures starts { MatchResult result (λ _. starts_of self.new ≡ starts_of self.old + 1)
            (λ _. starts_of self.new ≡ starts_of self.old) }
        ensures counted { IfOk result (λ _. moves_of self.new + wheels_left self.new
            ≡ moves_of self.old + wheels_left self.old + wheel_in self.old timer) }
        ensures two { moves_of self.new ≤ moves_of self.old + 2 }
        ensures none { OnErr result (moves_of self.new ≡ moves_of self.old) }
        ensures stay { OnErr result (lists_in self.new ≡ lists_in self.old) }
        ensures paced { (n : ℕ) → IsPacedFor n self.old → IsPacedFor n self.new }
    {
        let (handle, wheel) = self.wheels.start(timer)?;
        self.starts += 1;
        self.moves += make_way(&mut self.wheels, wheel);
        Ok(handle)
    }

    #[inline(never)]
    fn reserve(&mut self, most: usize) -> Result<(), OutOfMemory>
        ensures ok { OnOk result (smooth_state self.new ≡ after_reserve most (smooth_state self.old)) }
        ensures more { OnErr result ((smooth_state self.old).room < most) }
        ensures err { OnErr result (smooth_state self.new ≡ smooth_state self.old) }
        ensures stay { lists_in self.new ≡ lists_in self.old }
        ensures moves { moves_of self.new ≡ moves_of self.old }
        ensures starts { starts_of self.new ≡ starts_of self.old }
        ensures paced { (n : ℕ) → IsPacedFor n self.old → IsPacedFor n self.new }
    {
        self.wheels.reserve(most)
    }

    fn look(&self, handle: Handle) -> Option<Timer> {
        self.wheels.buckets.look(handle)
    }

    fn stop(&mut self, handle: Handle) -> Option<Timer>
        ensures timer { result ≡ held_at handle (smooth_state self.old) }
        ensures stopped { smooth_state self.new ≡ after_removal handle (smooth_state self.old) }
        ensures stay { RemovesRow result handle.place (lists_in self.old) (lists_in self.new) }
        ensures moves { moves_of self.new ≡ moves_of self.old }
        ensures starts { starts_of self.new ≡ starts_of self.old }
        ensures paced { (n : ℕ) → IsPacedFor n self.old → IsPacedFor n self.new }
    {
        self.wheels.stop(handle)
    }

    /// If the new timer comes to a next bucket that has timers, two of that bucket move.
    #[inline(always)]
    fn restart(&mut self, handle: Handle, timer: Timer) -> Option<(Handle, Timer)>
        requires not_past { (smooth_state self.old).now ≤ timer.deadline }
        requires deadline { timer.deadline ≤ (smooth_state self.old).last_tick }
        requires fresh { (smooth_state self.old).last_serial < timer.serial }
        requires serial { timer.serial ≤ LAST }
        requires keeps { N.keeps (record { timer = timer; rounds = 0 }) }
        ensures old { old_timer result ≡ held_at handle (smooth_state self.old) }
        ensures named { IfSome result (λ r. r.0.serial ≡ timer.serial) }
        ensures place { IfSome result (λ r. r.0.place ≡ handle.place) }
        ensures restarted { smooth_state self.new ≡ after_replacement result handle timer (smooth_state self.old) }
        ensures starts { MatchOption result (starts_of self.new ≡ starts_of self.old)
            (λ _. starts_of self.new ≡ starts_of self.old + 1) }
        ensures counted { IfSome result (λ r. moves_of self.new + wheels_left self.new + wheel_in self.old r.1
            ≡ moves_of self.old + wheels_left self.old + wheel_in self.old timer) }
        ensures two { moves_of self.new ≤ moves_of self.old + 2 }
        ensures none { IfNone result (moves_of self.new ≡ moves_of self.old) }
        ensures stay { IfNone result (lists_in self.new ≡ lists_in self.old) }
        ensures paced { (n : ℕ) → IsPacedFor n self.old → IsPacedFor n self.new }
    {
        let (restarted, wheel) = self.wheels.restart(handle, timer)?;
        self.starts += 1;
        self.moves += make_way(&mut self.wheels, wheel);
        Some(restarted)
    }

    /// Each timer that moves goes just one wheel down, and is counted. At most as many move as the paces are in sum: at
    /// most 2n/63 + 18, if never more than n were held since the wheel was made.
    #[inline(always)]
    fn per_tick(&mut self)
        requires nothing_due { (smooth_state self.old).due ≡ [] }
        requires before_last { (smooth_state self.old).now < (smooth_state self.old).last_tick }
        ensures ticked { smooth_state self.new ≡ after_tick (smooth_state self.old) }
        ensures at_most { moves_of self.new ≤ moves_of self.old + next_moves self.old }
        ensures ahead { moves_of self.new ≤ moves_of self.old + moves_ahead self.old }
        ensures bound { (n : ℕ) → IsPacedFor n self.old → moves_of self.new ≤ moves_of self.old
            + tick_bound n }
        ensures counted { moves_of self.new + wheels_left self.new ≡ moves_of self.old + wheels_left self.old }
        ensures starts { starts_of self.new ≡ starts_of self.old }
        ensures paced { (n : ℕ) → held_count (smooth_state self.new) ≤ n → IsPacedFor n self.old → IsPacedFor n self.new }
    {
        let moves = move_all(&mut self.wheels, &mut self.paces);
        self.wheels.next_tick();
        fix_paces(&self.wheels, &mut self.paces);
        self.moves += moves;
    }

    /// It makes the moves of all ticks that it passes. While none is to be made, it leaps to the next event, and else it goes
    /// tick by tick: no more of those than timers move, and one for each bucket with timers that begins to be a next one.
    #[inline(never)]
    fn advance(&mut self, most: u64) -> u64
        requires nothing_due { (smooth_state self.old).due ≡ [] }
        requires some { 0 < most }
        requires before_last { most ≤ (smooth_state self.old).last_tick - (smooth_state self.old).now }
        ensures advances { Advances most result (smooth_state self.old) (smooth_state self.new) }
        ensures bound { (n : ℕ) → held_count (smooth_state self.old) ≤ n → IsPacedFor n self.old → moves_of self.new
            ≤ moves_of self.old + result * tick_bound n }
        ensures counted { moves_of self.new + wheels_left self.new ≡ moves_of self.old + wheels_left self.old }
        ensures starts { starts_of self.new ≡ starts_of self.old }
        ensures paced { (n : ℕ) → held_count (smooth_state self.old) ≤ n → IsPacedFor n self.old → IsPacedFor n self.new }
    {
        let first = self.wheels.buckets.tick;
        let end = first + most;
        while self.wheels.buckets.tick < end {
            self.pass(end);
            if self.wheels.buckets.has_due() {
                return self.wheels.buckets.tick - first;
            }
        }
        most
    }

    /// The next tick at which Scheme 7 would empty a bucket with a timer. It follows from the first slot with a timer of each
    /// wheel, without a walk.
    #[inline(never)]
    fn quiet_until(&self) -> Option<u64> {
        self.wheels.next_visit()
    }

    /// Found in the first bucket with a timer of each wheel: on wheel 0 without a look at its timers, and on a higher wheel
    /// by a walk along that bucket, unless it begins after a deadline that was found already.
    #[inline(never)]
    fn next_deadline(&self) -> Option<u64> {
        self.wheels.next_deadline()
    }

    fn expire(&mut self) -> Option<Timer>
        ensures first { result ≡ first_due (smooth_state self.old) }
        ensures rest { smooth_state self.new ≡ after_expiry (smooth_state self.old) }
        ensures stay { AreWhereTheyWere self.old self.new }
        ensures moves { moves_of self.new ≡ moves_of self.old }
        ensures starts { starts_of self.new ≡ starts_of self.old }
        ensures paced { (n : ℕ) → IsPacedFor n self.old → IsPacedFor n self.new }
    {
        self.wheels.expire()
    }

    fn list(&self) -> Result<Vec<Timer>, OutOfMemory> {
        self.wheels.buckets.list()
    }

    fn list_into(&self, timers: &mut Vec<Timer>) -> Result<(), OutOfMemory> {
        self.wheels.buckets.list_into(timers)
    }

    #[inline(never)]
    fn clear(&mut self)
        ensures cleared { smooth_state self.new ≡ after_clear (smooth_state self.old) }
        ensures moves { moves_of self.new ≡ moves_of self.old }
        ensures starts { starts_of self.new ≡ starts_of self.old }
        ensures paced { IsPacedFor 0 self.new }
    {
        self.wheels.clear();
        self.paces = Paces::new();
    }

    ghost well_formed = { λ wheel. smooth-well_formed wheel };
}
