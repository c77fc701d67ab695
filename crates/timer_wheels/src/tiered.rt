//! A hierarchy that is chosen as the program runs, as C chooses one: `LazyWheel` or `SmoothWheel`.
//!
//! Each call is that of the wheel. What both have, the buckets, is read without a look at which of them it is.
ghost use Rattle.std.specs.Prelude.{◌≡◌, ◌+◌, ◌-◌, ◌*◌, ◌<◌, ◌≤◌, ℕ, [], true, None, Some, IfOk, IfErr, IfSome, IfNone, IsSome, OnOk, OnErr, MatchOption, MatchResult};
ghost use Rattle.timer_base.specs.Counts.{no_counts};
ghost use Rattle.timer_base.specs.WheelState.{empty_wheel, held_at, held_count, old_timer, first_due, after_reserve, after_held_start, after_removal, after_replacement, after_tick, after_expiry, after_clear, Advances};
ghost use Rattle.timer_base.specs.declared.limits.TheConstants.{LAST};
ghost use Rattle.timer_wheels.specs.Buckets.{RemovesRow};
ghost use Rattle.timer_wheels.specs.smooth.Paces.{tick_bound};
ghost use Rattle.timer_wheels.specs.smooth.SmoothWheel.{smooth_state, moves_of, next_moves, moves_ahead, lists_in, AreWhereTheyWere, wheels_left, wheel_in, IsPacedFor};
ghost use Rattle.timer_wheels.specs.TieredWheel.{KeepsPace};
ghost use Rattle.timer_wheels.specs.HeldPlaces.{IsFirstHeld, IsAlone};
ghost use Rattle.timer_wheels.specs.hier.HierWheel.{IsHierFault, with_counted_start};
ghost use Rattle.timer_wheels.specs.Tables.{layout_of_table, last_of_table, radices_of};
ghost use Rattle.timer_wheels.specs.Tiers.{layout_of_tiers, last_of_tiers};
ghost use Rattle.timer_wheels.specs.WakeUps.{next_visit};

use crate::buckets::Buckets;
use crate::iteration::held_from;
use crate::lazy::LazyWheel;
use crate::smooth::SmoothWheel;
use crate::table::Table;
use crate::tiered::smooth_calls::{
    copy_of, handle_at, quiet_smooth, restart_held, restart_smooth, start_smooth, stop_smooth,
    tick_of, tick_smooth,
};
use crate::tiers::Tiers;
use std::alloc::Global;
use timer_base::{Handle, MakeFault, OutOfMemory, Timer, Wheel};
use timer_links::Kept;

mod smooth_calls;
mod ways;

pub use ways::RestartWay;

/// In place of a tick: there is none.
pub const NEVER: u64 = u64::MAX;

/// One of the two hierarchies. `N` is what its lists keep of a timer.
#[derive(Drop)]
pub enum TieredWheel<N: Kept = Timer> {
    /// The lazy wheel, which leaves a timer that is pushed back where it stands.
    Lazy(LazyWheel<N>),
    /// The smooth wheel, whose timers move early.
    Smooth(SmoothWheel<N>),
}

impl<N: Kept> TieredWheel<N> {
    ghost use Rattle.timer_wheels.specs.TieredWheel.{tiered_state, buckets_in, counts_in, moves_in, moves_of_start, IsPacedIn};

    /// An empty hierarchy at its first tick.
    ///
    /// Errors, in this order: `FirstTick` above the last tick of the wheels' clock; `OutOfMemory`.
    pub fn with_tiers(
        alloc: Global,
        tiers: Tiers,
        first_tick: u64,
    ) -> Result<TieredWheel<N>, MakeFault>
        ensures state { IfOk result (λ wheel. tiered_state wheel
            ≡ empty_wheel (layout_of_tiers tiers) (last_of_tiers tiers) first_tick) }
        ensures counts { IfOk result (λ wheel. counts_in wheel ≡ no_counts) }
        ensures moves { IfOk result (λ wheel. moves_in wheel ≡ 0) }
        ensures paced { IfOk result (λ wheel. IsPacedIn 0 wheel) }
        ensures in_range { IfOk result (λ wheel. first_tick ≤ last_of_tiers tiers) }
        ensures fault { IfErr result (λ fault. IsHierFault (last_of_tiers tiers) first_tick fault) }
    {
        let table = match tiers {
            Tiers::Smooth => {
                let wheel = SmoothWheel::keeping(alloc, first_tick)?;
                return Ok(TieredWheel::Smooth(wheel));
            }
            // made by tools/facts: tables of hierarchies
            Tiers::Wide => Table::Wide,
            Tiers::Small => Table::Small,
        };
        TieredWheel::lazy(alloc, table, first_tick)
    }

    /// An empty `LazyWheel` of this table.
    fn lazy(alloc: Global, table: Table, first_tick: u64) -> Result<TieredWheel<N>, MakeFault>
        ensures state { IfOk result (λ wheel. tiered_state wheel
            ≡ empty_wheel (layout_of_table table) (last_of_table table) first_tick) }
        ensures counts { IfOk result (λ wheel. counts_in wheel ≡ no_counts) }
        ensures moves { IfOk result (λ wheel. moves_in wheel ≡ 0) }
        ensures paced { IfOk result (λ wheel. IsPacedIn 0 wheel) }
        ensures in_range { IfOk result (λ wheel. first_tick ≤ last_of_table table) }
        ensures fault { IfErr result (λ fault. IsHierFault (last_of_table table) first_tick fault) }
    {
        let wheel = LazyWheel::keeping(alloc, table, first_tick)?;
        Ok(TieredWheel::Lazy(wheel))
    }

    /// The buckets of the wheel.
    // Both wheels have them at the same place, so no branch is left of this.
    #[inline(always)]
    fn buckets(&self) -> &Buckets<N>
        ensures { result.now ≡ buckets_in self.now }
    {
        match self {
            TieredWheel::Lazy(wheel) => wheel.buckets(),
            TieredWheel::Smooth(wheel) => wheel.buckets(),
        }
    }

    /// How many timers were started or restarted since the wheel was made. Does not allocate.
    pub fn starts(&self) -> u64
        ensures { result ≡ (counts_in self.now).starts }
    {
        match self {
            TieredWheel::Lazy(wheel) => wheel.starts(),
            TieredWheel::Smooth(wheel) => wheel.starts(),
        }
    }

    /// How many times a timer was put into a lower wheel since the wheel was made, or of a lazy wheel filed anew. Does not
    /// allocate.
    pub fn moves(&self) -> u64
        ensures value { result ≡ moves_in self.now }
        ensures at_most { result ≤ moves_of_start (tiered_state self.now).layout * (counts_in self.now).starts }
    {
        match self {
            TieredWheel::Lazy(wheel) => wheel.filings(),
            TieredWheel::Smooth(wheel) => wheel.moves(),
        }
    }

    /// The handle of the timer, pending or due, at this place or the first later one that has a timer, or
    /// None when there is none. Does not allocate.
    ///
    /// It looks at each place on the way: in practice at most 63 more than there ever were timers at one time.
    pub fn held_from(&self, place: usize) -> Option<Handle>
        ensures first { IsFirstHeld place (tiered_state self.now) result }
        ensures alone { IfSome result (λ handle. IsAlone handle (tiered_state self.now)) }
        ensures in_range { IfSome result (λ handle. handle.place < 4294967296) }
    {
        held_from(self.buckets(), place)
    }
}

impl<N: Kept> Wheel for TieredWheel<N> {
    ghost use Rattle.timer_wheels.specs.TieredWheel.{tiered_state, tiered-well_formed, is_smooth, counts_in, moves_in, IfSmooth, IsPacedIn, KeepsPace};

    ghost state = { λ wheel. tiered_state wheel };

    ghost wakes = { λ layout now pending wake. is_smooth layout ≡ true
        → wake ≡ next_visit (radices_of layout) now pending };

    ghost keeps = { λ timer. N.keeps (record { timer = timer; rounds = 0 }) };

    ghost counts = { λ wheel. counts_in wheel };

    ghost count_start = { with_counted_start };

    fn last_tick(&self) -> u64 {
        self.buckets().last_tick
    }

    fn now(&self) -> u64 {
        self.buckets().tick
    }

    fn len(&self) -> usize {
        self.buckets().len()
    }

    fn has_due(&self) -> bool {
        self.buckets().has_due()
    }

    fn last_serial(&self) -> u64 {
        self.buckets().last_serial
    }

    #[inline(always)]
    fn start(&mut self, timer: Timer) -> Result<Handle, OutOfMemory>
        requires not_past { (tiered_state self.old).now ≤ timer.deadline }
        requires deadline { timer.deadline ≤ (tiered_state self.old).last_tick }
        requires fresh { (tiered_state self.old).last_serial < timer.serial }
        requires serial { timer.serial ≤ LAST }
        requires keeps { N.keeps (record { timer = timer; rounds = 0 }) }
        ensures named { IfOk result (λ handle. handle.serial ≡ timer.serial) }
        ensures started { IfOk result (λ handle. tiered_state self.new
            ≡ after_held_start handle.place timer (tiered_state self.old)) }
        ensures full { OnErr result ((tiered_state self.old).room ≤ held_count (tiered_state self.old)) }
        ensures err { OnErr result (tiered_state self.new ≡ tiered_state self.old) }
        ensures counts { MatchResult result (λ _. counts_in self.new ≡ with_counted_start (counts_in self.old))
            (λ _. counts_in self.new ≡ counts_in self.old) }
        ensures counted { IfOk result (λ _. IfSmooth (λ old new. moves_of new + wheels_left new
            ≡ moves_of old + wheels_left old + wheel_in old timer) self.old self.new) }
        ensures two { moves_in self.new ≤ moves_in self.old + 2 }
        ensures none { OnErr result (moves_in self.new ≡ moves_in self.old) }
        ensures stay { OnErr result (IfSmooth (λ old new. lists_in new ≡ lists_in old) self.old self.new) }
        ensures paced { IfSmooth KeepsPace self.old self.new }
    {
        match self {
            TieredWheel::Lazy(wheel) => wheel.start(timer),
            TieredWheel::Smooth(wheel) => {
                let place = start_smooth(
                    wheel,
                    timer.serial,
                    timer.client,
                    timer.number,
                    timer.deadline,
                    timer.action,
                );
                handle_at(place, timer.serial)
            }
        }
    }

    fn reserve(&mut self, most: usize) -> Result<(), OutOfMemory>
        ensures ok { OnOk result (tiered_state self.new ≡ after_reserve most (tiered_state self.old)) }
        ensures more { OnErr result ((tiered_state self.old).room < most) }
        ensures err { OnErr result (tiered_state self.new ≡ tiered_state self.old) }
        ensures counts { counts_in self.new ≡ counts_in self.old }
        ensures moves { moves_in self.new ≡ moves_in self.old }
        ensures stay { IfSmooth (λ old new. lists_in new ≡ lists_in old) self.old self.new }
        ensures paced { IfSmooth KeepsPace self.old self.new }
    {
        match self {
            TieredWheel::Lazy(wheel) => wheel.reserve(most),
            TieredWheel::Smooth(wheel) => wheel.reserve(most),
        }
    }

    fn look(&self, handle: Handle) -> Option<Timer> {
        self.buckets().look(handle)
    }

    fn stop(&mut self, handle: Handle) -> Option<Timer>
        ensures timer { result ≡ held_at handle (tiered_state self.old) }
        ensures stopped { tiered_state self.new ≡ after_removal handle (tiered_state self.old) }
        ensures counts { counts_in self.new ≡ counts_in self.old }
        ensures moves { moves_in self.new ≡ moves_in self.old }
        ensures stay { IfSmooth (λ old new. RemovesRow result handle.place (lists_in old) (lists_in new)) self.old self.new }
        ensures paced { IfSmooth KeepsPace self.old self.new }
    {
        let timer = self.buckets().look(handle)?;
        match self {
            TieredWheel::Lazy(wheel) => {
                let _removed = wheel.stop(handle);
            }
            TieredWheel::Smooth(wheel) => stop_smooth(wheel, handle),
        }
        Some(timer)
    }

    #[inline(always)]
    fn restart(&mut self, handle: Handle, timer: Timer) -> Option<(Handle, Timer)>
        requires not_past { (tiered_state self.old).now ≤ timer.deadline }
        requires deadline { timer.deadline ≤ (tiered_state self.old).last_tick }
        requires fresh { (tiered_state self.old).last_serial < timer.serial }
        requires serial { timer.serial ≤ LAST }
        requires keeps { N.keeps (record { timer = timer; rounds = 0 }) }
        ensures old { old_timer result ≡ held_at handle (tiered_state self.old) }
        ensures named { IfSome result (λ r. r.0.serial ≡ timer.serial) }
        ensures place { IfSome result (λ r. r.0.place ≡ handle.place) }
        ensures restarted { tiered_state self.new ≡ after_replacement result handle timer (tiered_state self.old) }
        ensures counts { MatchOption result (counts_in self.new ≡ counts_in self.old)
            (λ _. counts_in self.new ≡ with_counted_start (counts_in self.old)) }
        ensures counted { IfSome result (λ r. IfSmooth (λ old new. moves_of new + wheels_left new + wheel_in old r.1
            ≡ moves_of old + wheels_left old + wheel_in old timer) self.old self.new) }
        ensures two { moves_in self.new ≤ moves_in self.old + 2 }
        ensures none { IfNone result (moves_in self.new ≡ moves_in self.old) }
        ensures stay { IfNone result (IfSmooth (λ old new. lists_in new ≡ lists_in old) self.old self.new) }
        ensures paced { IfSmooth KeepsPace self.old self.new }
    {
        match self {
            TieredWheel::Lazy(wheel) => wheel.restart(handle, timer),
            TieredWheel::Smooth(wheel) => {
                let old = wheel.look(handle)?;
                let place = restart_smooth(wheel, handle, copy_of(timer))?;
                let made = Handle {
                    place,
                    serial: timer.serial,
                };
                Some((made, old))
            }
        }
    }

    /// No test is made in a lazy wheel whether the timer is there, or may stay in its bucket.
    #[inline(always)]
    fn restart_later(&mut self, handle: Handle, timer: Timer) -> Handle
        requires held { IsSome (held_at handle (tiered_state self.old)) }
        requires later { (tiered_state self.old).now < timer.deadline }
        requires deadline { timer.deadline ≤ (tiered_state self.old).last_tick }
        requires fresh { (tiered_state self.old).last_serial < timer.serial }
        requires serial { timer.serial ≤ LAST }
        requires keeps { N.keeps (record { timer = timer; rounds = 0 }) }
        ensures named { result.serial ≡ timer.serial }
        ensures restarted { tiered_state self.new
            ≡ after_held_start result.place timer (after_removal handle (tiered_state self.old)) }
        ensures counts { counts_in self.new ≡ with_counted_start (counts_in self.old) }
    {
        match self {
            TieredWheel::Lazy(wheel) => wheel.restart_later(handle, timer),
            TieredWheel::Smooth(wheel) => restart_held(wheel, handle, copy_of(timer)),
        }
    }

    #[inline(always)]
    fn per_tick(&mut self)
        requires nothing_due { (tiered_state self.old).due ≡ [] }
        requires before_last { (tiered_state self.old).now < (tiered_state self.old).last_tick }
        ensures ticked { tiered_state self.new ≡ after_tick (tiered_state self.old) }
        ensures counts { counts_in self.new ≡ counts_in self.old }
        ensures at_most { IfSmooth (λ old new. moves_of new ≤ moves_of old + next_moves old) self.old self.new }
        ensures ahead { IfSmooth (λ old new. moves_of new ≤ moves_of old + moves_ahead old) self.old self.new }
        ensures bound { IfSmooth (λ old new. (n : ℕ) → IsPacedFor n old
            → moves_of new ≤ moves_of old + tick_bound n) self.old self.new }
        ensures counted { IfSmooth (λ old new. moves_of new + wheels_left new ≡ moves_of old + wheels_left old)
            self.old self.new }
        ensures paced { IfSmooth (λ old new. (n : ℕ) → held_count (smooth_state new) ≤ n → IsPacedFor n old
            → IsPacedFor n new) self.old self.new }
    {
        match self {
            TieredWheel::Lazy(wheel) => wheel.per_tick(),
            TieredWheel::Smooth(wheel) => {
                if wheel.is_quiet() {
                    wheel.per_tick();
                } else {
                    tick_smooth(wheel);
                }
            }
        }
    }

    #[inline(always)]
    fn advance(&mut self, most: u64) -> u64
        requires nothing_due { (tiered_state self.old).due ≡ [] }
        requires some { 0 < most }
        requires before_last { most ≤ (tiered_state self.old).last_tick - (tiered_state self.old).now }
        ensures advances { Advances most result (tiered_state self.old) (tiered_state self.new) }
        ensures counts { counts_in self.new ≡ counts_in self.old }
        ensures bound { IfSmooth (λ old new. (n : ℕ) → held_count (smooth_state old) ≤ n → IsPacedFor n old
            → moves_of new ≤ moves_of old + result * tick_bound n) self.old self.new }
        ensures counted { IfSmooth (λ old new. moves_of new + wheels_left new ≡ moves_of old + wheels_left old)
            self.old self.new }
        ensures paced { IfSmooth (λ old new. (n : ℕ) → held_count (smooth_state old) ≤ n → IsPacedFor n old
            → IsPacedFor n new) self.old self.new }
    {
        match self {
            TieredWheel::Lazy(wheel) => wheel.advance(most),
            TieredWheel::Smooth(wheel) => wheel.advance(most),
        }
    }

    fn quiet_until(&self) -> Option<u64> {
        match self {
            TieredWheel::Lazy(wheel) => wheel.quiet_until(),
            TieredWheel::Smooth(wheel) => tick_of(quiet_smooth(wheel)),
        }
    }

    fn next_deadline(&self) -> Option<u64> {
        match self {
            TieredWheel::Lazy(wheel) => wheel.next_deadline(),
            TieredWheel::Smooth(wheel) => wheel.next_deadline(),
        }
    }

    #[inline(always)]
    fn expire(&mut self) -> Option<Timer>
        ensures first { result ≡ first_due (tiered_state self.old) }
        ensures rest { tiered_state self.new ≡ after_expiry (tiered_state self.old) }
        ensures counts { counts_in self.new ≡ counts_in self.old }
        ensures moves { moves_in self.new ≡ moves_in self.old }
        ensures stay { IfSmooth AreWhereTheyWere self.old self.new }
        ensures paced { IfSmooth KeepsPace self.old self.new }
    {
        match self {
            TieredWheel::Lazy(wheel) => wheel.expire(),
            TieredWheel::Smooth(wheel) => wheel.expire(),
        }
    }

    fn list(&self) -> Result<Vec<Timer>, OutOfMemory> {
        self.buckets().list()
    }

    fn list_into(&self, timers: &mut Vec<Timer>) -> Result<(), OutOfMemory> {
        self.buckets().list_into(timers)
    }

    fn clear(&mut self)
        ensures cleared { tiered_state self.new ≡ after_clear (tiered_state self.old) }
        ensures counts { counts_in self.new ≡ counts_in self.old }
        ensures moves { moves_in self.new ≡ moves_in self.old }
        ensures paced { IsPacedIn 0 self.new }
    {
        match self {
            TieredWheel::Lazy(wheel) => wheel.clear(),
            TieredWheel::Smooth(wheel) => wheel.clear(),
        }
    }

    ghost well_formed = { λ wheel. tiered-well_formed wheel };
}
