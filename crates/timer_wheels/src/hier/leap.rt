//! Many ticks of a hierarchy of wheels, without a look at those at which nothing happens.
//!
//! A bucket with a timer is emptied next at the tick that has the bucket's digit in place of now's, and
//! zeros below it. The first of these ticks is that of the first bucket with a timer. Up to it nothing
//! moves and nothing is due, so the clock alone advances. Such a tick is the visit of its bucket.
ghost use Rattle.std.specs.Prelude.{◌≡◌, ◌+◌, ◌-◌, ◌*◌, ◌/◌, ◌%◌, ◌<◌, ◌≤◌, ℕ, IsTrue, []};
ghost use Rattle.timer_wheels.specs.Occupied.{bit_of};
ghost use Rattle.std.specs.Option.{IfSome};
ghost use Rattle.timer_base.specs.declared.limits.TheConstants.{LAST};
ghost use Rattle.timer_base.specs.WakeUps.{IsQuietUntil};
ghost use Rattle.timer_base.specs.WheelState.{Advances};
ghost use Rattle.timer_wheels.specs.Digits.{lowest_radix};
ghost use Rattle.timer_wheels.specs.declared.table.Table.TheVariants.{Wide};
ghost use Rattle.timer_wheels.specs.Tables.{radices};
ghost use Rattle.timer_wheels.specs.hier.Placement.{visited_between, most_moves};
ghost use Rattle.timer_wheels.specs.Buckets.{state_of};
ghost use Rattle.timer_wheels.specs.hier.Hier.{potential};
ghost use Rattle.timer_wheels.specs.hier.Leap.{AreNotVisitedBefore, IsNextVisit, Leaps};
ghost use Rattle.timer_wheels.specs.WakeUps.{next_visit};

use crate::hier::HierWheel;
use crate::hier::wheels::Wheels;
use crate::occupied::Occupied;
use crate::table::{
    Table, is_rollover, lowest_slots, revolutions, visit_of, with_constant_table, with_wide_table,
};
use timer_links::Kept;

impl<N: Kept> HierWheel<N> {
    ghost use Rattle.timer_wheels.specs.hier.HierWheel.{hier_state, counts_of, counts_of_advance};

    /// Passes ticks as `advance` does, wherever it leads.
    // Kept out of line, so that an advance over a few quiet ticks is short.
    #[inline(never)]
    pub fn advance_far(&mut self, most: u64) -> u64
        requires nothing_due { (hier_state self.old).due ≡ [] }
        requires some { 0 < most }
        requires before_last { most ≤ (hier_state self.old).last_tick - (hier_state self.old).now }
        ensures advances { Advances most result (hier_state self.old) (hier_state self.new) }
        ensures counts { counts_of self.new
            ≡ counts_of_advance (hier_state self.old) (hier_state self.new) (counts_of self.old) }
    {
        let table = self.wheels.table;
        let first = self.wheels.buckets.tick;
        let moves = self.wheels.advance_until_due(most);
        let last = self.wheels.buckets.tick;
        let passed = last - first;
        let visits = visits_between(table, first, last, self.wheels.buckets.has_due());
        let counts = &mut self.counts;
        counts.moves += moves;
        counts.skipped += passed - visits;
        passed
    }
}

impl<N: Kept> Wheels<N> {
    /// Advances to the first tick at which something is due, by at most `most` ticks.
    ///
    /// Returns how many timers went to a lower wheel. Does not allocate.
    pub fn advance_until_due(&mut self, most: u64) -> u64
        requires nothing_due { (state_of self.old.buckets).due ≡ [] }
        requires some { 0 < most }
        requires before_last { most ≤ self.old.buckets.last_tick - self.old.buckets.tick }
        requires few { potential self.old.table self.old.buckets ≤ most_moves (radices Wide) * LAST }
        ensures leaps { Leaps (radices self.old.table) result (state_of self.old.buckets)
            (state_of self.new.buckets) }
        ensures advances { Advances most (self.new.buckets.tick - self.old.buckets.tick)
            (state_of self.old.buckets) (state_of self.new.buckets) }
        ensures table { self.new.table ≡ self.old.table }
    {
        let end = self.buckets.tick + most;
        let mut moves = 0;
        while self.buckets.tick < end {
            moves += self.leap_to_visit(end);
            if self.buckets.has_due() {
                return moves;
            }
        }
        moves
    }

    /// Advances to the next visit of a bucket with a timer, or to the end if that comes first.
    #[inline(always)]
    fn leap_to_visit(&mut self, end: u64) -> u64
        requires nothing_due { (state_of self.old.buckets).due ≡ [] }
        requires before_end { self.old.buckets.tick < end }
        requires end { end ≤ self.old.buckets.last_tick }
        ensures leaps { Leaps (radices self.old.table) result (state_of self.old.buckets)
            (state_of self.new.buckets) }
        ensures later { self.old.buckets.tick < self.new.buckets.tick }
        ensures end { self.new.buckets.tick ≤ end }
        ensures table { self.new.table ≡ self.old.table }
    {
        with_constant_table!(leap_by(self.table, self, end))
    }

    /// The next visit of a bucket with a timer, or None if no bucket has one.
    #[inline]
    pub fn first_visit(&self) -> Option<u64>
        ensures quiet { IsQuietUntil result self.now.buckets.tick (state_of self.now.buckets).pending }
        ensures next { IfSome result (λ tick. IsNextVisit (radices self.now.table) tick
            (state_of self.now.buckets)) }
        ensures exact { result ≡ next_visit (radices self.now.table) self.now.buckets.tick
            (state_of self.now.buckets).pending }
    {
        with_wide_table!(first_visit_by(self.table, self))
    }

    /// Whether no bucket with a timer is visited up to this tick, as far as a look at the lowest wheel shows: the tick is
    /// within its present revolution.
    #[inline(always)]
    pub fn is_quiet_to(&self, end: u64) -> bool
        requires { self.now.buckets.tick ≤ end }
        ensures within { IsTrue result → end / lowest_radix (radices self.now.table)
            ≡ self.now.buckets.tick / lowest_radix (radices self.now.table) }
        ensures not_before { IsTrue result → AreNotVisitedBefore (radices self.now.table) self.now.buckets.slots
            self.now.buckets.tick (end + 1) self.now.buckets.links.lists }
    {
        let now = self.buckets.tick;
        with_constant_table!(is_clear_to(self.table, &self.occupied, now, end))
    }

    /// Sets the clock to a later tick, if no bucket with a timer is visited up to it.
    #[inline]
    pub fn skip_to(&mut self, tick: u64)
        requires nothing_due { (state_of self.old.buckets).due ≡ [] }
        requires later { self.old.buckets.tick ≤ tick }
        requires in_range { tick ≤ self.old.buckets.last_tick }
        requires not_before { AreNotVisitedBefore (radices self.old.table) self.old.buckets.slots
            self.old.buckets.tick (tick + 1) self.old.buckets.links.lists }
        ensures leaps { Leaps (radices self.old.table) 0 (state_of self.old.buckets)
            (state_of self.new.buckets) }
        ensures tick { self.new.buckets.tick ≡ tick }
        ensures last_tick { self.new.buckets.last_tick ≡ self.old.buckets.last_tick }
        ensures nothing_due { (state_of self.new.buckets).due ≡ [] }
        ensures table { self.new.table ≡ self.old.table }
    {
        let buckets = &mut self.buckets;
        buckets.tick = tick;
    }
}

/// `first_visit` by the wheels' table.
#[inline(always)]
fn first_visit_by<N: Kept>(table: Table, wheels: &Wheels<N>) -> Option<u64>
    requires { table ≡ wheels.now.table }
    ensures quiet { IsQuietUntil result wheels.now.buckets.tick (state_of wheels.now.buckets).pending }
    ensures next { IfSome result (λ tick. IsNextVisit (radices wheels.now.table) tick (state_of wheels.now.buckets)) }
    ensures exact { result ≡ next_visit (radices wheels.now.table) wheels.now.buckets.tick
        (state_of wheels.now.buckets).pending }
{
    match wheels.occupied.first() {
        Some(list) => Some(visit_of(table, list, wheels.buckets.tick)),
        None => None,
    }
}

/// `leap_to_visit` by the wheels' table.
#[inline(always)]
fn leap_by<N: Kept>(table: Table, wheels: &mut Wheels<N>, end: u64) -> u64
    requires table { table ≡ wheels.old.table }
    requires nothing_due { (state_of wheels.old.buckets).due ≡ [] }
    requires before_end { wheels.old.buckets.tick < end }
    requires end { end ≤ wheels.old.buckets.last_tick }
    ensures leaps { Leaps (radices wheels.old.table) result (state_of wheels.old.buckets)
        (state_of wheels.new.buckets) }
    ensures later { wheels.old.buckets.tick < wheels.new.buckets.tick }
    ensures end { wheels.new.buckets.tick ≤ end }
    ensures table { wheels.new.table ≡ wheels.old.table }
{
    let Some(list) = wheels.occupied.first() else {
        wheels.skip_to(end);
        return 0;
    };
    let visit = visit_of(table, list, wheels.buckets.tick);
    if end < visit {
        wheels.skip_to(end);
        0
    } else {
        wheels.skip_to(visit - 1);
        wheels.visit_next(list)
    }
}

/// Whether a tick is within the lowest wheel's revolution of this moment, and no bucket of the wheel up to it has a timer.
#[inline(always)]
pub fn is_clear_to(table: Table, occupied: &Occupied, now: u64, end: u64) -> bool
    ensures within { IsTrue result → end / lowest_radix (radices table) ≡ now / lowest_radix (radices table) }
    ensures clear { IsTrue result → (s : ℕ) → s ≤ end % lowest_radix (radices table) → bit_of occupied.now s ≡ 0 }
{
    let slots = lowest_slots(table) as u64;
    end / slots == now / slots && occupied.is_clear_to((end % slots) as usize)
}

/// How many visits the ticks after the first one up to the last count: one at each multiple of the lowest
/// wheel's slots, and that of the last tick if something is due then.
///
/// An empty bucket counts without a look at it, since emptying it changes nothing.
#[tactic(auto, using(crate::proofs::table_lemmas::TableLaws::of_table, crate::proofs::table_lemmas::VisitLaws::few_multiples, crate::proofs::table_lemmas::VisitLaws::fewer_multiples))]
pub fn visits_between(table: Table, first: u64, last: u64, due: bool) -> u64
    requires later { first < last }
    requires range { last ≤ LAST }
    ensures value { result ≡ visited_between (lowest_radix (radices table)) first last due }
    ensures few { result ≤ last - first }
{
    let multiples = revolutions(table, last) - revolutions(table, first);
    if due && !is_rollover(table, last) {
        multiples + 1
    } else {
        multiples
    }
}
