//! The clock of a lazy wheel: its ticks, its leaps over ticks at which nothing happens, and the next deadline.
//!
//! The bits say which bucket is visited next, and whether a tick or a short advance visits one. So those that visit none set
//! the clock alone, and look at no list.
ghost use Rattle.std.specs.Prelude.{◌≡◌, ◌<◌, ◌≤◌, ◌+◌, ◌-◌, ℕ, [], length, IfSome, IfNone, IsTrue};
ghost use Rattle.timer_base.specs.WakeUps.{next_deadline};
ghost use Rattle.timer_base.specs.WheelState.{Advances, IsPassing, after_tick};
ghost use Rattle.timer_links.specs.Lists.{list_at};
ghost use Rattle.timer_wheels.specs.Buckets.{state_of};
ghost use Rattle.timer_wheels.specs.Digits.{emptied, slots};
ghost use Rattle.timer_wheels.specs.lazy.Files.{AreVisitedFrom, IsBy, with_filings, filings_left, filed_next};
ghost use Rattle.timer_wheels.specs.smooth.SmoothWheel.{PassesSomeTicks};
ghost use Rattle.timer_wheels.specs.Tables.{radices};

use crate::deadlines::least_in;
use crate::hier::leap::is_clear_to;
use crate::lazy::files::Files;
use crate::lazy::filing::empty_bucket;
use crate::table::{Table, buckets_of, emptied_at, visit_of, with_constant_table};
use timer_base::earlier;
use timer_links::Kept;

impl<N: Kept> Files<N> {
    /// Advances by one tick. Does not allocate.
    #[inline(always)]
    pub fn next_tick(&mut self)
        requires nothing_due { (state_of self.old.buckets).due ≡ [] }
        requires before_last { self.old.buckets.tick < self.old.buckets.last_tick }
        ensures ticked { state_of self.new.buckets ≡ after_tick (state_of self.old.buckets) }
        ensures counts { self.new.counts ≡ with_filings (filed_next self.old.table self.old.buckets) self.old.counts }
        ensures counted { self.new.counts.filings + filings_left self.new.table self.new.buckets
            ≤ self.old.counts.filings + filings_left self.old.table self.old.buckets }
        ensures table { self.new.table ≡ self.old.table }
    {
        with_constant_table!(tick_by(self.table, self))
    }

    /// Advances to the next tick, which empties this bucket. Does not allocate.
    // Out of line: few ticks find a timer in their bucket.
    #[inline(never)]
    fn visit(&mut self, list: usize)
        requires nothing_due { (state_of self.old.buckets).due ≡ [] }
        requires before_last { self.old.buckets.tick < self.old.buckets.last_tick }
        requires emptied { list ≡ emptied (radices self.old.table) (self.old.buckets.tick + 1) }
        requires in_table { list < slots (radices self.old.table) }
        ensures ticked { state_of self.new.buckets ≡ after_tick (state_of self.old.buckets) }
        ensures counts { self.new.counts ≡ with_filings (filed_next self.old.table self.old.buckets) self.old.counts }
        ensures counted { self.new.counts.filings + filings_left self.new.table self.new.buckets
            ≤ self.old.counts.filings + filings_left self.old.table self.old.buckets }
        ensures table { self.new.table ≡ self.old.table }
    {
        let tick = self.buckets.tick + 1;
        let buckets = &mut self.buckets;
        let filed = empty_bucket(
            self.table,
            &mut buckets.links,
            &mut self.occupied,
            list,
            tick,
        );
        buckets.tick = tick;
        let counts = &mut self.counts;
        counts.filings += filed;
    }

    /// The first visit of a bucket with a timer, or None if no bucket has one. No timer is due before it.
    #[inline]
    pub fn first_visit(&self) -> Option<u64>
        ensures none { IfNone result ((state_of self.now.buckets).pending ≡ []) }
        ensures empty { IfNone result ((s : ℕ) → s < self.now.buckets.slots
            → list_at s self.now.buckets.links.lists ≡ []) }
        ensures some { IfSome result (λ visit. 0 < length (state_of self.now.buckets).pending) }
        ensures later { IfSome result (λ visit. self.now.buckets.tick < visit) }
        ensures first { IfSome result (λ visit. AreVisitedFrom (radices self.now.table) visit self.now.buckets.tick
            self.now.buckets.slots self.now.buckets.links.lists) }
    {
        let list = self.occupied.first()?;
        Some(visit_of(self.table, list, self.buckets.tick))
    }

    /// The first pending deadline. Does not allocate.
    ///
    /// Found by a walk along the buckets in the order of their visits, up to one that isn't visited before a deadline that
    /// was found.
    pub fn next_deadline(&self) -> Option<u64>
        ensures { result ≡ next_deadline (state_of self.now.buckets).pending }
    {
        let count = buckets_of(self.table);
        let mut least = None;
        let mut list = 0;
        while list < count {
            let clear = self.occupied.clear_from(list);
            if clear != 0 {
                list = count.min(list + clear);
            } else {
                let visit = visit_of(self.table, list, self.buckets.tick);
                if is_by(least, visit) {
                    return least;
                }
                least = earlier(least, least_in(&self.buckets.links, list));
                list += 1;
            }
        }
        least
    }

    /// Sets the clock to a later tick, if nothing is due and no bucket with a timer is visited up to it.
    #[inline]
    fn skip_to(&mut self, tick: u64)
        requires nothing_due { (state_of self.old.buckets).due ≡ [] }
        requires later { self.old.buckets.tick ≤ tick }
        requires in_range { tick ≤ self.old.buckets.last_tick }
        requires ahead { AreVisitedFrom (radices self.old.table) (tick + 1) self.old.buckets.tick
            self.old.buckets.slots self.old.buckets.links.lists }
        ensures state { state_of self.new.buckets ≡ record (state_of self.old.buckets) { now = tick } }
        ensures passing { IsPassing (tick - self.old.buckets.tick) (state_of self.old.buckets) (state_of self.new.buckets) }
        ensures counts { self.new.counts ≡ self.old.counts }
        ensures left { filings_left self.new.table self.new.buckets ≤ filings_left self.old.table self.old.buckets }
        ensures table { self.new.table ≡ self.old.table }
        ensures tick { self.new.buckets.tick ≡ tick }
    {
        let buckets = &mut self.buckets;
        buckets.tick = tick;
    }

    /// Advances to the first visit of a bucket with a timer, or to the end if that comes first.
    fn pass(&mut self, end: u64)
        requires nothing_due { (state_of self.old.buckets).due ≡ [] }
        requires later { self.old.buckets.tick < end }
        requires end { end ≤ self.old.buckets.last_tick }
        ensures passes { PassesSomeTicks (state_of self.old.buckets) (state_of self.new.buckets) }
        ensures end { self.new.buckets.tick ≤ end }
        ensures starts { self.new.counts.starts ≡ self.old.counts.starts }
        ensures counted { self.new.counts.filings + filings_left self.new.table self.new.buckets
            ≤ self.old.counts.filings + filings_left self.old.table self.old.buckets }
        ensures table { self.new.table ≡ self.old.table }
    {
        let Some(list) = self.occupied.first() else {
            self.skip_to(end);
            return;
        };
        let visit = visit_of(self.table, list, self.buckets.tick);
        if end < visit {
            self.skip_to(end);
        } else {
            self.skip_to(visit - 1);
            self.visit(list);
        }
    }

    /// Whether no bucket with a timer is visited up to this tick, as far as a look at the lowest wheel shows: the tick is
    /// within its present revolution.
    #[inline(always)]
    fn is_quiet_to(&self, end: u64) -> bool
        ensures { IsTrue result → AreVisitedFrom (radices self.now.table) (end + 1) self.now.buckets.tick
            self.now.buckets.slots self.now.buckets.links.lists }
    {
        with_constant_table!(is_quiet_by(self.table, self, end))
    }

    /// Advances to the first tick at which something is due, by at most `most` ticks.
    ///
    /// Returns how many ticks were passed. Looks at each visit of a bucket with a timer. Does not allocate.
    #[inline(always)]
    pub fn advance(&mut self, most: u64) -> u64
        requires nothing_due { (state_of self.old.buckets).due ≡ [] }
        requires some { 0 < most }
        requires before_last { most ≤ self.old.buckets.last_tick - self.old.buckets.tick }
        ensures advances { Advances most result (state_of self.old.buckets) (state_of self.new.buckets) }
        ensures starts { self.new.counts.starts ≡ self.old.counts.starts }
        ensures counted { self.new.counts.filings + filings_left self.new.table self.new.buckets
            ≤ self.old.counts.filings + filings_left self.old.table self.old.buckets }
        ensures table { self.new.table ≡ self.old.table }
    {
        let end = self.buckets.tick + most;
        if self.is_quiet_to(end) {
            self.skip_to(end);
            return most;
        }
        self.advance_far(most)
    }

    /// The same, wherever it leads.
    // Kept out of line, so that an advance over a few quiet ticks is short.
    #[inline(never)]
    fn advance_far(&mut self, most: u64) -> u64
        requires nothing_due { (state_of self.old.buckets).due ≡ [] }
        requires some { 0 < most }
        requires before_last { most ≤ self.old.buckets.last_tick - self.old.buckets.tick }
        ensures advances { Advances most result (state_of self.old.buckets) (state_of self.new.buckets) }
        ensures starts { self.new.counts.starts ≡ self.old.counts.starts }
        ensures counted { self.new.counts.filings + filings_left self.new.table self.new.buckets
            ≤ self.old.counts.filings + filings_left self.old.table self.old.buckets }
        ensures table { self.new.table ≡ self.old.table }
    {
        let first = self.buckets.tick;
        let end = first + most;
        while self.buckets.tick < end {
            self.pass(end);
            if self.buckets.has_due() {
                return self.buckets.tick - first;
            }
        }
        most
    }
}

/// `next_tick` by the wheel's table. Most ticks find no timer in the bucket that they empty, and set the clock alone.
#[inline(always)]
fn tick_by<N: Kept>(table: Table, files: &mut Files<N>)
    requires table { table ≡ files.old.table }
    requires nothing_due { (state_of files.old.buckets).due ≡ [] }
    requires before_last { files.old.buckets.tick < files.old.buckets.last_tick }
    ensures ticked { state_of files.new.buckets ≡ after_tick (state_of files.old.buckets) }
    ensures counts { files.new.counts ≡ with_filings (filed_next files.old.table files.old.buckets) files.old.counts }
    ensures counted { files.new.counts.filings + filings_left files.new.table files.new.buckets
        ≤ files.old.counts.filings + filings_left files.old.table files.old.buckets }
    ensures table { files.new.table ≡ files.old.table }
{
    let tick = files.buckets.tick + 1;
    let list = emptied_at(table, tick);
    if files.occupied.has(list) {
        files.visit(list);
    } else {
        files.skip_to(tick);
    }
}

/// `is_quiet_to` by the wheel's table.
#[inline(always)]
fn is_quiet_by<N: Kept>(table: Table, files: &Files<N>, end: u64) -> bool
    requires { table ≡ files.now.table }
    ensures { IsTrue result → AreVisitedFrom (radices files.now.table) (end + 1) files.now.buckets.tick
        files.now.buckets.slots files.now.buckets.links.lists }
{
    is_clear_to(table, &files.occupied, files.buckets.tick, end)
}

/// Whether there is a deadline, and it is not after this tick.
#[inline(always)]
fn is_by(deadline: Option<u64>, tick: u64) -> bool
    ensures { IsTrue result → IsBy tick deadline }
{
    match deadline {
        Some(deadline) => deadline <= tick,
        None => false,
    }
}
