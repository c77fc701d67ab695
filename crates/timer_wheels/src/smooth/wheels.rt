//! The buckets of a smooth wheel and their bits: each timer stands where the placement law says.
ghost use Rattle.std.specs.Prelude.{IfOk, IfSome, IfNone, OnOk, OnErr, ◌≡◌, ◌≢◌, ◌<◌, ◌≤◌, ◌+◌, ◌-◌, ℕ, [], length, true, false};
ghost use Rattle.timer_base.specs.WheelState.{first_due, after_expiry, after_reserve, empty_wheel, held_at, held_count, old_timer, after_held_start, after_removal, after_replacement, after_tick, after_clear};
ghost use Rattle.timer_base.specs.declared.limits.TheConstants.{LAST};
ghost use Rattle.timer_wheels.specs.Digits.{level};
ghost use Rattle.timer_links.specs.Lists.{list_at, appended};
ghost use Rattle.timer_wheels.specs.Buckets.{state_of, IsListOf, RemovesRow};
ghost use Rattle.timer_wheels.specs.smooth.Wheels.{AreWheels, AreWheels-prop, LeavesBits, next_len, potential_of, wheel_of, IsEarly, OthersStay, AllShrink, IsNextOf, ComesTo, restarted_of};
ghost use Rattle.timer_wheels.specs.BucketLists.{EachRow};
ghost use Rattle.timer_wheels.specs.Occupied.{bit_of};
ghost use Rattle.timer_base.specs.Layout.{OneWheel};
ghost use Rattle.timer_wheels.specs.smooth.Smooth.{IsAheadOf, slot_in, smooth_list, smooth_slots, next_list, descend_by};
ghost use Rattle.timer_wheels.specs.declared.smooth.slot_lists.TheConstants.{MOST_LISTS};
ghost use Rattle.timer_wheels.specs.Tables.{wide};
ghost use Rattle.timer_wheels.specs.declared.table.Table.TheVariants.{Wide};

use crate::buckets::Buckets;
use crate::smooth::slot_lists::{
    Filled, MOST_LISTS, descend, is_in_next, level_of, list_count, list_of_slot, next_list, slot_of,
};
use crate::walks::front_deadline;
use std::alloc::Global;
use timer_base::{Handle, LAST, OutOfMemory, Timer};
use timer_links::{Kept, Links};

/// The buckets of all wheels, and which of them have a timer.
#[derive(Drop)]
pub struct Wheels<N: Kept = Timer> {
    /// The lists of two revolutions of each wheel.
    pub buckets: Buckets<N>,
    /// Which lists have a timer.
    pub filled: Filled,
    ghost wheels: { AreWheels Wide buckets filled } by { AreWheels-prop Wide buckets filled },
}

impl<N: Kept> Wheels<N> {
    /// The empty buckets.
    pub fn new(alloc: Global, first_tick: u64) -> Result<Wheels<N>, OutOfMemory>
        requires { first_tick ≤ LAST }
        ensures state { IfOk result (λ wheels. state_of wheels.buckets
            ≡ empty_wheel (OneWheel (smooth_slots wide)) LAST first_tick) }
        ensures empty { IfOk result (λ wheels. (s : ℕ) → list_at s wheels.buckets.links.lists ≡ []) }
    {
        let buckets = Buckets::new(alloc, list_count(), LAST, first_tick)?;
        Ok(Wheels {
            buckets,
            filled: Filled::new(),
        })
    }

    /// Makes room for so many timers.
    pub fn reserve(&mut self, most: usize) -> Result<(), OutOfMemory>
        ensures ok { OnOk result (state_of self.new.buckets ≡ after_reserve most (state_of self.old.buckets)) }
        ensures more { OnErr result ((state_of self.old.buckets).room < most) }
        ensures err { OnErr result (state_of self.new.buckets ≡ state_of self.old.buckets) }
        ensures lists { self.new.buckets.links.lists ≡ self.old.buckets.links.lists }
        ensures tick { self.new.buckets.tick ≡ self.old.buckets.tick }
    {
        self.buckets.reserve(most)
    }

    /// The list of a timer that is started now, or the list of due timers if its deadline is now; and the wheel whose next
    /// bucket that list is, or 0 if it is none's.
    #[inline(always)]
    fn place_of(&self, deadline: u64) -> (usize, usize)
        requires not_past { self.now.buckets.tick ≤ deadline }
        requires deadline { deadline ≤ self.now.buckets.last_tick }
        ensures list { IsListOf result.0 self.now.buckets.slots self.now.buckets.tick deadline }
        ensures due { deadline ≤ self.now.buckets.tick → result.0 ≡ self.now.buckets.slots }
        ensures bucket { self.now.buckets.tick < deadline → result.0
            ≡ smooth_list wide
            (descend_by wide self.now.buckets.tick self.now.filled deadline
            (level wide self.now.buckets.tick deadline))
            (slot_in wide
            (descend_by wide self.now.buckets.tick self.now.filled deadline
            (level wide self.now.buckets.tick deadline)) deadline) }
        ensures next { IsNextOf wide self.now.buckets.tick self.now.filled result.0 result.1 }
    {
        if deadline <= self.buckets.tick {
            return (self.buckets.slots, 0);
        }
        place_in(self, deadline)
    }

    /// Starts a timer, in its bucket or as the last of the due ones.
    ///
    /// Returns beside the handle the wheel whose next bucket it came to, or 0 if it came to none.
    #[inline(always)]
    pub fn start(&mut self, timer: Timer) -> Result<(Handle, usize), OutOfMemory>
        requires not_past { self.old.buckets.tick ≤ timer.deadline }
        requires deadline { timer.deadline ≤ self.old.buckets.last_tick }
        requires fresh { self.old.buckets.last_serial < timer.serial }
        requires serial { timer.serial ≤ LAST }
        requires keeps { N.keeps (record { timer = timer; rounds = 0 }) }
        ensures named { IfOk result (λ r. r.0.serial ≡ timer.serial) }
        ensures started { IfOk result (λ r. state_of self.new.buckets
            ≡ after_held_start r.0.place timer (state_of self.old.buckets)) }
        ensures comes { IfOk result (λ r. ComesTo Wide r.1 self.old.buckets self.new.buckets) }
        ensures potential { IfOk result (λ r. potential_of Wide self.new.buckets
            ≡ potential_of Wide self.old.buckets + wheel_of Wide self.old.buckets timer) }
        ensures full { OnErr result ((state_of self.old.buckets).room
            ≤ held_count (state_of self.old.buckets)) }
        ensures err { OnErr result (state_of self.new.buckets ≡ state_of self.old.buckets) }
        ensures lists { OnErr result (self.new.buckets.links.lists ≡ self.old.buckets.links.lists) }
        ensures tick { self.new.buckets.tick ≡ self.old.buckets.tick }
    {
        let tick = self.buckets.tick;
        let (list, wheel) = self.place_of(timer.deadline);
        let handle = self.buckets.start(list, timer, 0)?;
        enter(&mut self.filled, tick, timer.deadline, list);
        Ok((handle, wheel))
    }

    /// Moves the first timer of a wheel's next bucket to a lower wheel, if there is one.
    ///
    /// Returns whether there was one. Does not allocate.
    pub fn move_one(&mut self, wheel: usize) -> bool
        requires above { 0 < wheel }
        requires wheel { wheel < length wide }
        ensures state { state_of self.new.buckets ≡ state_of self.old.buckets }
        ensures tick { self.new.buckets.tick ≡ self.old.buckets.tick }
        ensures same { result ≡ false → self.new.buckets ≡ self.old.buckets }
        ensures empty { result ≡ false → next_len Wide self.old.buckets wheel ≡ 0 }
        ensures moved { result ≡ true → next_len Wide self.new.buckets wheel + 1
            ≡ next_len Wide self.old.buckets wheel }
        ensures falls { result ≡ true → potential_of Wide self.new.buckets + 1
            ≤ potential_of Wide self.old.buckets }
        ensures exact { IsEarly Wide self.old.buckets wheel → result ≡ true
            → potential_of Wide self.new.buckets + 1 ≡ potential_of Wide self.old.buckets }
        ensures others { IsEarly Wide self.old.buckets wheel
            → OthersStay Wide wheel self.old.buckets self.new.buckets }
    {
        let tick = self.buckets.tick;
        let from = next_list(tick, wheel);
        let Some(deadline) = front_deadline(&self.buckets.links, from) else {
            return false;
        };
        let below = descend(tick, &self.filled, wheel - 1, deadline);
        let to = list_of_slot(below, slot_of(below, deadline));
        let buckets = &mut self.buckets;
        buckets.links.move_front(from, to);
        self.filled.insert_once(to);
        settle(&buckets.links, &mut self.filled, from);
        true
    }

    /// Moves timers from the front of a wheel's next bucket to lower wheels: so many, or all.
    ///
    /// Returns how many. In the first half of the bucket's time each goes just one wheel down, and none comes to a next
    /// bucket. Does not allocate.
    pub fn move_some(&mut self, wheel: usize, most: u64) -> u64
        requires above { 0 < wheel }
        requires wheel { wheel < length wide }
        ensures state { state_of self.new.buckets ≡ state_of self.old.buckets }
        ensures tick { self.new.buckets.tick ≡ self.old.buckets.tick }
        ensures at_most { result ≤ most }
        ensures left { next_len Wide self.new.buckets wheel
            ≡ next_len Wide self.old.buckets wheel - most }
        ensures counted { result + next_len Wide self.new.buckets wheel
            ≡ next_len Wide self.old.buckets wheel }
        ensures all { result < most → next_len Wide self.new.buckets wheel ≡ 0 }
        ensures falls { potential_of Wide self.new.buckets + result
            ≤ potential_of Wide self.old.buckets }
        ensures exact { IsEarly Wide self.old.buckets wheel
            → potential_of Wide self.new.buckets + result ≡ potential_of Wide self.old.buckets }
        ensures others { IsEarly Wide self.old.buckets wheel
            → OthersStay Wide wheel self.old.buckets self.new.buckets }
    {
        let mut moved = 0;
        while moved < most {
            if !self.move_one(wheel) {
                return moved;
            }
            moved += 1;
        }
        moved
    }

    /// Whether the lowest wheel's bucket of this tick has no timer.
    #[inline(always)]
    pub fn is_empty_at(&self, tick: u64) -> bool {
        self.buckets.links.is_empty(list_of_slot(0, tick))
    }

    /// Advances to the next tick: its timers become due.
    ///
    /// No timer is left in a next bucket that begins to be the present one. Does not allocate.
    pub fn next_tick(&mut self)
        requires nothing_due { (state_of self.old.buckets).due ≡ [] }
        requires before_last { self.old.buckets.tick < self.old.buckets.last_tick }
        requires empty { (k : ℕ) → 0 < k → k < length wide
            → slot_in wide k (self.old.buckets.tick + 1)
            ≡ slot_in wide k self.old.buckets.tick + 1
            → list_at (next_list wide self.old.buckets.tick k) self.old.buckets.links.lists ≡ [] }
        ensures ticked { state_of self.new.buckets ≡ after_tick (state_of self.old.buckets) }
        ensures tick { self.new.buckets.tick ≡ self.old.buckets.tick + 1 }
        ensures kept { (j : ℕ) → 0 < j → j < length wide
            → slot_in wide j (self.old.buckets.tick + 1) ≡ slot_in wide j self.old.buckets.tick
            → next_len Wide self.new.buckets j ≡ next_len Wide self.old.buckets j }
        ensures potential { potential_of Wide self.new.buckets ≡ potential_of Wide self.old.buckets }
    {
        let tick = self.buckets.tick + 1;
        let list = list_of_slot(0, tick);
        let buckets = &mut self.buckets;
        let due = buckets.slots;
        make_due(&mut buckets.links, &mut self.filled, list, due);
        buckets.tick = tick;
    }

    /// Sets the clock to a later tick, if nothing is due and no bucket with a timer begins to be the present one.
    pub fn skip_to(&mut self, tick: u64)
        requires nothing_due { (state_of self.old.buckets).due ≡ [] }
        requires later { self.old.buckets.tick ≤ tick }
        requires in_range { tick ≤ self.old.buckets.last_tick }
        requires ahead { EachRow (IsAheadOf wide tick) self.old.buckets.slots
            self.old.buckets.links.lists }
        ensures state { state_of self.new.buckets ≡ record (state_of self.old.buckets) { now = tick } }
        ensures tick { self.new.buckets.tick ≡ tick }
        ensures lists { self.new.buckets.links.lists ≡ self.old.buckets.links.lists }
    {
        let buckets = &mut self.buckets;
        buckets.tick = tick;
    }

    /// Removes the timer with just this handle, pending or due. Does not allocate.
    pub fn stop(&mut self, handle: Handle) -> Option<Timer>
        ensures timer { result ≡ held_at handle (state_of self.old.buckets) }
        ensures stopped { state_of self.new.buckets ≡ after_removal handle (state_of self.old.buckets) }
        ensures lists { RemovesRow result handle.place self.old.buckets.links.lists self.new.buckets.links.lists }
        ensures tick { self.new.buckets.tick ≡ self.old.buckets.tick }
        ensures shrinks { AllShrink Wide self.old.buckets self.new.buckets }
        ensures falls { potential_of Wide self.new.buckets ≤ potential_of Wide self.old.buckets }
    {
        self.buckets.links.lemma_keys_unique();
        let (timer, emptied) = self.buckets.take(handle)?;
        leave(&mut self.filled, self.buckets.slots, emptied);
        Some(timer)
    }

    /// Removes the timer with just this handle, and starts another at its place. Does not allocate.
    ///
    /// Returns beside the new handle and the old timer the wheel whose next bucket the new one came to, or 0 if it came
    /// to none.
    #[inline(always)]
    pub fn restart(&mut self, handle: Handle, timer: Timer) -> Option<((Handle, Timer), usize)>
        requires not_past { self.old.buckets.tick ≤ timer.deadline }
        requires deadline { timer.deadline ≤ self.old.buckets.last_tick }
        requires fresh { self.old.buckets.last_serial < timer.serial }
        requires serial { timer.serial ≤ LAST }
        requires keeps { N.keeps (record { timer = timer; rounds = 0 }) }
        ensures old { old_timer (restarted_of result) ≡ held_at handle (state_of self.old.buckets) }
        ensures named { IfSome result (λ r. r.0.0.serial ≡ timer.serial) }
        ensures place { IfSome result (λ r. r.0.0.place ≡ handle.place) }
        ensures restarted { state_of self.new.buckets
            ≡ after_replacement (restarted_of result) handle timer (state_of self.old.buckets) }
        ensures comes { IfSome result (λ r. ComesTo Wide r.1 self.old.buckets self.new.buckets) }
        ensures potential { IfSome result (λ r. potential_of Wide self.new.buckets
            + wheel_of Wide self.old.buckets r.0.1 ≡ potential_of Wide self.old.buckets
            + wheel_of Wide self.old.buckets timer) }
        ensures none { IfNone result (self.new.buckets.links.lists ≡ self.old.buckets.links.lists) }
        ensures tick { self.new.buckets.tick ≡ self.old.buckets.tick }
    {
        self.buckets.links.lemma_keys_unique();
        let tick = self.buckets.tick;
        let (list, wheel) = self.place_of(timer.deadline);
        let (restarted, emptied) = self.buckets.replace(handle, list, timer, 0)?;
        leave(&mut self.filled, self.buckets.slots, emptied);
        enter(&mut self.filled, tick, timer.deadline, list);
        Some((restarted, wheel))
    }

    /// Takes the first of the due timers.
    pub fn expire(&mut self) -> Option<Timer>
        ensures first { result ≡ first_due (state_of self.old.buckets) }
        ensures rest { state_of self.new.buckets ≡ after_expiry (state_of self.old.buckets) }
        ensures lists { (s : ℕ) → s < self.old.buckets.slots
            → list_at s self.new.buckets.links.lists ≡ list_at s self.old.buckets.links.lists }
        ensures tick { self.new.buckets.tick ≡ self.old.buckets.tick }
        ensures shrinks { AllShrink Wide self.old.buckets self.new.buckets }
        ensures falls { potential_of Wide self.new.buckets ≤ potential_of Wide self.old.buckets }
    {
        self.buckets.expire()
    }

    /// Drops the pending timers. Does not allocate.
    pub fn clear(&mut self)
        ensures cleared { state_of self.new.buckets ≡ after_clear (state_of self.old.buckets) }
        ensures tick { self.new.buckets.tick ≡ self.old.buckets.tick }
        ensures empty { (s : ℕ) → s < self.old.buckets.slots → list_at s self.new.buckets.links.lists ≡ [] }
    {
        self.buckets.clear();
        self.filled = Filled::new();
    }
}

/// The list of a timer that is pending now, and the wheel whose next bucket that list is, or 0 if it is none's.
#[inline(always)]
fn place_in<N: Kept>(wheels: &Wheels<N>, deadline: u64) -> (usize, usize)
    requires later { wheels.now.buckets.tick < deadline }
    requires deadline { deadline ≤ wheels.now.buckets.last_tick }
    ensures in_range { result.0 < wheels.now.buckets.slots }
    ensures bucket { result.0 ≡ smooth_list wide
        (descend_by wide wheels.now.buckets.tick wheels.now.filled deadline (level wide wheels.now.buckets.tick deadline))
        (slot_in wide
        (descend_by wide wheels.now.buckets.tick wheels.now.filled deadline (level wide wheels.now.buckets.tick deadline))
        deadline) }
    ensures next { IsNextOf wide wheels.now.buckets.tick wheels.now.filled result.0 result.1 }
{
    let tick = wheels.buckets.tick;
    let wheel = descend(tick, &wheels.filled, level_of(tick, deadline), deadline);
    let list = list_of_slot(wheel, slot_of(wheel, deadline));
    if is_in_next(tick, wheel, deadline) {
        (list, wheel)
    } else {
        (list, 0)
    }
}

/// Moves the timers of a bucket to the list of due timers. Most ticks find their bucket empty, and write nothing.
#[inline(always)]
fn make_due<N: Kept>(links: &mut Links<N>, filled: &mut Filled, list: usize, due: usize)
    requires list { list < length links.old.lists }
    requires due { due < length links.old.lists }
    requires apart { due ≢ list }
    requires few { list < MOST_LISTS }
    requires marked { list_at list links.old.lists ≡ [] → bit_of filled.old list ≡ 0 }
    ensures appended { links.new.lists ≡ appended list due links.old.lists }
    ensures room { links.new.room ≡ links.old.room }
    ensures clear { bit_of filled.new list ≡ 0 }
    ensures others { (s : ℕ) → s ≢ list → bit_of filled.new s ≡ bit_of filled.old s }
{
    if !links.is_empty(list) {
        links.append(list, due);
        filled.remove(list);
    }
}

/// A list lost a timer: its bit is cleared if it is empty.
fn settle<N: Kept>(links: &Links<N>, filled: &mut Filled, list: usize)
    requires list { list < length links.now.lists }
    requires few { list < MOST_LISTS }
    ensures empty { list_at list links.now.lists ≡ [] → bit_of filled.new list ≡ 0 }
    ensures kept { list_at list links.now.lists ≢ [] → bit_of filled.new list ≡ bit_of filled.old list }
    ensures others { (s : ℕ) → s ≢ list → bit_of filled.new s ≡ bit_of filled.old s }
{
    if links.is_empty(list) {
        filled.remove(list);
    }
}

/// A timer with this deadline came to the back of a list. If that is a bucket, its bit is set.
fn enter(filled: &mut Filled, tick: u64, deadline: u64, list: usize)
    requires { tick < deadline → list < MOST_LISTS }
    ensures pending { tick < deadline
        → (bit_of filled.new list ≡ 1) × ((s : ℕ) → s ≢ list → bit_of filled.new s ≡ bit_of filled.old s) }
    ensures due { deadline ≤ tick → filled.new ≡ filled.old }
{
    if deadline > tick {
        filled.insert_once(list);
    }
}

/// A list became empty, if one did: if it is a bucket, its bit is cleared.
fn leave(filled: &mut Filled, slots: usize, emptied: Option<usize>)
    requires { slots ≤ MOST_LISTS }
    ensures { LeavesBits slots emptied filled.old filled.new }
{
    let Some(list) = emptied else {
        return;
    };
    if list < slots {
        filled.remove(list);
    }
}
