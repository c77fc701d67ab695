//! What a tick of a smooth wheel moves, and at which paces.
//!
//! At each tick as many timers of a wheel's next bucket move as its pace says. As a bucket begins to be the next one, with n
//! timers held in all, its pace becomes 2 * (n / w + 1), w the ticks of its slot: so it is empty by the half of its time,
//! however many of the n it has. What comes to it meanwhile moves two timers for each.
ghost use Rattle.std.specs.Prelude.{◌≡◌, ◌≢◌, ◌<◌, ◌≤◌, ◌+◌, ◌-◌, ◌*◌, ◌==◌, ℕ, length};
ghost use Rattle.timer_links.specs.Lists.{row_count};
ghost use Rattle.timer_wheels.specs.smooth.Wheels.{next_len, movable, potential_of, IsEarly, OthersShrink};
ghost use Rattle.timer_wheels.specs.Buckets.{state_of};
ghost use Rattle.timer_wheels.specs.Digits.{weight};
ghost use Rattle.timer_wheels.specs.smooth.Paces.{pace_at, pace_sum, pace_for, FitPaces, AreInTime, HasMoved};
ghost use Rattle.timer_wheels.specs.smooth.Smooth.{slot_in, ticks_to_half};
ghost use Rattle.timer_wheels.specs.Tables.{wide};
ghost use Rattle.timer_wheels.specs.declared.table.Table.TheVariants.{Wide};
ghost use Rattle.timer_wheels.specs.declared.smooth.paces.TheConstants.{MOST_PACE};

use crate::smooth::paces::Paces;
use crate::smooth::slot_lists::{next_list, slot_of, weight_of, wheel_count};
use crate::smooth::wheels::Wheels;
use crate::table::{Table, is_rollover};
use timer_links::Kept;

/// Moves timers of each wheel's next bucket at its pace, from the lowest wheel up, and returns how many moved.
///
/// The next buckets are in time, and so no timer comes to one of them. Does not allocate.
#[inline]
pub fn move_all<N: Kept>(wheels: &mut Wheels<N>, paces: &mut Paces) -> u64
    requires in_time { AreInTime Wide wheels.old.buckets paces.old }
    ensures state { state_of wheels.new.buckets ≡ state_of wheels.old.buckets }
    ensures tick { wheels.new.buckets.tick ≡ wheels.old.buckets.tick }
    ensures at_most { result ≤ pace_sum paces.old }
    ensures ahead { result ≤ movable Wide wheels.old.buckets }
    ensures falls { potential_of Wide wheels.new.buckets + result ≡ potential_of Wide wheels.old.buckets }
    ensures moved { (k : ℕ) → 0 < k → k < length wide
        → HasMoved Wide wheels.old.buckets wheels.new.buckets paces.old paces.new k }
    ensures paces { (k : ℕ) → pace_at paces.new k ≤ pace_at paces.old k }
{
    if paces.sum() == 0 {
        return 0;
    }
    move_each(wheels, paces)
}

/// The same, wheel by wheel.
// Out of line, as `fix_each` is: a tick that needs neither saves no registers.
#[inline(never)]
fn move_each<N: Kept>(wheels: &mut Wheels<N>, paces: &mut Paces) -> u64
    requires in_time { AreInTime Wide wheels.old.buckets paces.old }
    requires few { pace_sum paces.old < 18446744073709551616 }
    ensures state { state_of wheels.new.buckets ≡ state_of wheels.old.buckets }
    ensures tick { wheels.new.buckets.tick ≡ wheels.old.buckets.tick }
    ensures at_most { result ≤ pace_sum paces.old }
    ensures ahead { result ≤ movable Wide wheels.old.buckets }
    ensures falls { potential_of Wide wheels.new.buckets + result ≡ potential_of Wide wheels.old.buckets }
    ensures moved { (k : ℕ) → 0 < k → k < length wide
        → HasMoved Wide wheels.old.buckets wheels.new.buckets paces.old paces.new k }
    ensures paces { (k : ℕ) → pace_at paces.new k ≤ pace_at paces.old k }
{
    let count = wheel_count();
    let mut moves = 0;
    let mut wheel = 1;
    while wheel < count {
        moves += move_next(wheels, paces, wheel);
        wheel += 1;
    }
    moves
}

/// Moves timers of one wheel's next bucket at its pace, which becomes 0 if none is left for the next tick.
fn move_next<N: Kept>(wheels: &mut Wheels<N>, paces: &mut Paces, wheel: usize) -> u64
    requires above { 0 < wheel }
    requires wheel { wheel < length wide }
    requires early { IsEarly Wide wheels.old.buckets wheel }
    ensures state { state_of wheels.new.buckets ≡ state_of wheels.old.buckets }
    ensures tick { wheels.new.buckets.tick ≡ wheels.old.buckets.tick }
    ensures at_most { result ≤ pace_at paces.old wheel }
    ensures counted { result + next_len Wide wheels.new.buckets wheel ≡ next_len Wide wheels.old.buckets wheel }
    ensures falls { potential_of Wide wheels.new.buckets + result ≡ potential_of Wide wheels.old.buckets }
    ensures moved { HasMoved Wide wheels.old.buckets wheels.new.buckets paces.old paces.new wheel }
    ensures others { OthersShrink Wide wheel wheels.old.buckets wheels.new.buckets }
    ensures paces { (k : ℕ) → k ≢ wheel → pace_at paces.new k ≡ pace_at paces.old k }
{
    let pace = paces.at(wheel);
    let moved = wheels.move_some(wheel, pace);
    if moved < pace {
        paces.set(wheel, 0);
    }
    moved
}

/// A timer came to a wheel's next bucket, or to none if the wheel is 0: two timers of that bucket move.
///
/// Returns how many. Does not allocate.
#[inline]
pub fn make_way<N: Kept>(wheels: &mut Wheels<N>, wheel: usize) -> u64
    requires wheel { wheel < length wide }
    requires early { 0 < wheel → IsEarly Wide wheels.old.buckets wheel }
    ensures state { state_of wheels.new.buckets ≡ state_of wheels.old.buckets }
    ensures tick { wheels.new.buckets.tick ≡ wheels.old.buckets.tick }
    ensures at_most { result ≤ 2 }
    ensures left { 0 < wheel → next_len Wide wheels.new.buckets wheel
        ≡ next_len Wide wheels.old.buckets wheel - 2 }
    ensures falls { potential_of Wide wheels.new.buckets + result ≡ potential_of Wide wheels.old.buckets }
    ensures others { OthersShrink Wide wheel wheels.old.buckets wheels.new.buckets }
{
    if wheel == 0 {
        return 0;
    }
    wheels.move_some(wheel, 2)
}

/// Fixes the paces as slots begin: of each wheel whose slot begins at this tick, for its new next bucket.
#[inline]
pub fn fix_paces<N: Kept>(wheels: &Wheels<N>, paces: &mut Paces)
    ensures begun { (k : ℕ) → 0 < k → k < length wide
        → slot_in wide k wheels.now.buckets.tick * weight k wide ≡ wheels.now.buckets.tick
        → next_len Wide wheels.now.buckets k
        ≤ pace_at paces.new k * ticks_to_half wide wheels.now.buckets.tick k }
    ensures others { (k : ℕ) → slot_in wide k wheels.now.buckets.tick * weight k wide
        ≢ wheels.now.buckets.tick → pace_at paces.new k ≡ pace_at paces.old k }
    ensures fit { (n : ℕ) → row_count wheels.now.buckets.links.lists ≤ n → FitPaces wide n paces.old
        → FitPaces wide n paces.new }
{
    // A slot of a higher wheel begins as one of wheel 1 does.
    if is_rollover(Table::Wide, wheels.buckets.tick) {
        fix_each(wheels, paces);
    }
}

/// The same, wheel by wheel, up to the first whose slot does not begin.
#[inline(never)]
fn fix_each<N: Kept>(wheels: &Wheels<N>, paces: &mut Paces)
    ensures begun { (k : ℕ) → 0 < k → k < length wide
        → slot_in wide k wheels.now.buckets.tick * weight k wide ≡ wheels.now.buckets.tick
        → next_len Wide wheels.now.buckets k
        ≤ pace_at paces.new k * ticks_to_half wide wheels.now.buckets.tick k }
    ensures others { (k : ℕ) → slot_in wide k wheels.now.buckets.tick * weight k wide
        ≢ wheels.now.buckets.tick → pace_at paces.new k ≡ pace_at paces.old k }
    ensures fit { (n : ℕ) → row_count wheels.now.buckets.links.lists ≤ n → FitPaces wide n paces.old
        → FitPaces wide n paces.new }
{
    let count = wheel_count();
    let mut wheel = 1;
    while wheel < count {
        // A slot begins only as one of each lower wheel does.
        if !fix_pace(wheels, paces, wheel) {
            return;
        }
        wheel += 1;
    }
}

/// Fixes the pace of one wheel, if its slot begins at this tick. Returns whether it does.
fn fix_pace<N: Kept>(wheels: &Wheels<N>, paces: &mut Paces, wheel: usize) -> bool
    requires above { 0 < wheel }
    requires wheel { wheel < length wide }
    ensures begins { result ≡ (slot_in wide wheel wheels.now.buckets.tick
        * weight wheel wide == wheels.now.buckets.tick) }
    ensures begun { slot_in wide wheel wheels.now.buckets.tick * weight wheel wide
        ≡ wheels.now.buckets.tick → next_len Wide wheels.now.buckets wheel
        ≤ pace_at paces.new wheel * ticks_to_half wide wheels.now.buckets.tick wheel }
    ensures same { slot_in wide wheel wheels.now.buckets.tick * weight wheel wide
        ≢ wheels.now.buckets.tick → pace_at paces.new wheel ≡ pace_at paces.old wheel }
    ensures others { (k : ℕ) → k ≢ wheel → pace_at paces.new k ≡ pace_at paces.old k }
    ensures fit { (n : ℕ) → row_count wheels.now.buckets.links.lists ≤ n
        → pace_at paces.old wheel ≤ pace_for wide n wheel
        → pace_at paces.new wheel ≤ pace_for wide n wheel }
{
    let tick = wheels.buckets.tick;
    let begins = slot_of(wheel, tick) * weight_of(wheel) == tick;
    if begins {
        paces.set(wheel, pace_of(wheels, wheel));
    }
    begins
}

/// The pace of a wheel whose next bucket begins to be the next one: enough for all timers that are held.
fn pace_of<N: Kept>(wheels: &Wheels<N>, wheel: usize) -> u64
    requires above { 0 < wheel }
    requires wheel { wheel < length wide }
    ensures most { result ≤ MOST_PACE }
    ensures enough { slot_in wide wheel wheels.now.buckets.tick * weight wheel wide
        ≡ wheels.now.buckets.tick → next_len Wide wheels.now.buckets wheel
        ≤ result * ticks_to_half wide wheels.now.buckets.tick wheel }
    ensures few { (n : ℕ) → row_count wheels.now.buckets.links.lists ≤ n → result ≤ pace_for wide n wheel }
{
    if !wheels.filled.has(next_list(wheels.buckets.tick, wheel)) {
        return 0;
    }
    wheels.buckets.lemma_countable();
    let held = wheels.buckets.links.len() as u64;
    2 * (held / weight_of(wheel) + 1)
}
