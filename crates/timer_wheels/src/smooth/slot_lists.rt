//! The wheels of `Table::Wide` with two revolutions of slots each.
//!
//! The slots of wheel k are numbered from tick 0 on: that of a tick is the tick divided by the ticks of one slot.
//! Slot i is list 128 * k + i mod 128: the present revolution and the next one have lists of their own.
ghost use Rattle.std.specs.Prelude.{◌≡◌, ◌<◌, ◌≤◌, ◌*◌, ◌/◌, length};
ghost use Rattle.timer_base.specs.declared.limits.TheConstants.{LAST};
ghost use Rattle.timer_wheels.specs.Digits.{level, radix, weight, last_of};
ghost use Rattle.timer_wheels.specs.smooth.Smooth.{slot_in, smooth_list, smooth_slots, next_list, is_in_next, descend_by};
ghost use Rattle.timer_wheels.specs.Tables.{wide};
ghost use Rattle.timer_wheels.specs.declared.smooth.slot_lists.TheConstants.{MOST_WHEELS, MOST_LISTS};

use crate::occupied::{Bits, WORD_BITS};
use crate::table::wide;

/// How many wheels there are.
pub const MOST_WHEELS: usize = 10;

/// How many lists the buckets are.
pub const MOST_LISTS: usize = 1280;

/// How many words hold a bit for each list.
const WORDS: usize = MOST_LISTS / WORD_BITS;

// The words are whole: with a rest, the last lists would have no bit.
const _: () = prove!(MOST_LISTS % WORD_BITS == 0);

/// A bit for each list of a smooth wheel.
pub type Filled = Bits<WORDS>;

/// How many wheels there are.
#[inline]
#[tactic(auto, unfolding(crate::specs::Tables::wide))]
pub fn wheel_count() -> usize
    ensures value { result ≡ length wide }
    ensures few { result ≤ MOST_WHEELS }
    ensures some { 0 < result }
{
    MOST_WHEELS
}

/// How many lists the buckets are.
#[inline]
#[tactic(auto, unfolding(crate::specs::Tables::wide))]
pub fn list_count() -> usize
    ensures value { result ≡ smooth_slots wide }
    ensures in_range { result ≤ MOST_LISTS }
{
    MOST_LISTS
}

/// How many ticks a slot of a wheel is.
#[inline]
#[tactic(auto, using(crate::proofs::table_lemmas::WideDigits::wide_shift, crate::proofs::table_lemmas::WideDigits::wide_length))]
pub fn weight_of(wheel: usize) -> u64
    requires { wheel < length wide }
    ensures { result ≡ weight wheel wide }
{
    1 << (6 * wheel)
}

/// How many slots a wheel has: two revolutions.
#[inline]
#[tactic(auto, using(crate::proofs::table_lemmas::WideDigits::wide_turns, crate::proofs::table_lemmas::WideDigits::wide_length))]
pub fn turns_of(wheel: usize) -> u64
    requires { wheel < length wide }
    ensures value { result ≡ 2 * radix wheel wide }
    ensures few { result ≤ 200 }
{
    128
}

/// The slot of a tick on a wheel.
#[inline]
#[tactic(auto, using(crate::proofs::table_lemmas::WideDigits::wide_slot, crate::proofs::table_lemmas::WideDigits::wide_length))]
pub fn slot_of(wheel: usize, tick: u64) -> u64
    requires { wheel < length wide }
    ensures { result ≡ slot_in wide wheel tick }
{
    tick >> (6 * wheel)
}

/// The list of a slot.
#[inline]
#[tactic(auto, using(crate::proofs::table_lemmas::WideDigits::wide_list), unfolding(crate::specs::Tables::wide))]
pub fn list_of_slot(wheel: usize, slot: u64) -> usize
    requires { wheel < length wide }
    ensures value { result ≡ smooth_list wide wheel slot }
    ensures in_range { result < smooth_slots wide }
{
    128 * wheel + (slot % 128) as usize
}

/// The highest wheel on which a deadline has another digit than now.
#[inline]
#[tactic(auto, unfolding(crate::specs::Tables::wide))]
pub fn level_of(now: u64, deadline: u64) -> usize
    requires later { now < deadline }
    requires deadline { deadline ≤ last_of wide }
    ensures value { result ≡ level wide now deadline }
    ensures in_range { result < length wide }
{
    wide::level_of(now, deadline) as usize
}

/// The list of the next bucket of a wheel.
#[inline]
pub fn next_list(now: u64, wheel: usize) -> usize
    requires wheel { wheel < length wide }
    requires now { now ≤ LAST }
    ensures value { result ≡ next_list wide now wheel }
    ensures in_range { result < smooth_slots wide }
{
    list_of_slot(wheel, slot_of(wheel, now) + 1)
}

/// Whether a tick is in the next bucket of a wheel.
#[inline]
pub fn is_in_next(now: u64, wheel: usize, tick: u64) -> bool
    requires wheel { wheel < length wide }
    requires now { now ≤ LAST }
    ensures { result ≡ is_in_next wide now wheel tick }
{
    slot_of(wheel, tick) == slot_of(wheel, now) + 1
}

/// From a wheel downwards, the first at which a deadline is not in the next bucket, or that bucket is not empty.
#[inline(always)]
pub fn descend(now: u64, filled: &Filled, from: usize, deadline: u64) -> usize
    requires from { from < length wide }
    requires now { now ≤ LAST }
    ensures value { result ≡ descend_by wide now filled.now deadline from }
    ensures in_range { result ≤ from }
{
    let mut wheel = from;
    while wheel > 0 {
        if !is_in_next(now, wheel, deadline) {
            return wheel;
        }
        if filled.has(next_list(now, wheel)) {
            return wheel;
        }
        wheel -= 1;
    }
    wheel
}
