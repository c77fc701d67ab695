//! The wide table: ten wheels of 64 slots.
//!
//! A digit is six bits: the highest digit in which two ticks differ holds the highest bit in which they differ, and the
//! lowest digit that isn't zero holds the lowest bit that is set.
ghost use Rattle.std.specs.Prelude.{◌≡◌, ◌==◌, ◌<◌, ◌≤◌, ◌/◌, ◌%◌};
ghost use Rattle.timer_base.specs.declared.limits.TheConstants.{LAST};
ghost use Rattle.timer_wheels.specs.hier.Leap.{list_visit};
ghost use Rattle.timer_wheels.specs.Digits.{digit, level, lowest, bucket, emptied, slots, last_of, lowest_radix};
ghost use Rattle.timer_wheels.specs.Tables.{wide};
ghost use Rattle.timer_wheels.specs.declared.table.TheConstants.{MOST_BUCKETS};

/// How many bits a digit has.
const DIGIT_BITS: u32 = 6;

/// How many values a digit has.
const RADIX: usize = 64;

/// How many buckets all wheels have.
#[inline]
#[tactic(auto, unfolding(crate::specs::Tables::wide))]
pub fn buckets() -> usize
    ensures value { result ≡ slots wide }
    ensures in_range { result ≤ MOST_BUCKETS }
{
    640
}

/// How many slots the lowest wheel has.
#[inline]
#[tactic(auto, unfolding(crate::specs::Tables::wide))]
pub fn lowest_slots() -> usize
    ensures value { result ≡ lowest_radix wide }
    ensures some { 0 < result }
    ensures few { result ≤ 64 }
{
    RADIX
}

/// How many multiples of the lowest wheel's slots are after 0 and at most the tick.
#[inline]
#[tactic(auto, unfolding(crate::specs::Tables::wide))]
pub fn revolutions(tick: u64) -> u64
    ensures { result ≡ tick / lowest_radix wide }
{
    tick / 64
}

/// Whether the tick is a multiple of the lowest wheel's slots.
#[inline]
#[tactic(auto, unfolding(crate::specs::Tables::wide))]
pub fn is_rollover(tick: u64) -> bool
    ensures { result ≡ (tick % lowest_radix wide == 0) }
{
    tick % 64 == 0
}

/// Digit `k` of a tick.
#[inline]
#[tactic(auto, using(crate::proofs::table_lemmas::WideDigits::digit_by_shift))]
fn digit_of(k: u32, tick: u64) -> usize
    requires { k < 10 }
    ensures value { result ≡ digit wide k tick }
    ensures in_range { result < 64 }
{
    (tick >> (DIGIT_BITS * k) & 63) as usize
}

/// The wheel of a timer: the highest digit in which its deadline differs from now.
// `63 ^ zeros` is the highest bit, which processors find in one step; and times 43 / 256 is divided by 6 for these.
#[inline]
#[tactic(auto, using(crate::proofs::table_lemmas::WideDigits::wide_levels))]
pub fn level_of(now: u64, deadline: u64) -> u32
    requires later { now < deadline }
    requires deadline { deadline ≤ LAST }
    ensures value { result ≡ level wide now deadline }
    ensures in_range { result < 10 }
{
    (63 ^ (now ^ deadline).leading_zeros()) * 43 / 256
}

/// The number of a tick's lowest digit that isn't zero.
#[inline]
#[tactic(auto, using(crate::proofs::table_lemmas::WideDigits::wide_lowest))]
fn lowest_digit(tick: u64) -> u32
    requires later { 0 < tick }
    requires in_range { tick ≤ LAST }
    ensures value { result ≡ lowest wide tick }
    ensures in_range { result < 10 }
{
    tick.trailing_zeros() / DIGIT_BITS
}

/// The list of a timer that is pending now.
#[inline(always)]
#[tactic(auto, using(crate::proofs::table_lemmas::WideDigits::slot_by_product), unfolding(crate::specs::Tables::wide))]
pub fn bucket_of(now: u64, deadline: u64) -> usize
    requires later { now < deadline }
    requires deadline { deadline ≤ last_of wide }
    ensures value { result ≡ bucket wide now deadline }
    ensures in_range { result < slots wide }
{
    let level = level_of(now, deadline);
    // Two numbers by two ways: or else a compiler keeps level and digit of the list apart, and runs out of registers.
    if level == 0 {
        digit_of(0, deadline)
    } else {
        RADIX * level as usize + digit_of(level, deadline)
    }
}

/// The list that a tick empties.
#[inline]
#[tactic(auto, using(crate::proofs::table_lemmas::WideDigits::wide_emptied), unfolding(crate::specs::Tables::wide))]
pub fn emptied_at(tick: u64) -> usize
    requires later { 0 < tick }
    requires in_range { tick ≤ last_of wide }
    ensures value { result ≡ emptied wide tick }
    ensures in_range { result < slots wide }
{
    // 63 of 64 ticks need no more than this.
    let lowest = (tick % 64) as usize;
    if lowest != 0 {
        return lowest;
    }
    let level = lowest_digit(tick);
    RADIX * level as usize + digit_of(level, tick)
}

/// Now with the slot of a list as its digit, and zeros below.
#[inline]
#[tactic(auto, using(crate::proofs::table_lemmas::WideDigits::visit_by_shift), unfolding(crate::specs::Tables::wide))]
pub fn visit_of(list: usize, now: u64) -> u64
    requires list { list < slots wide }
    requires now { now ≤ last_of wide }
    ensures { result ≡ list_visit wide list now }
{
    let shift = DIGIT_BITS * (list / RADIX) as u32;
    let above = now >> shift;
    (above - above % 64 + (list % RADIX) as u64) << shift
}
