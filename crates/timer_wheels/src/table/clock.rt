//! The table of a clock: wheels of 60 seconds, 60 minutes, 24 hours and 100 days, which divide by constants.
//!
//! Its ticks fit into 32 bits. Such a number is divided by one product of 64 bits, and takes fewer registers.
ghost use Rattle.std.specs.Prelude.{◌≡◌, ◌==◌, ◌<◌, ◌≤◌, ◌/◌, ◌%◌};
ghost use Rattle.timer_wheels.specs.hier.Leap.{list_visit};
ghost use Rattle.timer_wheels.specs.Digits.{bucket, emptied, slots, last_of, lowest_radix};
ghost use Rattle.timer_wheels.specs.Tables.{clock};
ghost use Rattle.timer_wheels.specs.declared.table.TheConstants.{MOST_BUCKETS};

/// How many buckets all wheels have.
#[inline]
#[tactic(auto, unfolding(crate::specs::Tables::clock))]
pub fn buckets() -> usize
    ensures value { result ≡ slots clock }
    ensures in_range { result ≤ MOST_BUCKETS }
{
    244
}

/// How many slots the lowest wheel has.
#[inline]
#[tactic(auto, unfolding(crate::specs::Tables::clock))]
pub fn lowest_slots() -> usize
    ensures value { result ≡ lowest_radix clock }
    ensures some { 0 < result }
    ensures few { result ≤ 64 }
{
    60
}

/// How many multiples of the lowest wheel's slots are after 0 and at most the tick.
#[inline]
#[tactic(auto, unfolding(crate::specs::Tables::clock))]
pub fn revolutions(tick: u64) -> u64
    ensures { result ≡ tick / lowest_radix clock }
{
    tick / 60
}

/// Whether the tick is a multiple of the lowest wheel's slots.
#[inline]
#[tactic(auto, unfolding(crate::specs::Tables::clock))]
pub fn is_rollover(tick: u64) -> bool
    ensures { result ≡ (tick % lowest_radix clock == 0) }
{
    tick % 60 == 0
}

/// The list of a timer that is pending now.
#[inline(always)]
#[tactic(auto, using(crate::proofs::table_lemmas::ClockDigits::clock_buckets), unfolding(crate::specs::Tables::clock))]
pub fn bucket_of(now: u64, deadline: u64) -> usize
    requires later { now < deadline }
    requires deadline { deadline ≤ last_of clock }
    ensures value { result ≡ bucket clock now deadline }
    ensures in_range { result < slots clock }
{
    let second = deadline as u32;
    let now = now as u32;
    // As now is before the deadline, both are in one minute if the deadline's has begun: so only the deadline is divided.
    let minute = second / 60;
    if 60 * minute <= now {
        return (second - 60 * minute) as usize;
    }
    let hour = minute / 60;
    if 60 * 60 * hour <= now {
        return (60 + (minute - 60 * hour)) as usize;
    }
    let day = hour / 24;
    if 60 * 60 * 24 * day <= now {
        return (120 + (hour - 24 * day)) as usize;
    }
    (144 + day) as usize
}

/// The list that a tick empties.
#[inline]
#[tactic(auto, using(crate::proofs::table_lemmas::ClockDigits::clock_emptied), unfolding(crate::specs::Tables::clock))]
pub fn emptied_at(tick: u64) -> usize
    requires later { 0 < tick }
    requires in_range { tick ≤ last_of clock }
    ensures value { result ≡ emptied clock tick }
    ensures in_range { result < slots clock }
{
    let tick = tick as u32;
    if tick % 60 != 0 {
        return (tick % 60) as usize;
    }
    let minute = tick / 60;
    if minute % 60 != 0 {
        return 60 + (minute % 60) as usize;
    }
    let hour = minute / 60;
    if hour % 24 != 0 {
        return 120 + (hour % 24) as usize;
    }
    144 + (hour / 24) as usize
}

/// Now with the slot of a list as its digit, and zeros below.
#[inline]
#[tactic(auto, using(crate::proofs::table_lemmas::ClockDigits::clock_visits), unfolding(crate::specs::Tables::clock))]
pub fn visit_of(list: usize, now: u64) -> u64
    requires list { list < slots clock }
    requires now { now ≤ last_of clock }
    ensures { result ≡ list_visit clock list now }
{
    let list = list as u32;
    let minute = now as u32 / 60;
    if list < 60 {
        return (60 * minute + list) as u64;
    }
    let hour = minute / 60;
    if list < 120 {
        return (60 * (60 * hour + (list - 60))) as u64;
    }
    if list < 144 {
        return (60 * (60 * (24 * (hour / 24) + (list - 120)))) as u64;
    }
    (60 * (60 * (24 * (list - 144)))) as u64
}
