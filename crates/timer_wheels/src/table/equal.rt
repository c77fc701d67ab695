//! Tables of equal digits: WHEELS wheels of 2^BITS slots each, whose digits are found one by one.
//!
//! The loops are shorter than a case for each wheel, and a machine with little memory has little room for code. They pass
//! all wheels but one at most. No table of them needs a file of its own.
ghost use Rattle.std.specs.Prelude.{◌≡◌, ◌==◌, ◌<◌, ◌≤◌, ◌+◌, ◌*◌, ◌/◌, ◌%◌, ◌^◌, length};
ghost use Rattle.timer_wheels.specs.hier.Leap.{list_visit};
ghost use Rattle.timer_wheels.specs.Digits.{equals, AreFew, bucket, emptied, slots, last_of, lowest_radix};
ghost use Rattle.timer_wheels.specs.declared.table.TheConstants.{MOST_BUCKETS};

/// How many values a digit has.
#[inline]
#[tactic(auto, using(crate::proofs::table_lemmas::EqualDigits::few_radix))]
fn radix_of<const BITS: u32>() -> u64
    requires { BITS ≤ 6 }
    ensures value { result ≡ 2 ^ BITS }
    ensures some { 0 < result }
    ensures few { result ≤ 64 }
{
    1 << BITS
}

/// How many bits of a tick are below the digit of a wheel.
#[inline]
fn bits_below<const BITS: u32, const WHEELS: usize>(wheel: usize) -> u32
    requires few { AreFew BITS WHEELS }
    requires wheel { wheel < length (equals BITS WHEELS) }
    ensures value { result ≡ BITS * wheel }
    ensures few { result ≤ 54 }
{
    BITS * wheel as u32
}

/// How many buckets all wheels have.
#[inline]
#[tactic(auto, using(crate::proofs::table_lemmas::EqualDigits::list_rules))]
pub fn buckets<const BITS: u32, const WHEELS: usize>() -> usize
    requires { AreFew BITS WHEELS }
    ensures value { result ≡ slots (equals BITS WHEELS) }
    ensures in_range { result ≤ MOST_BUCKETS }
{
    WHEELS << BITS
}

/// How many slots the lowest wheel has.
#[inline]
#[tactic(auto, using(crate::proofs::table_lemmas::EqualDigits::lowest_is_radix))]
pub fn lowest_slots<const BITS: u32, const WHEELS: usize>() -> usize
    requires { AreFew BITS WHEELS }
    ensures value { result ≡ lowest_radix (equals BITS WHEELS) }
    ensures some { 0 < result }
    ensures few { result ≤ 64 }
{
    radix_of::<BITS>() as usize
}

/// How many multiples of the lowest wheel's slots are after 0 and at most the tick.
#[inline]
#[tactic(auto, using(crate::proofs::table_lemmas::EqualDigits::revolutions_are))]
pub fn revolutions<const BITS: u32, const WHEELS: usize>(tick: u64) -> u64
    requires { AreFew BITS WHEELS }
    ensures { result ≡ tick / lowest_radix (equals BITS WHEELS) }
{
    tick / radix_of::<BITS>()
}

/// Whether the tick is a multiple of the lowest wheel's slots.
#[inline]
#[tactic(auto, using(crate::proofs::table_lemmas::EqualDigits::rollover_is))]
pub fn is_rollover<const BITS: u32, const WHEELS: usize>(tick: u64) -> bool
    requires { AreFew BITS WHEELS }
    ensures { result ≡ (tick % lowest_radix (equals BITS WHEELS) == 0) }
{
    tick % radix_of::<BITS>() == 0
}

/// The list of a timer that is pending now.
pub fn bucket_of<const BITS: u32, const WHEELS: usize>(now: u64, deadline: u64) -> usize
    requires few { AreFew BITS WHEELS }
    requires later { now < deadline }
    requires deadline { deadline ≤ last_of (equals BITS WHEELS) }
    ensures value { result ≡ bucket (equals BITS WHEELS) now deadline }
    ensures in_range { result < slots (equals BITS WHEELS) }
{
    let radix = radix_of::<BITS>();
    let mut below = 0;
    let mut from = now;
    let mut to = deadline;
    while from / radix != to / radix {
        below += radix as usize;
        from /= radix;
        to /= radix;
    }
    below + (to % radix) as usize
}

/// The list that a tick empties.
pub fn emptied_at<const BITS: u32, const WHEELS: usize>(tick: u64) -> usize
    requires few { AreFew BITS WHEELS }
    requires later { 0 < tick }
    requires in_range { tick ≤ last_of (equals BITS WHEELS) }
    ensures value { result ≡ emptied (equals BITS WHEELS) tick }
    ensures in_range { result < slots (equals BITS WHEELS) }
{
    let radix = radix_of::<BITS>();
    let mut below = 0;
    let mut rest = tick;
    while rest % radix == 0 {
        below += radix as usize;
        rest /= radix;
    }
    below + (rest % radix) as usize
}

/// Now with the slot of a list as its digit, and zeros below.
#[inline]
pub fn visit_of<const BITS: u32, const WHEELS: usize>(list: usize, now: u64) -> u64
    requires few { AreFew BITS WHEELS }
    requires list { list < slots (equals BITS WHEELS) }
    requires now { now ≤ last_of (equals BITS WHEELS) }
    ensures { result ≡ list_visit (equals BITS WHEELS) list now }
{
    let radix = radix_of::<BITS>();
    let list = list as u64;
    let shift = bits_below::<BITS, WHEELS>((list / radix) as usize);
    let above = now >> shift;
    (above - above % radix + list % radix) << shift
}
