//! The tables of radices that a hierarchy of wheels may have, and the digits and lists of a tick by each.
//!
//! Digit k of a tick t is t divided by the product of the lower radices, modulo radix k. Wheel k has a
//! slot for each value of digit k, and slot s of wheel k is the list whose number is s more than the
//! lower wheels have slots.
//!
//!     Wide    4161 = 1 * 64^2 + 1 * 64 + 1                     digits  0 0 0 0 0 0 0 1 1 1
//!     Clock   990915 = 11 days 11:15:15                        digits  11 11 15 15
//!     Small   4161 = 1 * 16^3 + 4 * 16 + 1                     digits  0 0 1 0 4 1
//!
//! How a digit is found is each table's own matter. All that depends on it is in the table's file, or in `equal` for a
//! table of equal digits that has none. Its public functions are called by those here.
ghost use Rattle.std.specs.Prelude.{◌≡◌, ◌==◌, ◌<◌, ◌≤◌, ◌/◌, ◌%◌};
ghost use Rattle.timer_base.specs.declared.limits.TheConstants.{LAST};
ghost use Rattle.timer_wheels.specs.declared.table.TheConstants.{MOST_BUCKETS};
ghost use Rattle.timer_wheels.specs.hier.Leap.{list_visit};
ghost use Rattle.timer_wheels.specs.Tables.{radices, last_of_table};
ghost use Rattle.timer_wheels.specs.Digits.{bucket, emptied, slots, last_of, lowest_radix};

use timer_base::LAST;

// made by tools/facts: modules of tables
pub mod clock;
pub mod equal;
pub mod wide;

/// How many slots each wheel has.
#[derive(Clone, Copy, Debug, PartialEq, Eq)]
pub enum Table {
    // made by tools/facts: tables of the crates
    /// Ten wheels of 64 slots: a clock of 2^60 ticks.
    Wide,
    /// 60 seconds, 60 minutes, 24 hours, 100 days: a clock of 8,640,000 ticks.
    Clock,
    /// Six wheels of 16 slots: a clock of 2^24 ticks.
    Small,
}

// made by tools/facts: last ticks of the crates
/// The last tick of the clock of `Table::Clock`: day 99, 23:59:59.
pub const LAST_OF_CLOCK: u64 = 8639999;

/// The last tick of the clock of `Table::Small`: 2^24 - 1, or 4.6 hours of milliseconds.
pub const LAST_OF_SMALL: u64 = 16777215;

/// The most buckets that a table has.
pub const MOST_BUCKETS: usize = 640;

// by hand

/// A call of a function in the table's own file.
macro_rules! of_table {
    ($table:expr, $function:ident($($argument:expr),*)) => {
        match $table {
            // made by tools/facts: calls of tables
            Table::Wide => crate::table::wide::$function($($argument),*),
            Table::Clock => crate::table::clock::$function($($argument),*),
            Table::Small => crate::table::equal::$function::<4, 6>($($argument),*),
        }
    };
}

/// A call with the table as a constant: an inlined function is made once for each table.
macro_rules! with_constant_table {
    ($function:ident($table:expr, $($argument:expr),*)) => {
        match $table {
            // made by tools/facts: constant tables
            Table::Wide => $function(Table::Wide, $($argument),*),
            Table::Clock => $function(Table::Clock, $($argument),*),
            Table::Small => $function(Table::Small, $($argument),*),
        }
    };
}

/// A call with the table as a constant if it is the wide one: an inlined function is made once for that, and once for others.
macro_rules! with_wide_table {
    ($function:ident($table:expr, $($argument:expr),*)) => {
        match $table {
            Table::Wide => $function(Table::Wide, $($argument),*),
            table => $function(table, $($argument),*),
        }
    };
}

pub(crate) use of_table;
pub(crate) use with_constant_table;
pub(crate) use with_wide_table;

/// How many buckets all wheels have.
#[inline]
pub fn buckets_of(table: Table) -> usize
    ensures value { result ≡ slots (radices table) }
    ensures in_range { result ≤ MOST_BUCKETS }
{
    of_table!(table, buckets())
}

/// The last tick that has its digits in the table.
#[inline]
#[tactic(auto, using(crate::proofs::table_lemmas::TableLaws::named_last))]
pub fn last_tick_of(table: Table) -> u64
    ensures value { result ≡ last_of (radices table) }
    ensures named { result ≡ last_of_table table }
    ensures in_range { result ≤ LAST }
{
    match table {
        // made by tools/facts: last ticks of tables
        Table::Wide => LAST,
        Table::Clock => LAST_OF_CLOCK,
        Table::Small => LAST_OF_SMALL,
    }
}

/// How many slots the lowest wheel has.
#[inline]
pub fn lowest_slots(table: Table) -> usize
    ensures value { result ≡ lowest_radix (radices table) }
    ensures some { 0 < result }
    ensures few { result ≤ 64 }
{
    of_table!(table, lowest_slots())
}

/// How many multiples of the lowest wheel's slots are after 0 and at most the tick.
#[inline]
pub fn revolutions(table: Table, tick: u64) -> u64
    ensures { result ≡ tick / lowest_radix (radices table) }
{
    of_table!(table, revolutions(tick))
}

/// Whether the tick is a multiple of the lowest wheel's slots.
#[inline]
pub fn is_rollover(table: Table, tick: u64) -> bool
    ensures { result ≡ (tick % lowest_radix (radices table) == 0) }
{
    of_table!(table, is_rollover(tick))
}

/// The list of a timer that is pending now.
// Always inlined: for a call a compiler saves registers at the start of each stop and restart.
#[inline(always)]
pub fn bucket_of(table: Table, now: u64, deadline: u64) -> usize
    requires later { now < deadline }
    requires deadline { deadline ≤ last_of (radices table) }
    ensures value { result ≡ bucket (radices table) now deadline }
    ensures in_range { result < slots (radices table) }
{
    of_table!(table, bucket_of(now, deadline))
}

/// The list that a tick empties.
#[inline]
pub fn emptied_at(table: Table, tick: u64) -> usize
    requires later { 0 < tick }
    requires in_range { tick ≤ last_of (radices table) }
    ensures value { result ≡ emptied (radices table) tick }
    ensures in_range { result < slots (radices table) }
{
    of_table!(table, emptied_at(tick))
}

/// Now with the list's slot as its digit, and zeros below. Of a list that holds a pending timer this is the
/// next visit, the tick that empties it.
#[inline]
pub fn visit_of(table: Table, list: usize, now: u64) -> u64
    requires list { list < slots (radices table) }
    requires now { now ≤ last_of (radices table) }
    ensures { result ≡ list_visit (radices table) list now }
{
    of_table!(table, visit_of(list, now))
}
