//! The wheels that a hierarchy can have, the numbers by which C names them, and the ends of their clocks.
ghost use Rattle.std.specs.Prelude.{◌≡◌};
ghost use Rattle.timer_wheels.specs.Tiers.{tiers_with_number, table_of_tiers, last_of_tiers};

use crate::table::{Table, last_tick_of};

// made by tools/facts: numbers of tiers
/// The number of `Tiers::Wide`.
pub const WIDE: u32 = 0;

/// The number of `Tiers::Smooth`.
pub const SMOOTH: u32 = 1;

/// The number of `Tiers::Small`.
pub const SMALL: u32 = 2;

// by hand

/// Which wheels a hierarchy has, and when its timers move down.
#[derive(Clone, Copy, Debug, PartialEq, Eq)]
pub enum Tiers {
    // made by tools/facts: tiers
    /// A `LazyWheel` of `Table::Wide`: ten wheels of 64 slots.
    Wide,
    /// A `SmoothWheel` of `Table::Wide`: as `Wide`, with twice the slots, and a few moves at a tick.
    Smooth,
    /// A `LazyWheel` of `Table::Small`: six wheels of 16 slots.
    Small,
}

impl Tiers {
    /// The wheels with this number, if there are any.
    pub fn with_number(number: u32) -> Option<Tiers>
        ensures { result ≡ tiers_with_number number }
    {
        match number {
            // made by tools/facts: tiers with numbers
            WIDE => Some(Tiers::Wide),
            SMOOTH => Some(Tiers::Smooth),
            SMALL => Some(Tiers::Small),
            _ => None,
        }
    }

    /// The radices of the wheels.
    pub fn table(self) -> Table
        ensures { result ≡ table_of_tiers self }
    {
        match self {
            // made by tools/facts: tables of tiers
            Tiers::Wide => Table::Wide,
            Tiers::Smooth => Table::Wide,
            Tiers::Small => Table::Small,
        }
    }

    /// The last tick of their clock.
    pub fn last_tick(self) -> u64
        ensures { result ≡ last_of_tiers self }
    {
        last_tick_of(self.table())
    }
}
