//! The range of the numbers that clients and wheels exchange.

/// The greatest tick, interval, serial and request number: 2^60 - 1.
///
/// Ten digits in base 64, and a sum of two such numbers fits a `u64` with room to spare.
pub const LAST: u64 = 1152921504606846975;
