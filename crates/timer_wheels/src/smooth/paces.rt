//! How many timers of each wheel's next bucket move at a tick.
//!
//! A pace is fixed as a bucket begins to be the next one, and is 0 if the bucket has no timers, or none any more. Then no
//! timer comes to it until it is the next one no longer. So if the sum is 0, a tick has nothing to move.
ghost use Rattle.std.specs.Prelude.{◌≡◌, ◌≢◌, ◌<◌, ◌≤◌, ℕ, List};
ghost use Rattle.timer_wheels.specs.smooth.Paces.{ArePaces, pace_at, pace_sum};
ghost use Rattle.timer_wheels.specs.declared.smooth.paces.TheConstants.{MOST_PACE};
ghost use Rattle.timer_wheels.specs.declared.smooth.slot_lists.TheConstants.{MOST_WHEELS};

use crate::smooth::slot_lists::MOST_WHEELS;
use std::marker::Model;

/// No pace is above it, for as many timers as links can name.
pub const MOST_PACE: u64 = 1 << 30;

/// A pace for each wheel.
#[derive(Drop)]
pub struct Paces {
    each: [u64; MOST_WHEELS],
    // The sum of all, so that a tick with nothing to move looks at no wheel.
    sum: u64,
}

impl Model for Paces {
    ghost Value = { List ℕ };

    ghost view = { λ p. p.each };

    ghost invariant = { λ p. ArePaces p.each p.sum };
}

impl Paces {
    /// Nothing moves.
    pub fn new() -> Paces
        ensures { (k : ℕ) → pace_at result k ≡ 0 }
    {
        Paces {
            each: [0; MOST_WHEELS],
            sum: 0,
        }
    }

    /// That of a wheel.
    #[inline]
    pub fn at(&self, wheel: usize) -> u64
        requires { wheel < MOST_WHEELS }
        ensures value { result ≡ pace_at self.now wheel }
    {
        self.each[wheel]
    }

    /// The sum of all: the most moves of the next tick.
    #[inline]
    pub fn sum(&self) -> u64
        ensures { result ≡ pace_sum self.now }
    {
        self.sum
    }

    /// Sets that of a wheel.
    pub fn set(&mut self, wheel: usize, pace: u64)
        requires wheel { wheel < MOST_WHEELS }
        requires pace { pace ≤ MOST_PACE }
        ensures here { pace_at self.new wheel ≡ pace }
        ensures others { (k : ℕ) → k ≢ wheel → pace_at self.new k ≡ pace_at self.old k }
    {
        self.sum = self.sum - self.each[wheel] + pace;
        self.each[wheel] = pace;
    }
}
