//! The configuration of a facility, its limits and its ranges.
ghost use Rattle.std.specs.Prelude.{◌≡◌, None, Some, MatchResult};
ghost use Rattle.timer_facility.specs.Config.{is_outside, config_fault, IsInRange};

use std::marker::Model;
use thiserror::Error;
use timer_base::LAST;

/// The most clients that a facility may have.
pub const MAX_CLIENTS: u64 = 64;

/// The same number, as the length of an array with an element for each client.
pub const CLIENTS: usize = 64;

/// The most timers that a facility may be asked to hold pending.
pub const MAX_PENDING: u64 = 1048576;

/// The numbers that a facility is opened with.
#[derive(Clone, Copy, Debug, PartialEq, Eq)]
pub struct Config {
    /// How many clients there are: 1 to 64. They are numbered from 0.
    pub clients: u64,
    /// The most timers that may be pending at a time: 1 to 1,048,576.
    pub capacity: u64,
    /// The tick at which it begins: 0 to `LAST`.
    pub first_tick: u64,
    /// The serial of the first timer: 1 to `LAST`.
    pub first_serial: u64,
    /// The number of each client's first request: 1 to `LAST`.
    pub first_number: u64,
}

/// Which number is out of range, in the order in which they are tested.
#[derive(Clone, Copy, Debug, PartialEq, Eq, Error)]
pub enum ConfigFault {
    #[error("the number of clients is out of range")]
    Clients,
    #[error("the capacity is out of range")]
    Capacity,
    #[error("the first tick is out of range")]
    FirstTick,
    #[error("the first serial is out of range")]
    FirstSerial,
    #[error("the first request number is out of range")]
    FirstNumber,
}

/// A configuration whose numbers are all in range.
#[derive(Clone, Copy, Debug)]
pub struct Checked {
    config: Config,
}

impl Model for Checked {
    ghost use Rattle.timer_facility.specs.declared.config.Config.{Config};
    ghost use Rattle.timer_facility.specs.Config.{IsInRange};

    ghost Value = { Config };

    ghost view = { λ c. c.config };

    ghost invariant = { λ c. IsInRange c.config };

    ghost inverse = { λ config. record { config = config } };
}

impl Config {
    /// Checks that each number is in its range, in the order of `ConfigFault`. Does not allocate.
    #[tactic(auto, unfolding(crate::specs::Config::config_fault))]
    pub fn check(self) -> Result<Checked, ConfigFault>
        ensures { MatchResult result (λ checked. (checked ≡ self)
            × (config_fault self ≡ None)) (λ fault. config_fault self ≡ Some fault) }
    {
        if is_outside(1, MAX_CLIENTS, self.clients) {
            return Err(ConfigFault::Clients);
        }
        if is_outside(1, MAX_PENDING, self.capacity) {
            return Err(ConfigFault::Capacity);
        }
        if is_outside(0, LAST, self.first_tick) {
            return Err(ConfigFault::FirstTick);
        }
        if is_outside(1, LAST, self.first_serial) {
            return Err(ConfigFault::FirstSerial);
        }
        if is_outside(1, LAST, self.first_number) {
            return Err(ConfigFault::FirstNumber);
        }
        Ok(Checked { config: self })
    }
}

/// Whether the number is not one from `lowest` to `highest`.
fn is_outside(lowest: u64, highest: u64, number: u64) -> bool
    ensures { result ≡ is_outside lowest highest number }
{
    number < lowest || number > highest
}

impl Checked {
    /// The numbers, each of which is in its range.
    pub fn config(&self) -> Config
        ensures config { result ≡ self.now }
        ensures in_range { IsInRange result }
    {
        self.config
    }
}
