//! The options of `play`, `serve` and `show`, and their ranges.
ghost use Rattle.std.specs.Prelude.{◌≡◌, ◌<◌, ◌≤◌, IfOk, IfErr, OnOk};
ghost use Rattle.timer_facility.specs.Restored.{limits_of};
ghost use Rattle.timer_commands.specs.Options.{name_of, scheme_last, config_of, IsPlayable, RefusesOptions};

use thiserror::Error;
use timer_base::LAST;
use timer_facility::{Checked, Config, ConfigFault, Limits};
// made by tools/facts: imports of last ticks
use timer_wheels::{LAST_OF_CLOCK, MAX_SLOTS};

/// How timers are kept. A script gives the same text with each scheme if no tick or deadline is past the last one.
#[derive(Clone, Copy, Debug, PartialEq, Eq)]
pub enum Scheme {
    // made by tools/facts: variants of schemes
    /// One list of timers; a tick goes through all of it.
    Plain,
    /// A ring of buckets: a timer is in bucket (deadline modulo SLOTS).
    Hashed,
    /// Ten wheels of 64 slots: a timer moves down as its deadline comes near.
    Hier,
    /// The same with wheels of 60 seconds, 60 minutes, 24 hours and 100 days; its last tick is 8639999, that of the
    /// others is 1152921504606846975.
    Clock,
    /// The wheels of `hier`; timers move down early, and a few at each tick.
    Smooth,
}

/// The options of `play`, `serve` and `show`.
#[derive(Clone, Copy, Debug, PartialEq, Eq)]
pub struct RunOptions {
    pub scheme: Scheme,
    /// The buckets of the hashed wheel: 1 to 65,536. Its range is checked with every scheme, and only `hashed` uses it.
    pub slots: u64,
    pub clients: u64,
    pub capacity: u64,
    /// At most the last tick of the scheme.
    pub first_tick: u64,
}

/// Which option is out of range, in the order in which they are tested.
#[derive(Clone, Copy, Debug, PartialEq, Eq, Error)]
pub enum OptionsFault {
    #[error("{0}")]
    Config(ConfigFault),
    #[error("the number of slots is out of range")]
    Slots,
    /// The first tick is above the last tick of the scheme.
    #[error("first tick above {last}")]
    FirstTick { last: u64 },
}

impl Scheme {
    /// Its name among the arguments.
    pub fn name(&self) -> &'static str
        ensures { result.now ≡ name_of self.now }
    {
        match self {
            Scheme::Plain => "plain",
            Scheme::Hashed => "hashed",
            Scheme::Hier => "hier",
            Scheme::Clock => "clock",
            Scheme::Smooth => "smooth",
        }
    }

    /// The last tick of its clock.
    fn last_tick(&self) -> u64
        ensures { result ≡ scheme_last self.now }
    {
        match self {
            // made by tools/facts: last ticks of schemes
            Scheme::Plain | Scheme::Hashed | Scheme::Hier | Scheme::Smooth => LAST,
            Scheme::Clock => LAST_OF_CLOCK,
        }
    }
}

impl RunOptions {
    /// What the facility is opened with: serials and request numbers begin at 1.
    fn config(&self) -> Config
        ensures { result ≡ config_of self.now }
    {
        Config {
            clients: self.clients,
            capacity: self.capacity,
            first_tick: self.first_tick,
            first_serial: 1,
            first_number: 1,
        }
    }

    /// What a state has to fit that the facility begins with. Does not allocate.
    pub fn limits(&self) -> Limits
        ensures { result ≡ limits_of (config_of self.now) (scheme_last self.now.scheme) }
    {
        Limits {
            clients: self.clients,
            capacity: self.capacity,
            last_tick: self.scheme.last_tick(),
        }
    }

    /// What the facility is opened with, if each number is in its range. Does not allocate.
    pub fn check(&self) -> Result<Checked, OptionsFault>
        ensures config { IfOk result (λ checked. checked ≡ config_of self.now) }
        ensures playable { OnOk result (IsPlayable self.now) }
        ensures fault { IfErr result (λ fault. RefusesOptions fault self.now) }
    {
        let checked = match self.config().check() {
            Ok(checked) => checked,
            Err(fault) => return Err(OptionsFault::Config(fault)),
        };
        if self.slots == 0 || self.slots > MAX_SLOTS as u64 {
            return Err(OptionsFault::Slots);
        }
        let last = self.scheme.last_tick();
        if self.first_tick > last {
            return Err(OptionsFault::FirstTick { last });
        }
        Ok(checked)
    }
}
