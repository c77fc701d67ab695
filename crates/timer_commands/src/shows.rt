//! What `show` shows: which of the pending timers, and at which ticks.
//!
//!     --client 1 --timer 7     timer 7, if it is of client 1
//!     --new                    after a line that starts timer 7 timer 7, and after any other line none
//!     --from 64 --to 128       nothing is shown at tick 63, or at 129
//!
//! Each option drops some of what is shown, so several of them show what none of them drops.
ghost use Rattle.std.specs.Prelude.{◌≡◌};
ghost use Rattle.timer_commands.specs.Shows.{is_wanted, is_from, is_to, is_kept, is_covered, filter_after, filter_of_moves};

use timer_base::Timer;

/// What is shown after the answers to a line.
#[derive(Clone, Copy, Debug, PartialEq, Eq)]
pub struct Shows {
    /// What the wheel counted.
    pub counts: bool,
    /// Which timers moved while ticks passed.
    pub moves: bool,
    /// Only timers that the line started.
    pub new: bool,
    /// Only timers of this client.
    pub client: Option<u64>,
    /// Only the timer with this serial.
    pub timer: Option<u64>,
    /// Nothing at a tick before this one.
    pub from: Option<u64>,
    /// Nothing at a tick after this one.
    pub to: Option<u64>,
}

/// Which timers are kept of a list that is shown.
#[derive(Clone, Copy, Debug, PartialEq, Eq)]
pub struct Filter {
    /// Only timers of this client.
    pub client: Option<u64>,
    /// Only the timer with this serial.
    pub timer: Option<u64>,
    /// Only timers with this serial or a later one.
    pub least: u64,
}

impl Shows {
    /// Whether anything is shown at this tick.
    pub fn covers(&self, tick: u64) -> bool
        ensures { result ≡ is_covered self.now tick }
    {
        is_not_before(self.from, tick) && is_not_after(self.to, tick)
    }

    /// Which timers are shown after a line, before which the next serial was this one.
    pub fn after(&self, serial: u64) -> Filter
        ensures { result ≡ filter_after self.now serial }
    {
        Filter {
            client: self.client,
            timer: self.timer,
            least: if self.new { serial } else { 0 },
        }
    }

    /// Which timers are shown when they move. No line starts one that moves later in the same line.
    pub fn of_moves(&self) -> Filter
        ensures { result ≡ filter_of_moves self.now }
    {
        Filter {
            client: self.client,
            timer: self.timer,
            least: 0,
        }
    }
}

impl Filter {
    /// Whether this timer is kept.
    pub fn keeps(&self, timer: Timer) -> bool
        ensures { result ≡ is_kept self.now timer }
    {
        is_same(self.client, timer.client)
            && is_same(self.timer, timer.serial)
            && self.least <= timer.serial
    }
}

/// Whether a tick is at or after the first one, if one is named.
fn is_not_before(first: Option<u64>, tick: u64) -> bool
    ensures { result ≡ is_from first tick }
{
    match first {
        Some(first) => first <= tick,
        None => true,
    }
}

/// Whether a tick is at or before the last one, if one is named.
fn is_not_after(last: Option<u64>, tick: u64) -> bool
    ensures { result ≡ is_to last tick }
{
    match last {
        Some(last) => tick <= last,
        None => true,
    }
}

/// Whether the number is the one that is wanted, if one is.
fn is_same(wanted: Option<u64>, n: u64) -> bool
    ensures { result ≡ is_wanted wanted n }
{
    match wanted {
        Some(wanted) => wanted == n,
        None => true,
    }
}
