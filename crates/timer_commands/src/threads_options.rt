//! The options of `threads`, and their ranges.
ghost use Rattle.std.specs.Prelude.{IsTrue, ◌↔◌};

/// The most clients, and the most timers of each.
const MAX_CLIENTS: u64 = 64;

const MAX_TIMERS: u64 = 10_000;

/// The options of `threads`.
#[derive(Clone, Copy, Debug, PartialEq, Eq)]
pub struct ThreadsOptions {
    pub clients: u64,
    /// How many timers each client starts.
    pub timers: u64,
}

impl ThreadsOptions {
    ghost use Rattle.timer_commands.specs.Clients.{IsRunnable};

    /// Whether there are 1 to 64 clients, with 1 to 10,000 timers each.
    pub fn is_in_range(&self) -> bool
        ensures { (IsTrue result) ↔ IsRunnable self.now }
    {
        self.clients >= 1
            && self.clients <= MAX_CLIENTS
            && self.timers >= 1
            && self.timers <= MAX_TIMERS
    }
}
