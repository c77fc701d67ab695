//! What a hierarchy counts.
ghost use Rattle.std.specs.Prelude.{◌≡◌, ◌+◌, ◌<◌};

/// What a wheel did since it was made.
#[derive(Clone, Copy, Drop)]
pub struct Counts {
    /// Timers that were started or restarted.
    pub starts: u64,
    /// Timers that were put into a lower wheel.
    pub moves: u64,
    /// Ticks up to now that visited no bucket: those before the wheel was made, and those that `advance`
    /// skipped. A single tick visits one, so it has no visit to count.
    pub skipped: u64,
}

impl Counts {
    /// Adds to the moves. Most ticks move nothing, and store nothing.
    #[inline]
    pub fn add_moves(&mut self, moves: u64)
        requires { self.old.moves + moves < 18446744073709551616 }
        ensures { self.new ≡ record self.old { moves = self.old.moves + moves } }
    {
        if moves > 0 {
            self.moves += moves;
        }
    }
}
