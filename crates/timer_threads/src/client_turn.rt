//! One turn of a client: what it sent, and what it received.
ghost use Rattle.std.specs.Prelude.{◌≡◌};

use timer_desk::{Numbered, Word};

/// What a client did in one turn.
#[derive(Clone, Copy, Debug)]
pub struct Turn {
    /// The request that it sent.
    pub sent: Option<Numbered>,
    /// The word that it received.
    pub received: Option<Word>,
}

impl Turn {
    ghost use Rattle.timer_threads.specs.Turns.{is_idle};

    /// Whether it neither sent nor received.
    pub fn is_idle(&self) -> bool
        ensures { result ≡ is_idle self.now }
    {
        self.sent.is_none() && self.received.is_none()
    }
}
