//! What a client's thread asks before it sends, so that tests can hold it back.
ghost use Rattle.std.specs.Prelude.{◌≡◌, ◌+◌, ◌≤◌, ℕ, true, IsTrue};

/// Asked before each submit.
pub trait Gate {
    // Which requests it lets go at all: by the request's number, and how many timers have expired.
    ghost lets_go: { ℕ → ℕ → Type 0 };

    /// Whether the request with this number may go, once `expired` timers have expired.
    fn may_send(&mut self, number: u64, expired: u64) -> bool
        ensures lets_go { IsTrue result → lets_go number expired };
}

/// Lets each request go.
#[derive(Clone, Copy, Debug, Drop)]
pub struct Open;

impl Gate for Open {
    ghost lets_go = { λ number expired. Unit {0} };

    fn may_send(&mut self, _number: u64, _expired: u64) -> bool
        ensures lets_go { IsTrue result → Unit {0} }
        ensures open { result ≡ true }
    {
        true
    }
}

/// Lets a request go once the timer of each request before it has expired.
#[derive(Clone, Copy, Debug, Drop)]
pub struct InTurn;

impl Gate for InTurn {
    ghost lets_go = { λ number expired. number ≤ expired + 1 };

    fn may_send(&mut self, number: u64, expired: u64) -> bool
        ensures lets_go { IsTrue result → number ≤ expired + 1 }
        ensures open { number ≤ expired + 1 → IsTrue result }
    {
        expired.saturating_add(1) >= number
    }
}
