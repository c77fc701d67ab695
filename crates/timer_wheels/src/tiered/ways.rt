//! Which way a restart goes: a compiler has a body for each.
ghost use Rattle.std.specs.Prelude.{◌≡◌, None};
ghost use Rattle.timer_base.specs.WheelState.{held_at};
ghost use Rattle.timer_wheels.specs.RestartWays.{IsStay, IsLater};
ghost use Rattle.timer_wheels.specs.TieredWheel.{tiered_state};

use crate::tiered::TieredWheel;
use timer_base::Handle;
use timer_links::Kept;

/// What becomes of a timer that is restarted.
#[derive(Clone, Copy, Drop)]
pub enum RestartWay {
    /// It stays in its bucket.
    Stays,
    /// It moves to another bucket.
    Moves,
    /// There is none.
    Starts,
    /// Anything else: in a smooth wheel, or for a deadline that has passed.
    Other,
}

impl<N: Kept> TieredWheel<N> {
    /// What becomes of a timer with this handle if it is restarted for this deadline. Does not allocate.
    ///
    /// It tells how a call is compiled: what a way takes for granted is not tested in it.
    #[inline(always)]
    pub fn way(&self, handle: Handle, deadline: u64) -> RestartWay
        ensures stays { result ≡ RestartWay.Stays → IsStay handle deadline (tiered_state self.now) }
        ensures moves { result ≡ RestartWay.Moves → IsLater handle deadline (tiered_state self.now) }
        ensures starts { result ≡ RestartWay.Starts → held_at handle (tiered_state self.now) ≡ None }
    {
        let TieredWheel::Lazy(wheel) = self else {
            return RestartWay::Other;
        };
        let buckets = wheel.buckets();
        let Some(old) = buckets.look(handle) else {
            return RestartWay::Starts;
        };
        if old.deadline > buckets.tick && old.deadline <= deadline {
            RestartWay::Stays
        } else if deadline > buckets.tick {
            RestartWay::Moves
        } else {
            RestartWay::Other
        }
    }

    /// Whether a node is ready for the next timer of a lazy wheel. Nothing depends on it but how a start is compiled.
    #[inline(always)]
    pub fn is_ready(&self) -> bool {
        match self {
            TieredWheel::Lazy(wheel) => wheel.is_ready(),
            TieredWheel::Smooth(_) => false,
        }
    }
}
