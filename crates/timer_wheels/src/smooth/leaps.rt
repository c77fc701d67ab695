//! Many ticks of a smooth wheel: a leap over those that need no look, and one more.
ghost use Rattle.std.specs.Prelude.{◌≡◌, ◌+◌, ◌-◌, ◌<◌, ◌≤◌, ℕ, []};
ghost use Rattle.timer_base.specs.WheelState.{IsPassing, held_count};
ghost use Rattle.timer_wheels.specs.smooth.Paces.{tick_bound};

use crate::smooth::SmoothWheel;
use timer_base::Wheel;
use timer_links::Kept;

impl<N: Kept> SmoothWheel<N> {
    ghost use Rattle.timer_wheels.specs.smooth.SmoothWheel.{smooth_state, starts_of, moves_of, wheels_left, PassesSomeTicks, IsPacedFor};

    /// Sets the clock forward to the tick before the next event, or before the end if that comes first, unless a tick has
    /// timers to move.
    fn leap(&mut self, end: u64)
        requires nothing_due { (smooth_state self.old).due ≡ [] }
        requires later { (smooth_state self.old).now < end }
        requires end { end ≤ (smooth_state self.old).last_tick }
        ensures passing { IsPassing ((smooth_state self.new).now - (smooth_state self.old).now)
            (smooth_state self.old) (smooth_state self.new) }
        ensures later { (smooth_state self.old).now ≤ (smooth_state self.new).now }
        ensures end { (smooth_state self.new).now < end }
        ensures moves { moves_of self.new ≡ moves_of self.old }
        ensures counted { wheels_left self.new ≡ wheels_left self.old }
        ensures starts { starts_of self.new ≡ starts_of self.old }
        ensures held { held_count (smooth_state self.new) ≡ held_count (smooth_state self.old) }
        ensures paced { (n : ℕ) → IsPacedFor n self.old → IsPacedFor n self.new }
    {
        if self.paces.sum() != 0 {
            return;
        }
        let event = self.wheels.next_event(end);
        self.wheels.skip_to(event - 1);
    }

    /// Passes at least one tick, and those before it at which nothing moves and nothing is due, up to an end.
    pub(crate) fn pass(&mut self, end: u64)
        requires nothing_due { (smooth_state self.old).due ≡ [] }
        requires later { (smooth_state self.old).now < end }
        requires end { end ≤ (smooth_state self.old).last_tick }
        ensures passes { PassesSomeTicks (smooth_state self.old) (smooth_state self.new) }
        ensures end { (smooth_state self.new).now ≤ end }
        ensures held { held_count (smooth_state self.new) ≡ held_count (smooth_state self.old) }
        ensures bound { (n : ℕ) → IsPacedFor n self.old → moves_of self.new ≤ moves_of self.old
            + tick_bound n }
        ensures counted { moves_of self.new + wheels_left self.new ≡ moves_of self.old + wheels_left self.old }
        ensures starts { starts_of self.new ≡ starts_of self.old }
        ensures paced { (n : ℕ) → held_count (smooth_state self.old) ≤ n → IsPacedFor n self.old → IsPacedFor n self.new }
    {
        self.leap(end);
        self.per_tick();
    }
}
