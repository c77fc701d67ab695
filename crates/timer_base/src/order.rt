//! The order of timers, and the earlier one of two deadlines: for every wheel that lists timers or looks for the first.
//!
//! A wheel copies its timers in the order in which it keeps them, and then sorts them. Serials are distinct, so
//! the order is unique.
ghost use Rattle.std.specs.Prelude.{◌≡◌, vec_capacity};
ghost use Rattle.timer_base.specs.Order.{AreDistinct, in_order, itself};
ghost use Rattle.timer_base.specs.PlainState.{earliest};

use crate::timer::Timer;

/// Sorts timers by deadline and then serial. Does not allocate.
pub fn sort_timers(timers: &mut Vec<Timer>)
    requires distinct { AreDistinct timers.old.items }
    ensures order { timers.new.items ≡ in_order itself timers.old.items }
    ensures capacity { vec_capacity timers.new ≡ vec_capacity timers.old }
{
    timers.sort_unstable_by_key(|t| (t.deadline, t.serial));
}

/// The earlier one of two deadlines, each of which may be missing.
#[inline]
pub fn earlier(first: Option<u64>, second: Option<u64>) -> Option<u64>
    ensures { result ≡ earliest first second }
{
    match (first, second) {
        (Some(first), Some(second)) => Some(first.min(second)),
        (Some(_), None) => first,
        (None, _) => second,
    }
}
