//! Lemmas that hold for every wheel. Each of these functions does nothing: its contract is the lemma.
//!
//! The pending timers are one ordered list: a tick removes its front, a start inserts one timer, a stop
//! removes one. That order is unique, so a wheel has no choice in what it lists or makes due.
ghost use Rattle.std.specs.Prelude.{◌≡◌, ℕ, ◌+◌, ◌<◌, ◌++◌, List, [], ◌∷◌, Option, Some, None, length};
ghost use Rattle.std.specs.List.Sorted.{IsPermutation};
ghost use Rattle.timer_base.specs.Types.{Handle, Timer, LAST};
ghost use Rattle.timer_base.specs.Order.{AreDistinct, IsOrdered, in_order};
ghost use Rattle.timer_base.specs.Pending.{entries_due, entries_left, timer_of};
ghost use Rattle.timer_base.specs.WakeUps.{IsWakeUp};
ghost use Rattle.timer_base.specs.WheelState.{IsWellFormed, NamesOne, WheelState, after_due_start, after_held_start, after_removal, after_replacement, after_restart, after_start, after_stop, after_ticks, held_at, held_count, timer_at};

/// A tick makes the front of the pending timers due, and leaves the rest pending.
#[tactic(auto, using(crate::proofs::PendingLaws::tick_cuts_front))]
pub fn a_tick_cuts_the_front()
    ensures { (w : WheelState) → IsWellFormed w → w.pending
        ≡ entries_due (w.now + 1) w.pending ++ entries_left (w.now + 1) w.pending }
{}

/// A start inserts the new timer at its position in the order of the pending ones.
#[tactic(auto, using(crate::proofs::PendingLaws::start_keeps_order))]
pub fn a_start_keeps_the_order()
    ensures { (w : WheelState) (place : ℕ) (t : Timer) → IsWellFormed w → w.last_serial < t.serial
        → (after_start place t w).pending ≡ in_order timer_of (record {
          place = place;
          timer = t;
        } ∷ w.pending) }
{}

/// A stop that finds a timer removes just that one. `Wheel::look` says that each handle names one.
#[tactic(auto, using(crate::proofs::PendingLaws::held_stop_takes_one, crate::proofs::PendingLaws::stop_takes_one))]
pub fn a_stop_takes_one()
    ensures held { (w : WheelState) (handle : Handle) (t : Timer) → IsWellFormed w → NamesOne handle w
        → held_at handle w ≡ Some t → held_count (after_removal handle w) + 1 ≡ held_count w }
    ensures pending { (w : WheelState) (handle : Handle) (t : Timer) → IsWellFormed w → timer_at handle w ≡ Some t
        → length (after_stop handle w).pending + 1 ≡ length w.pending }
{}

/// Once it is removed, its handle names nothing.
#[tactic(auto, using(crate::proofs::HeldLaws::held_at_removed))]
pub fn a_stopped_timer_is_gone()
    ensures { (w : WheelState) (handle : Handle) → held_at handle (after_removal handle w) ≡ None }
{}

/// When nothing is due, a look and a stop are of the pending timers alone, and so is a restart for a later tick.
#[tactic(auto, using(crate::proofs::HeldLaws::held_when_none_due, crate::proofs::HeldLaws::removal_when_none_due, crate::proofs::HeldLaws::replacement_when_none_due))]
pub fn with_nothing_due_calls_are_of_pending_timers()
    ensures look { (w : WheelState) (handle : Handle) → w.due ≡ [] → held_at handle w ≡ timer_at handle w }
    ensures stop { (w : WheelState) (handle : Handle) → IsWellFormed w → w.due ≡ []
        → after_removal handle w ≡ after_stop handle w }
    ensures restart { (w : WheelState) (handle : Handle) (t : Timer) (r : Option (Handle × Timer)) → IsWellFormed w
        → w.due ≡ [] → w.now < t.deadline → after_replacement r handle t w ≡ after_restart r handle t w }
{}

/// A timer that is started for a later tick is pending, and one that is started for now is the last of the due ones.
#[tactic(auto, using(crate::proofs::HeldLaws::start_when_later, crate::proofs::HeldLaws::start_when_now))]
pub fn a_start_is_for_later_or_for_now()
    ensures later { (w : WheelState) (place : ℕ) (t : Timer) → w.now < t.deadline
        → after_held_start place t w ≡ after_start place t w }
    ensures now { (w : WheelState) (place : ℕ) (t : Timer) → t.deadline ≡ w.now
        → after_held_start place t w ≡ after_due_start place t w }
{}

/// Nothing becomes due before a tick to wake up at: it is safe to sleep until then.
pub fn nothing_is_due_before_the_wake_up()
    ensures { (w : WheelState) (tick n : ℕ) → w.due ≡ [] → IsWakeUp tick w.now w.pending → w.now + n < tick
        → (after_ticks n w).due ≡ [] }
{}

/// The last tick, interval, serial and request number as a literal: 2^60 - 1.
pub fn the_last_number()
    ensures { LAST ≡ 1152921504606846975 }
{}

/// The order of distinct timers is unique: two ordered lists of the same timers are equal.
#[tactic(auto, using(crate::proofs::OneOrder::the_order_is_one))]
pub fn the_order_is_one()
    ensures { (xs ys : List Timer) → IsPermutation xs ys → AreDistinct xs → IsOrdered xs → IsOrdered ys
        → xs ≡ ys }
{}
