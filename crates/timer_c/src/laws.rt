//! Lemmas: where a run of calls of C begins, and what an iteration finds.
//!
//! Each export that may change a `struct timers` says in its clause `call` which call of a run (timer_runs) it is. So the
//! laws about runs hold of each list of calls of one struct, from `TIMERS_INIT` on, over every `timers_new` and
//! `timers_free`.
ghost use Rattle.std.specs.Prelude.{◌≡◌, ℕ, List, length};
ghost use Rattle.timer_base.specs.WheelState.{WheelState};
ghost use Rattle.timer_runs.specs.Runs.{IsNew};
ghost use Rattle.timer_c.specs.declared.c_timers.CTimers.{CTimers};
ghost use Rattle.timer_c.specs.declared.layout.CHandle.{CHandle};
ghost use Rattle.timer_c.specs.Calls.{state_of};
ghost use Rattle.timer_c.specs.Iteration.{Visit, AreVisits, IsHeldThroughout, IsOccupiedThroughout, found_under, found_at};

/// At `TIMERS_INIT` all bytes of a struct are 0. It holds no timer then, and no serial was used. So a run begins there.
fn a_run_begins_at_timers_init()
    ensures { (t : CTimers) → t.slot.mark ≡ 0 → t.last_serial ≡ 0
        → IsNew (state_of t) × ((state_of t).last_serial ≡ 0) }
{}

/// An iteration by timers_each, whatever is called meanwhile, finds each timer that is held all the time under one handle
/// exactly once. At a place where a timer is held all the time, under whatever handles, it finds one exactly once.
#[tactic(auto, using(crate::proofs::IterationLemmas::found_once, crate::proofs::IterationLemmas::found_once_at))]
fn each_held_timer_is_visited_once()
    ensures handle { (visits : List Visit) (last : WheelState) (handle : CHandle) → AreVisits 0 visits last
        → IsHeldThroughout handle visits last → length (found_under handle visits) ≡ 1 }
    ensures place { (visits : List Visit) (last : WheelState) (place : ℕ) → AreVisits 0 visits last
        → IsOccupiedThroughout place visits last → length (found_at place visits) ≡ 1 }
{}
