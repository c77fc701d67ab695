//! Lemmas about every run of calls, over every wheel, from new timers on. Each of these functions does nothing: its
//! contract is the lemma. What is a call, and a run of them, is in specs/Runs.antt.
ghost use Rattle.std.specs.Prelude.{◌≡◌, ◌≤◌, ◌++◌, ℕ, List, None};
ghost use Rattle.timer_base.specs.declared.timer.Handle.{Handle};
ghost use Rattle.timer_base.specs.Order.{AreDistinct, IsOrdered, IsMember};
ghost use Rattle.timer_base.specs.Pending.{Entry};
ghost use Rattle.timer_base.specs.WheelState.{held_at};
ghost use Rattle.timer_total.specs.TimersState.{TimersState};
ghost use Rattle.timer_runs.specs.Runs.{Counters, Moment, IsCall, Took, IsRun, IsNew, started, ended, taken, held, taken_lately, AreAccounted, AreNumberedIn, AreOnTime, AreTaken, AreOutBy, AreAllThere, IsNamed, IsExample};

/// No timer is lost or made: whatever a test asks of a timer, as many were started that satisfy it as were taken,
/// were stopped, restarted or dropped, or are held.
pub fn each_timer_is_accounted_for()
    ensures { (c : Counters) (s t : TimersState) (ms : List Moment) → IsNew s → IsRun c s ms t → AreAccounted ms t }
{}

/// The timers that were started are those that were taken, that were stopped, restarted or dropped, or that are held.
/// So what a clear or a free finds is what was started and is not out.
pub fn each_timer_is_somewhere()
    ensures { (c : Counters) (s t : TimersState) (ms : List Moment) → IsNew s → IsRun c s ms t → AreAllThere ms t }
{}

/// No timer is taken twice, none after it was stopped, restarted or dropped, and none of these is still held.
pub fn each_timer_is_taken_once()
    ensures { (c : Counters) (s t : TimersState) (ms : List Moment) → IsNew s → IsRun c s ms t
        → AreDistinct (taken ms ++ (ended ms ++ held t)) }
{}

/// Each timer that was started, and not stopped, restarted or dropped, is taken, once the clock is past its deadline,
/// or is at it and nothing waits to be taken.
pub fn each_timer_is_taken()
    ensures { (c : Counters) (s t : TimersState) (ms : List Moment) → IsNew s → IsRun c s ms t → AreTaken ms t }
{}

/// Once a take by a tick finds none, each timer whose deadline is at most that tick has been taken, unless it was stopped,
/// restarted or dropped.
pub fn a_take_that_finds_none_has_taken_all()
    ensures { (c : Counters) (s old new : TimersState) (ms : List Moment) (tick : ℕ) → IsNew s → IsRun c s ms old
        → IsCall c (Took tick None) old new → AreOutBy tick ms }
{}

/// A timer is taken at its deadline, neither earlier nor later: a tick that has passed counts as the present one.
pub fn each_timer_is_taken_at_its_deadline()
    ensures { (c : Counters) (s t : TimersState) (ms : List Moment) → IsNew s → IsRun c s ms t → AreOnTime ms }
{}

/// Timers are taken in the order of their deadlines, and with one deadline in the order of their starts.
pub fn timers_are_taken_in_order()
    ensures { (c : Counters) (s t : TimersState) (ms : List Moment) → IsNew s → IsRun c s ms t
        → IsOrdered (taken_lately ms ++ held t) }
{}

/// Serials rise in the order of starting.
pub fn serials_rise()
    ensures { (c : Counters) (s t : TimersState) (ms : List Moment) → IsNew s → IsRun c s ms t
        → AreNumberedIn s ms t }
{}

/// The handle of a start names its own timer as long as that is held, and nothing after.
pub fn a_handle_names_its_own_timer()
    ensures { (c : Counters) (s t : TimersState) (ms : List Moment) (e : Entry) → IsNew s → IsRun c s ms t
        → IsMember e (started ms) → IsNamed e ms t }
{}

/// A handle of timers before these names nothing: their serials go on after its own.
pub fn an_older_handle_names_nothing()
    ensures { (c : Counters) (s t : TimersState) (ms : List Moment) (handle : Handle) → IsNew s → IsRun c s ms t
        → handle.serial ≤ s.last_serial → held_at handle t.wheel ≡ None }
{}

/// There are such runs: the laws are not empty.
pub fn there_is_a_run()
    ensures { (c : Counters) → IsExample c }
{}
