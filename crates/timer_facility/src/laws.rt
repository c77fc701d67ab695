//! Lemmas about every run of a facility, whatever the events are and whichever wheel it runs on.
//! Each of these functions does nothing: its contract is the lemma.
ghost use Rattle.std.specs.Prelude.{◌≡◌, ◌<◌, ◌≤◌, List, [], ◌∷◌, ◌++◌, ℕ, ◌+◌, length, take, map, true, Some, None};
ghost use Rattle.std.specs.List.{AllByRecursion};
ghost use Rattle.timer_base.specs.Layout.{Layout};
ghost use Rattle.timer_base.specs.Order.{AreNumbered};
ghost use Rattle.timer_base.specs.WakeUps.{IsWakeUp};
ghost use Rattle.timer_facility.specs.Types.{LAST, MAX_CLIENTS, MAX_PENDING, SPARE, Config, Event, Out, Limits, StateLine};
ghost use Rattle.timer_facility.specs.State.{FacilityState, IsSound, SingleEvent, Asked, Tick, Close, ModelRequest, opened, pending_of};
ghost use Rattle.timer_facility.specs.Verdict.{Refusal, refusals_of, verdict, closed_refusal};
ghost use Rattle.timer_facility.specs.Step.{step, refused, refusals_in};
ghost use Rattle.timer_facility.specs.Run.{PlacedEvent, history, state_after, run, notices, notices_in, bare_outs, bare_state, NamesBySerial, AreSameButForPlaces};
ghost use Rattle.timer_facility.specs.HandedOver.{AddsAtMostOne, HandsOver};
ghost use Rattle.timer_facility.specs.Owed.{owed, left_after, accepted_starts, accepted_ticks, others, AreHandedOutOnce, AreAllHandedOut};
ghost use Rattle.timer_facility.specs.Played.{IsRun};
ghost use Rattle.timer_facility.specs.Config.{IsInRange};
ghost use Rattle.timer_facility.specs.Saved.{Saved, saved_of, ReadState, IsReadState, lines_read, state_lines, line_fault};
ghost use Rattle.timer_facility.specs.Savable.{IsSavable, HaveActionsInRange, AreSaidTimers, IsWithin, read_of};
ghost use Rattle.timer_facility.specs.Restored.{limits_of, restored, IsConfigured, GoesOnAs};
ghost use Rattle.timer_facility.specs.Ticked.{ticks};

/// Whatever the events are, after each of them the notices so far are what is owed.
#[tactic(auto, using(crate::proofs::OwedLemmas::notices_take))]
pub fn notices_are_owed()
    ensures { (s : FacilityState) (placed : List PlacedEvent) (k : ℕ) → IsSound s
        → notices (take k (history s placed)) ≡ owed s (take k (history s placed)) }
{}

/// No timer is handed out twice, and a stopped one never is.
#[tactic(auto, using(crate::proofs::OwedOnce::handed_once))]
pub fn each_timer_is_handed_out_once()
    ensures { (s : FacilityState) (placed : List PlacedEvent) → IsSound s
        → AreHandedOutOnce (history s placed) }
{}

/// Each timer that was started and not stopped is handed out: it expires if its deadline is reached, and
/// is returned if the facility was closed before that.
#[tactic(auto, using(crate::proofs::OwedOnce::handed_all))]
pub fn each_timer_is_handed_out()
    ensures { (s : FacilityState) (placed : List PlacedEvent) → IsSound s
        → AreAllHandedOut s (history s placed) }
{}

/// Serials rise in the order of starting, each by one: the timers started in a run have the serials from the next one on. So
/// where timers of one tick come out by serial, they come out in the order of starting.
pub fn serials_rise_in_the_order_of_starting()
    ensures { (s : FacilityState) (placed : List PlacedEvent) → IsSound s
        → AreNumbered s.next_serial (accepted_starts (history s placed)) (state_after s placed).next_serial }
{}

/// A close returns the others: of all timers that were started, those that no tick handed out and that
/// were not stopped.
#[tactic(auto, using(crate::proofs::OwedOnce::left_others))]
pub fn a_close_returns_the_others()
    ensures { (s : FacilityState) (placed : List PlacedEvent) → IsSound s
        → left_after s (history s placed) (s.now + accepted_ticks (history s placed))
        ≡ others s (history s placed) }
{}

/// The outs of events, and the state after them, do not depend on the places that a wheel chooses,
/// if each stop and restart names its timer by serial.
pub fn bare_outs_do_not_depend_on_places()
    ensures { (s t : FacilityState) (placed others : List PlacedEvent) → bare_state s ≡ bare_state t
        → map (λ p. p.event) placed ≡ map (λ p. p.event) others
        → AllByRecursion NamesBySerial (map (λ p. p.event) placed)
        → AreSameButForPlaces (run s placed) (run t others) }
{}

/// Two players whose states are the same but for places return the same outs for one list of events, except for places.
pub fn players_give_the_same()
    ensures { (s t : FacilityState) (events : List Event) (outs others : List Out) (after end : FacilityState)
        → bare_state s ≡ bare_state t
        → IsRun s events outs after → IsRun t events others end
        → (bare_outs outs ≡ bare_outs others) × (bare_state after ≡ bare_state end) }
{}

/// The first state of a facility is sound, and each run leaves a sound state with the same configuration.
pub fn each_run_leaves_a_sound_state()
    ensures opened { (config : Config) (last : ℕ) (layout : Layout) → IsInRange config → config.first_tick ≤ last
        → last ≤ LAST → IsSound (opened config last layout) × IsConfigured config last (opened config last layout) }
    ensures run { (s after : FacilityState) (events : List Event) (outs : List Out) → IsSound s
        → IsRun s events outs after → IsSound after }
    ensures configured { (config : Config) (last : ℕ) (s after : FacilityState) (events : List Event) (outs : List Out)
        → IsSound s → IsConfigured config last s → IsRun s events outs after → IsConfigured config last after }
{}

/// The first state of a facility is savable, and each run of events whose actions are at most `LAST` leaves a savable
/// state. So does a restore, if the request numbers and actions of its timers are. The places make no difference.
pub fn each_run_leaves_a_savable_state()
    ensures opened { (config : Config) (last : ℕ) (layout : Layout) → IsInRange config → config.first_tick ≤ last
        → IsSavable (opened config last layout) }
    ensures run { (s after : FacilityState) (events : List Event) (outs : List Out) → IsSavable s
        → HaveActionsInRange events → IsRun s events outs after → IsSavable after }
    ensures restored { (config : Config) (last : ℕ) (r : ReadState) → IsInRange config → IsReadState r
        → r.limits ≡ limits_of config last → AreSaidTimers r.saved.timers → IsSavable (restored config last r.saved) }
    ensures places { (s t : FacilityState) → bare_state s ≡ bare_state t → IsSavable s → IsSavable t }
{}

/// No line of the dump of a savable state is refused, within limits that are at least those of the facility: after the
/// lines before it, none of the reasons holds. So what the lines say can be read.
pub fn no_line_of_a_dump_is_refused()
    ensures read { (limits : Limits) (s : FacilityState) → IsSound s → IsSavable s → IsWithin limits s
        → IsReadState (read_of limits s) }
    ensures none { (limits : Limits) (s : FacilityState) (r : ReadState) (line : StateLine) (rest : List StateLine)
        → IsSound s → IsSavable s → IsWithin limits s → IsReadState r → r.limits ≡ limits
        → lines_read r ++ line ∷ rest ≡ state_lines (saved_of s) → line_fault r line ≡ None }
{}

/// A facility with the state that the lines of another's dump say answers every list of events as that one does, except
/// for places.
pub fn a_dump_says_how_to_go_on()
    ensures { (s t : FacilityState) (config : Config) (last : ℕ) (v : Saved) → IsSound s → IsConfigured config last s
        → state_lines v ≡ state_lines (saved_of s) → bare_state t ≡ restored config last v → GoesOnAs s t }
{}

/// A refused event changes nothing, except that a request which is taken uses up its number.
#[tactic(auto, using(crate::proofs::StepLemmas::step_refused))]
pub fn a_refusal_changes_at_most_the_number()
    ensures { (s : FacilityState) (event : SingleEvent) (place : ℕ) (refusal : Refusal)
        → verdict s event ≡ Some refusal
        → step s event place ≡ refused s event refusal }
{}

/// The outs of an event determine the verdict on it: those of an accepted event have no refusal, and the
/// only refusal among those of a refused one is that of the verdict.
#[tactic(auto, using(crate::proofs::StepLemmas::outs_verdict))]
pub fn the_outs_tell_the_verdict()
    ensures { (s : FacilityState) (event : SingleEvent) (place : ℕ)
        → refusals_in (step s event place).outs ≡ refusals_of (verdict s event) }
{}

/// A closed facility refuses each event as closed, but for a look at its state.
#[tactic(auto, using(crate::proofs::StepLemmas::verdict_closed))]
pub fn a_closed_facility_refuses_each_event()
    ensures { (s : FacilityState) (event : SingleEvent) → s.is_closed ≡ true
        → verdict s event ≡ closed_refusal event }
{}

/// After the close nothing is handed out, and nothing changes.
#[tactic(auto, using(crate::proofs::StepLemmas::none_after_close, crate::proofs::StepLemmas::state_closed))]
pub fn nothing_comes_after_the_close()
    ensures { (s : FacilityState) (placed : List PlacedEvent) → s.is_closed ≡ true
        → (notices_in (run s placed).outs ≡ []) × ((run s placed).state ≡ s) }
{}

/// A request adds at most one timer to those of its client, pending or handed out, and none to those of another.
pub fn a_request_adds_at_most_one()
    ensures { (s : FacilityState) (client number : ℕ) (request : ModelRequest) (place : ℕ)
        → AddsAtMostOne client s (step s (Asked client number request) place) }
{}

/// What a tick or a close hands out was pending, and is no longer pending.
pub fn what_is_handed_out_was_pending()
    ensures tick { (s : FacilityState) → HandsOver s (step s Tick 0) }
    ensures close { (s : FacilityState) → HandsOver s (step s Close 0) }
{}

/// After a run, now is the start's now and one more for each accepted tick.
#[tactic(auto, using(crate::proofs::ClockLemmas::now_run))]
pub fn now_counts_the_accepted_ticks()
    ensures { (s : FacilityState) (placed : List PlacedEvent)
        → (state_after s placed).now ≡ s.now + accepted_ticks (history s placed) }
{}

/// Ticks that end before a tick to wake up at hand nothing out: it is safe to sleep until then.
pub fn nothing_is_handed_out_before_the_wake_up()
    ensures { (s : FacilityState) (tick n : ℕ) → IsWakeUp tick s.now s.pending → s.now + n < tick
        → notices (history s (ticks n)) ≡ [] }
{}

/// A client that does not exist has no pending timer after a run, if it had none before.
#[tactic(auto, using(crate::proofs::ClockLemmas::pending_no_client))]
pub fn no_timer_is_of_no_client()
    ensures { (s : FacilityState) (placed : List PlacedEvent) (client : ℕ) → length s.numbers ≤ client
        → pending_of s client ≡ 0 → pending_of (state_after s placed) client ≡ 0 }
{}

/// The limits in numbers: at most 64 clients, at most 1,048,576 timers pending, and 64 handles more than two
/// for each of them.
pub fn the_limits_of_a_facility()
    ensures clients { MAX_CLIENTS ≡ 64 }
    ensures pending { MAX_PENDING ≡ 1048576 }
    ensures spare { SPARE ≡ 64 }
{}
