//! Lemmas about the text of a dump: it is read as the state that was dumped, and a facility that is restored from it goes
//! on as the first one. Each is the contract of a function that does nothing.
ghost use Rattle.std.specs.Prelude.{◌≡◌, ◌≤◌, ℕ, List, [], ◌∷◌};
ghost use Rattle.timer_base.specs.Layout.{Layout};
ghost use Rattle.timer_facility.specs.Config.{IsInRange};
ghost use Rattle.timer_facility.specs.Played.{IsRun};
ghost use Rattle.timer_facility.specs.Restored.{limits_of, restored, IsConfigured, GoesOnAs};
ghost use Rattle.timer_facility.specs.Run.{bare_state};
ghost use Rattle.timer_facility.specs.Savable.{IsSavable, HaveActionsInRange, IsWithin, read_of};
ghost use Rattle.timer_facility.specs.Saved.{ReadState};
ghost use Rattle.timer_facility.specs.State.{IsSound, opened};
ghost use Rattle.timer_facility.specs.declared.config.Config.{Config};
ghost use Rattle.timer_facility.specs.declared.saved.Limits.{Limits};
ghost use Rattle.timer_script.specs.Types.{LAST, Event, FacilityState, Grammar, Out};
ghost use Rattle.timer_script.specs.SavedText.{IsSavedText, WhyNotRead};
ghost use Rattle.timer_script.specs.Script.{AreLinesOf};
ghost use Rattle.timer_script.specs.Text.{lines_of};
ghost use Rattle.timer_facility.specs.declared.event.Event.TheVariants as variants;
ghost use Rattle.timer_script.specs.declared.saved_text.SavedFault.{SavedFault};
ghost use Rattle.timer_script.specs.declared.saved_text.SavedFault.TheVariants as faults;

use timer_facility::laws::{
    a_dump_says_how_to_go_on, each_run_leaves_a_savable_state, each_run_leaves_a_sound_state,
    no_line_of_a_dump_is_refused,
};

/// No dump is refused. Within limits that are at least those of the facility, the text of its dump is the text of its
/// state, and of nothing else. So no reason but memory can be why it isn't read.
pub fn no_dump_is_refused()
    ensures read { (limits : Limits) (s after : FacilityState) (outs : List Out) → IsSound s → IsSavable s
        → IsWithin limits s → IsRun s (variants.Dump ∷ []) outs after
        → IsSavedText limits (lines_of outs) (read_of limits s) }
    ensures fault { (limits : Limits) (s after : FacilityState) (outs : List Out) (fault : SavedFault) → IsSound s
        → IsSavable s → IsWithin limits s → IsRun s (variants.Dump ∷ []) outs after
        → WhyNotRead limits (lines_of outs) fault → fault ≡ faults.OutOfMemory }
{
    no_line_of_a_dump_is_refused();
}

/// Text in, answers out: whatever state was read of the text of a dump, a facility that is restored from it answers
/// every list of events as the one that was dumped, except for places.
pub fn a_dump_that_is_read_goes_on()
    ensures { (config : Config) (last : ℕ) (limits : Limits) (s after t : FacilityState) (outs : List Out)
        (saved : ReadState) → IsSound s → IsSavable s → IsConfigured config last s
        → IsRun s (variants.Dump ∷ []) outs after → IsSavedText limits (lines_of outs) saved
        → bare_state t ≡ restored config last saved.saved → GoesOnAs s t }
{
    a_dump_says_how_to_go_on();
}

/// The two laws above, of a facility since it was opened: whatever events came, if their actions are at most `LAST`, the
/// text of its dump is read by a facility with its configuration, and what is read goes on as it.
pub fn whatever_came_a_dump_goes_on()
    ensures read { (config : Config) (last : ℕ) (layout : Layout) (events : List Event) (outs dump : List Out)
        (s after : FacilityState) → IsInRange config → config.first_tick ≤ last → last ≤ LAST
        → HaveActionsInRange events → IsRun (opened config last layout) events outs s
        → IsRun s (variants.Dump ∷ []) dump after
        → IsSavedText (limits_of config last) (lines_of dump) (read_of (limits_of config last) s) }
    ensures goes_on { (config : Config) (last : ℕ) (layout : Layout) (events : List Event) (outs dump : List Out)
        (limits : Limits) (s after t : FacilityState) (saved : ReadState) → IsInRange config → config.first_tick ≤ last
        → last ≤ LAST → HaveActionsInRange events → IsRun (opened config last layout) events outs s
        → IsRun s (variants.Dump ∷ []) dump after → IsSavedText limits (lines_of dump) saved
        → bare_state t ≡ restored config last saved.saved → GoesOnAs s t }
{
    each_run_leaves_a_sound_state();
    each_run_leaves_a_savable_state();
    no_dump_is_refused();
    a_dump_that_is_read_goes_on();
}

/// A state that is restored from a text is savable, and lines keep it so: the actions of their events are at most
/// `LAST`. So no dump that a server writes is refused, after however many restores.
pub fn lines_leave_a_savable_state()
    ensures restored { (config : Config) (last : ℕ) (bytes : List ℕ) (saved : ReadState) → IsInRange config
        → IsSavedText (limits_of config last) bytes saved → IsSavable (restored config last saved.saved) }
    ensures lines { (grammar : Grammar) (events : List Event) (bytes : List ℕ) → AreLinesOf grammar events bytes
        → HaveActionsInRange events }
{
    each_run_leaves_a_savable_state();
}
