//! Lemmas about what the subcommands write, each the contract of a function that does nothing.
ghost use Rattle.std.specs.Prelude.{◌≢◌, List, ℕ, ◌+◌, ◌++◌, false, Some, Ok};
ghost use Rattle.timer_script.specs.Types.{Event, FacilityState};
ghost use Rattle.timer_script.specs.Decorator.{AreDecoratedByReads};
ghost use Rattle.timer_script.specs.Service.{last_line};
ghost use Rattle.timer_script.specs.Replayed.{BeginsWith, AreWholeAnswers};
ghost use Rattle.timer_durable.specs.Answers.{answers_in};
ghost use Rattle.timer_durable.specs.declared.beginning.Kept.{Kept};
ghost use Rattle.timer_commands.specs.declared.ending.Ending.{Ending};
ghost use Rattle.timer_commands.specs.declared.options.RunOptions.{RunOptions};
ghost use Rattle.timer_commands.specs.Journaling.{KeptStream, GoesOnOver};
ghost use Rattle.timer_commands.specs.Resumed.{IsBrokenOff, IsLeft, IsAnsweredAsOne};
ghost use Rattle.timer_commands.specs.Serving.{Talk};
ghost use Rattle.timer_commands.specs.Indented.{AddsMarked, AddsPictures};
ghost use Rattle.timer_commands.specs.declared.shows.Shows.{Shows};
ghost use Rattle.timer_commands.specs.Wakeups.{AddsWakeups};

/// Without the lines that begin with the letter w the text of `serve --wakeups` is that of `serve`, and so is that of
/// `show` without the indented lines.
pub fn added_lines_are_marked()
    ensures wakeups { (before after : FacilityState) (events : List Event) (answer text : List ℕ)
        → AreDecoratedByReads AddsWakeups before events after answer text
        → AddsMarked 119 (answer ++ last_line after) (text ++ last_line after) }
    ensures pictures { (shows : Shows) (before after : FacilityState) (events : List Event) (answer text : List ℕ)
        → AreDecoratedByReads (AddsPictures shows) before events after answer text
        → AddsMarked 32 (answer ++ last_line after) (text ++ last_line after) }
{}

/// A stream with a journal that is broken off goes on as if it had not been. A first process had answered at some moment
/// between two calls, and its caller has whole answers of that. The journal that is left has what came. A second process
/// over it is told how many answers those are, ends well, and writes something. Then they and what it writes are, but for
/// the line `recovered`, the text of one process without a break.
pub fn a_stream_that_is_broken_off_goes_on<P, F, J>()
    ensures { (known : KeptStream P F J) (options : RunOptions) (kept left : Kept) (came gone got : List ℕ) (old new : Talk P F)
        (ending : Ending) → IsBrokenOff known options kept came gone → BeginsWith gone got → AreWholeAnswers got
        → IsLeft kept came left
        → (second : GoesOnOver known options false (Some (kept.beginning.answers + answers_in got)) left old new (Ok ending))
        → (known.state new.peer).contents ≢ (known.state old.peer).contents
        → IsAnsweredAsOne known options (Some (kept.beginning.answers + answers_in got)) left got old new (known.over second.after) }
{}
