//! Lemmas about scripts and the text that answers them, each the contract of a function that does nothing.
ghost use Rattle.std.specs.Prelude.{◌≡◌, ◌++◌, ℕ, List, [], length, true, Bool, Some, Result};
ghost use Rattle.timer_script.specs.Types.{LAST, Event, Out, FacilityState, MAX_BYTES, MAX_TICKS, ServeFault, OnBadLine, Grammar};
ghost use Rattle.timer_facility.specs.Played.{IsRun};
ghost use Rattle.timer_facility.specs.Restored.{GoesOnAs};
ghost use Rattle.timer_facility.specs.Run.{bare_state};
ghost use Rattle.timer_script.specs.Script.{AreLinesOf, IsScript, IsBadLineOf};
ghost use Rattle.timer_script.specs.ScriptReport.{IsScriptReport};
ghost use Rattle.timer_script.specs.ScriptRun.{IsAnswer};
ghost use Rattle.timer_script.specs.Cutter.{PassesEvents};
ghost use Rattle.timer_script.specs.Decorator.{AddsNothing, AreDecorated, AreDecoratedByReads};
ghost use Rattle.timer_script.specs.Peer.{PeerCall};
ghost use Rattle.timer_script.specs.Replayed.{BeginsWith, IsAnsweredFirst, IsAnswerSoFar, AreWholeAnswers};
ghost use Rattle.timer_script.specs.Service.{Sides, came_of, gone_of, IsPrompt, IsAnsweredWith, HasAnsweredEvents, HasAnsweredPart, HasServedPeer, server_with};
ghost use Rattle.timer_script.specs.Text.{lines_of};

use std::io::Write;
use timer_facility::laws::players_give_the_same;

/// Limits that the definitions name, as numbers.
pub fn limits()
    ensures greatest_number { LAST ≡ 1152921504606846975 }
    ensures ticks_of_a_line { MAX_TICKS ≡ 1000000 }
    ensures bytes_of_a_script { MAX_BYTES ≡ 1048576 }
{}

/// Bytes spell at most one list of events, in a script and in a stream, and what is a script is a stream of the same
/// events. So `serve` answers a script as `run` does.
#[tactic(auto, using(crate::proofs::ScriptLemmas::one_spelling, crate::proofs::ScriptLemmas::script_streams))]
pub fn one_spelling()
    ensures stream { (events : List Event) (bytes : List ℕ) → IsScript events bytes
        → AreLinesOf Grammar.Stream events bytes }
    ensures one { (grammar : Grammar) (xs ys : List Event) (bytes : List ℕ) → AreLinesOf grammar xs bytes
        → AreLinesOf grammar ys bytes → xs ≡ ys }
{}

/// A script or a stream of good lines has no bad line, and other bytes have at most one first bad line.
pub fn one_bad_line()
    ensures no_script { (grammar : Grammar) (xs : List Event) (bytes : List ℕ) (n : ℕ)
        → AreLinesOf grammar xs bytes → IsBadLineOf grammar bytes n → ⊥ }
    ensures one { (grammar : Grammar) (bytes : List ℕ) (m n : ℕ) → IsBadLineOf grammar bytes m
        → IsBadLineOf grammar bytes n → m ≡ n }
{}

/// Bytes with no bad line are the script of some events, and their report is empty; a script has no bad line.
pub fn scripts_have_no_bad_line()
    ensures script { (bytes text : List ℕ) → IsScriptReport bytes text 0
        → (text ≡ []) × ((events : List Event) × IsScript events bytes) }
    ensures none { (events : List Event) (bytes text : List ℕ) (bad : ℕ) → IsScript events bytes
        → IsScriptReport bytes text bad → bad ≡ 0 }
{}

/// The answer to events is one text, over each wheel with the same last tick: it contains no places.
pub fn each_wheel_gives_the_same_text()
    ensures { (s t : FacilityState) (events : List Event) (answer other : List ℕ)
        → bare_state s ≡ bare_state t
        → IsAnswer s events answer → IsAnswer t events other → answer ≡ other }
{
    players_give_the_same();
}

/// The calls of a peer, if they are known, are prompt, however serving without a decorator ends: before each read
/// every complete line that came, or every good one if bad ones are reported, was answered, and the answers flushed.
/// So it was when the peer was told a state, and that is the state after these lines.
#[tactic(auto, using(crate::proofs::ServiceLemmas::prompt))]
pub fn served_calls_are_prompt<F: Write>()
    ensures { (on_bad : OnBadLine) (before : FacilityState) (old new : Sides F)
        (result : Result Bool ServeFault) (calls : List PeerCall)
        → old.peer.calls ≡ Some [] → new.peer.calls ≡ Some calls
        → HasServedPeer (server_with on_bad AddsNothing before F.contents) old new result
        → IsPrompt on_bad AddsNothing before calls }
{}

/// With a decorator that adds nothing the text for lines is the answer to them, and so is that for the lines of some
/// reads.
pub fn undecorated_text_is_the_answer()
    ensures lines { (before after : FacilityState) (events : List Event) (answer text : List ℕ)
        → AreDecorated AddsNothing before events after answer text → text ≡ answer }
    ensures reads { (before after : FacilityState) (events : List Event) (answer text : List ℕ)
        → AreDecoratedByReads AddsNothing before events after answer text → text ≡ answer }
{}

/// What was answered of a stream is a prefix of the answer to it when the stream is given again, and goes on. The second
/// facility has the state of the first, or was restored from a dump of it. Whatever is added to the answers, their
/// own lines are a prefix too.
pub fn a_replay_begins_with_what_was_answered()
    ensures part { (on_bad : OnBadLine) (before again after : FacilityState) (came more gone text : List ℕ)
        (events all : List Event) → GoesOnAs before again → PassesEvents on_bad came events
        → HasAnsweredPart AddsNothing before events gone → PassesEvents on_bad (came ++ more) all
        → HasAnsweredEvents AddsNothing again all after text → BeginsWith text gone }
    ensures whole { (on_bad : OnBadLine) (before again : FacilityState) (came more gone text : List ℕ)
        → GoesOnAs before again → IsAnsweredWith on_bad AddsNothing before came gone
        → IsAnsweredWith on_bad AddsNothing again (came ++ more) text → BeginsWith text gone }
    ensures answers { (on_bad : OnBadLine) (before again now after : FacilityState) (came more : List ℕ)
        (events all : List Event) (outs others : List Out) → GoesOnAs before again → PassesEvents on_bad came events
        → PassesEvents on_bad (came ++ more) all → IsRun before events outs now → IsRun again all others after
        → BeginsWith (lines_of others) (lines_of outs) }
{}

/// At each moment between two calls of a server with a peer what went to the peer is a front of the answer to what came,
/// or, at the end of the stream, of that and the line at the end. Whole lines of it, but for that one, are answers that
/// a replay gives again.
pub fn what_went_is_answered_first<F: Write>()
    ensures moment { (before : FacilityState) (old new : Sides F) (result : Result Bool ServeFault)
        (calls front back : List PeerCall) → old.peer.calls ≡ Some [] → new.peer.calls ≡ Some calls
        → calls ≡ front ++ back → HasServedPeer (server_with OnBadLine.Report AddsNothing before F.contents) old new result
        → IsAnswerSoFar before (came_of front) (gone_of front) }
    ensures whole { (before : FacilityState) (came gone got : List ℕ) → IsAnswerSoFar before came gone
        → BeginsWith gone got → AreWholeAnswers got → IsAnsweredFirst before came got }
{}
