//! Plays the ticks of one line in steps, so that what each step moved can be shown.
//!
//! No bucket with a timer is emptied before the tick until which a facility is quiet. A step ends there, or
//! at the end of the line: then timers moved at most at its last tick.
ghost use Rattle.std.specs.Prelude.{◌≡◌, ◌<◌, ◌≤◌, ◌⊎◌, ◌∷◌, [], OnErr, OnOk};
ghost use Rattle.timer_facility.specs.State.{IsSound};
ghost use Rattle.timer_facility.specs.Played.{ticks_left};
ghost use Rattle.timer_script.specs.Decorator.{HasGrown, HasGrownByAnswer};

use crate::decorator::Decorator;
use crate::session::Session;
use timer_base::{OutOfMemory, Wheel};
use timer_facility::{Event, Facility};

/// Plays the ticks of a line in steps, and appends the answers and what is added after each step.
///
/// The only error is out of memory, and then the text is unchanged. Some of the ticks may have been played.
pub fn play_steps<W: Wheel + Drop, D: Decorator<W>>(
    session: &mut Session<W>,
    decorator: &D,
    count: u64,
    text: &mut Vec<u8>,
) -> Result<(), OutOfMemory>
    ensures whole { OnOk result (HasGrownByAnswer (D.adds decorator.now) session.old.player (Event.Ticks count ∷ [])
        session.new.player text.old.items text.new.items) }
    ensures nothing { OnErr result (text.new.items ≡ text.old.items) }
{
    let before = text.len();
    let mut left = count;
    while left > 0 {
        let step = step_of(session.player.facility(), left);
        let Ok(()) = play_step(session, decorator, step, text) else {
            text.truncate(before);
            return Err(OutOfMemory);
        };
        left -= step;
    }
    Ok(())
}

/// The same for the ticks that are left until a tick.
#[tactic(auto, using(crate::proofs::StepLemmas::answered_to))]
pub fn play_steps_to<W: Wheel + Drop, D: Decorator<W>>(
    session: &mut Session<W>,
    decorator: &D,
    tick: u64,
    text: &mut Vec<u8>,
) -> Result<(), OutOfMemory>
    ensures whole { OnOk result (HasGrownByAnswer (D.adds decorator.now) session.old.player (Event.TicksTo tick ∷ [])
        session.new.player text.old.items text.new.items) }
    ensures nothing { OnErr result (text.new.items ≡ text.old.items) }
{
    let left = tick.saturating_sub(session.player.facility().now());
    play_steps(session, decorator, left, text)
}

/// How many ticks the next step has, if so many are left of the line.
fn step_of<W: Wheel + Drop>(facility: &Facility<W>, left: u64) -> u64
    ensures within { result ≤ left }
    ensures some { 0 < left → 0 < result }
    ensures accepted { (result ≡ left) ⊎ (result ≤ ticks_left facility.now.state) }
    ensures sound { IsSound facility.now.state }
{
    let now = facility.now();
    let last = facility.wheel().last_tick();
    let is_closed = facility.is_closed();
    match facility.quiet_until() {
        Some(tick) if tick <= last && !is_closed => left.min(tick - now),
        _ => left,
    }
}

/// Plays one step, and appends the answers and what is added after it.
#[tactic(auto, using(crate::proofs::StepLemmas::grown_answer))]
fn play_step<W: Wheel + Drop, D: Decorator<W>>(
    session: &mut Session<W>,
    decorator: &D,
    count: u64,
    text: &mut Vec<u8>,
) -> Result<(), OutOfMemory>
    ensures answer { OnOk result (HasGrownByAnswer (D.adds decorator.now) session.old.player (Event.Ticks count ∷ [])
        session.new.player text.old.items text.new.items) }
    ensures kept { HasGrown text.old.items text.new.items }
{
    let before = decorator.before_step(session.player.facility());
    session.play_one(&Event::Ticks { count }, text)?;
    decorator.decorate_step(before, text, session.player.facility())
}
