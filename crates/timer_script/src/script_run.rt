//! The whole run: a script is read to its end and played, and the text that answers it is written.
//!
//!     reader --read--> bytes --parse--> event --play--> outs --text--> bytes --write--> writer
//!
//! Each event is played as soon as its line is parsed, and its outs become text before the next line is read.
//! An event and an out are much longer than their lines, so those of a whole script are never in memory
//! together. Nothing is written before the last line was played. So a script with a bad line is rejected as
//! a whole, and what is written is the whole answer or a prefix of it.
ghost use Rattle.std.specs.Prelude.{◌≡◌, ◌↔◌, ◌∷◌, ℕ, [], false, IsTrue, IfOk, IfErr, OnOk, IsErrOf};
ghost use Rattle.timer_facility.specs.declared.event.Event.{Event};
ghost use Rattle.timer_script.specs.Script.{IsFault};
ghost use Rattle.timer_script.specs.ScriptRun.{AddsLines, HasPlayedLines, IsAnswerTo, HasRun};
ghost use Rattle.timer_script.specs.Decorator.{HasGrown};
ghost use Rattle.timer_script.specs.Watched.{has_failed};

use crate::fault::{RunFault, ScriptFault};
use crate::input::read_script;
use crate::lines::read_line;
use crate::output::write_text;
use crate::text::{push_end, push_out, push_outs};
use crate::watched::Watched;
use std::alloc::Global;
use std::io::{Read, Write};
use timer_base::{OutOfMemory, Wheel};
use timer_facility::{Event, Facility, Out, Player};

/// An answer has room for this many times the bytes of its script at first. Most answers fit in that, and are
/// never copied; a longer one grows. Unused room costs an address range, and no pages.
const GROWTH: usize = 4;

/// Plays an event, and adds the line of each of its outs to the text. `outs` is a scratch buffer,
/// reused. Inlined, so that an event that was just read need not be in memory, and of one that is there only the fields
/// of its kind are read; what plays an event of each kind is a call.
#[inline(always)]
pub fn play_event<W: Wheel + Drop>(
    player: &mut Player<W>,
    event: &Event,
    outs: &mut Vec<Out>,
    text: &mut Vec<u8>,
) -> Result<(), OutOfMemory>
    ensures lines { OnOk result (AddsLines player.old (event.now ∷ []) text.old.items text.new.items player.new) }
    ensures kept { HasGrown text.old.items text.new.items }
{
    match *event {
        Event::Start {
            client,
            number,
            interval,
            action,
        } => answer_start(player, client, number, interval, action, text),
        Event::Stop {
            client,
            number,
            serial,
        } => answer_stop(player, client, number, serial, text),
        Event::Restart {
            client,
            number,
            serial,
            interval,
            action,
        } => answer_restart(player, client, number, serial, interval, action, text),
        Event::Ticks { count } => answer_ticks(player, count, outs, text),
        Event::Close => answer_close(player, outs, text),
        // The lines of a stream alone. In a script they don't come. A copy is handed on: the event itself would be in
        // memory for each line.
        Event::StartAt { .. } | Event::RestartAt { .. } | Event::TicksTo { .. } | Event::Dump => {
            let copy = *event;
            answer_outs(player, copy, outs, text)
        }
    }
}

/// Plays a start, and adds its line.
#[inline(never)]
fn answer_start<W: Wheel + Drop>(
    player: &mut Player<W>,
    client: u64,
    number: u64,
    interval: u64,
    action: u64,
    text: &mut Vec<u8>,
) -> Result<(), OutOfMemory>
    ensures lines { OnOk result (AddsLines player.old (Event.Start client number interval action ∷ [])
        text.old.items text.new.items player.new) }
    ensures kept { HasGrown text.old.items text.new.items }
{
    let out = player.play_start(client, number, interval, action)?;
    push_out(text, &out)
}

/// Plays a stop, and adds its line.
#[inline(never)]
fn answer_stop<W: Wheel + Drop>(
    player: &mut Player<W>,
    client: u64,
    number: u64,
    serial: u64,
    text: &mut Vec<u8>,
) -> Result<(), OutOfMemory>
    ensures lines { OnOk result (AddsLines player.old (Event.Stop client number serial ∷ [])
        text.old.items text.new.items player.new) }
    ensures kept { HasGrown text.old.items text.new.items }
{
    let out = player.play_stop(client, number, serial);
    push_out(text, &out)
}

/// Plays a restart, and adds its line.
#[inline(never)]
fn answer_restart<W: Wheel + Drop>(
    player: &mut Player<W>,
    client: u64,
    number: u64,
    serial: u64,
    interval: u64,
    action: u64,
    text: &mut Vec<u8>,
) -> Result<(), OutOfMemory>
    ensures lines { OnOk result (AddsLines player.old (Event.Restart client number serial interval action ∷ [])
        text.old.items text.new.items player.new) }
    ensures kept { HasGrown text.old.items text.new.items }
{
    let out = player.play_restart(client, number, serial, interval, action)?;
    push_out(text, &out)
}

/// Plays ticks, and adds the line of each out. Takes their number: an event would be in memory.
#[inline(never)]
fn answer_ticks<W: Wheel + Drop>(
    player: &mut Player<W>,
    count: u64,
    outs: &mut Vec<Out>,
    text: &mut Vec<u8>,
) -> Result<(), OutOfMemory>
    ensures lines { OnOk result (AddsLines player.old (Event.Ticks count ∷ []) text.old.items text.new.items player.new) }
    ensures kept { HasGrown text.old.items text.new.items }
{
    answer_outs(player, Event::Ticks { count }, outs, text)
}

/// Plays a close, and adds its lines. A refused one has no event in memory.
#[inline(never)]
fn answer_close<W: Wheel + Drop>(
    player: &mut Player<W>,
    outs: &mut Vec<Out>,
    text: &mut Vec<u8>,
) -> Result<(), OutOfMemory>
    ensures lines { OnOk result (AddsLines player.old (Event.Close ∷ []) text.old.items text.new.items player.new) }
    ensures kept { HasGrown text.old.items text.new.items }
{
    if let Some(out) = player.refused_close() {
        return push_out(text, &out);
    }
    answer_first_close(player, outs, text)
}

/// Plays the first close, and adds its lines.
#[inline(never)]
fn answer_first_close<W: Wheel + Drop>(
    player: &mut Player<W>,
    outs: &mut Vec<Out>,
    text: &mut Vec<u8>,
) -> Result<(), OutOfMemory>
    ensures lines { OnOk result (AddsLines player.old (Event.Close ∷ []) text.old.items text.new.items player.new) }
    ensures kept { HasGrown text.old.items text.new.items }
{
    answer_outs(player, Event::Close, outs, text)
}

/// Plays an event that may have many outs, and adds the line of each.
fn answer_outs<W: Wheel + Drop>(
    player: &mut Player<W>,
    event: Event,
    outs: &mut Vec<Out>,
    text: &mut Vec<u8>,
) -> Result<(), OutOfMemory>
    ensures lines { OnOk result (AddsLines player.old (event ∷ []) text.old.items text.new.items player.new) }
    ensures kept { HasGrown text.old.items text.new.items }
{
    outs.clear();
    player.play_one(event, outs)?;
    push_outs(text, outs)
}

/// Plays each line of a script, and adds the line of each out to the text.
#[tactic(auto, using(crate::proofs::ScriptRunLemmas::playing))]
fn play_lines<W: Wheel + Drop>(
    alloc: Global,
    player: &mut Player<W>,
    script: &[u8],
    text: &mut Vec<u8>,
) -> Result<(), ScriptFault>
    ensures ok { OnOk result (HasPlayedLines player.old script.now text.old.items text.new.items player.new) }
    ensures fault { IfErr result (λ fault. IsFault fault script.now) }
{
    let mut outs = Vec::new(alloc);
    let mut lines = 0u64;
    let mut rest = script;
    while !rest.is_empty() {
        let Some((event, after)) = read_line(rest) else {
            return Err(ScriptFault::Bad { line: lines + 1 });
        };
        play_event(player, &event, &mut outs, text)?;
        lines += 1;
        rest = after;
    }
    Ok(())
}

/// Plays a script on the facility, and returns the text that answers it.
pub fn answer_to<W: Wheel + Drop>(
    alloc: Global,
    script: &[u8],
    facility: Facility<W>,
) -> Result<Vec<u8>, ScriptFault>
    requires pending { facility.state.pending ≡ [] }
    requires waiting { facility.waiting ≡ [] }
    ensures ok { IfOk result (λ answer. IsAnswerTo facility.state script.now answer.items) }
    ensures fault { IfErr result (λ fault. IsFault fault script.now) }
{
    facility.lemma_sound();
    let mut player = Player::open(alloc, facility);
    let mut answer = Vec::with_capacity(alloc, script.len().saturating_mul(GROWTH))?;
    play_lines(alloc, &mut player, script, &mut answer)?;
    let now = player.facility().now();
    let pending = player.facility().pending() as u64;
    push_end(&mut answer, now, pending)?;
    Ok(answer)
}

/// Reads a script to its end, plays it on the facility, and writes the text that answers it.
///
/// Fails with `Read` only if the reader failed in this call, and with `Write` only if the writer
/// did. No error is retried. After `Write` a prefix of the text was written, of that many bytes; after
/// any other fault nothing was. At most one byte more is read than a script may have, and if that
/// many came the run fails with `TooLong`, or out of memory. Neither the reader nor the writer may have
/// failed before, and nothing may be pending in the facility or wait in it.
pub fn run<R: Read, S: Write, W: Wheel + Drop>(
    alloc: Global,
    reader: &mut Watched<R>,
    writer: &mut Watched<S>,
    facility: Facility<W>,
) -> Result<(), RunFault>
    requires reader_good { has_failed reader.old ≡ false }
    requires writer_good { has_failed writer.old ≡ false }
    requires pending { facility.state.pending ≡ [] }
    requires waiting { facility.waiting ≡ [] }
    ensures run { HasRun facility.state (record { remaining = R.remaining; contents = S.contents })
        (record { reader = reader.old; writer = writer.old })
        (record { reader = reader.new; writer = writer.new }) result }
    ensures reader_failed { IsTrue (has_failed reader.new) ↔ IsErrOf result RunFault.Read }
    ensures writer_failed { IsTrue (has_failed writer.new)
        ↔ ((written : ℕ) × IsErrOf result (RunFault.Write written)) }
{
    let bytes = read_script(alloc, reader)?;
    let answer = answer_to(alloc, &bytes, facility)?;
    write_text(writer, &answer)?;
    Ok(())
}
