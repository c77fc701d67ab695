//! Serves a peer: each line is answered as soon as it is whole.
//!
//! A turn reads once, plays the lines that came, and writes and flushes their answers. So whenever more
//! is read, each good line that came whole has been answered. A decorator may add text after an answer, and after those
//! of a turn. A cutter makes events of the bytes: a bad line ends the stream, or is reported to a second writer. Between
//! two turns a peer that wants the state is told it.
ghost use Rattle.std.specs.Prelude.{◌≡◌, ◌∷◌, [], List, true, false, IfErr, OnErr, OnOk};
ghost use Rattle.std.specs.Io.KnownBytes.{IsAtEnd};
ghost use Rattle.timer_script.specs.Types.{Event, OnBadLine};
ghost use Rattle.timer_facility.specs.State.{FacilityState, IsSound};
ghost use Rattle.timer_script.specs.Decorator.{HasGrownByAnswer, EndsRead};
ghost use Rattle.timer_script.specs.SavedText.{dump_text};
ghost use Rattle.timer_script.specs.Service.{AreGood, HasSentText, HasSentPart, HasAnsweredEvents, HasAnsweredRead, HasAnsweredPart, GrowsBy, HasSentBut, StopsTurn, HasTold, StopsTelling, Sides, HasServedSoFar, HasServedPeer, server_with};

use crate::cutter::{Cutter, OnBadLine};
use crate::decorator::Decorator;
use crate::fault::{ServeFault, TurnFault};
use crate::input::zeroed_buffer;
use crate::peer::Peer;
use crate::session::Session;
use crate::steps::{play_steps, play_steps_to};
use crate::watched::Watched;
use std::alloc::Global;
use std::io::Write;
use timer_base::{OutOfMemory, Wheel};
use timer_facility::{Event, Player};

/// The most bytes of one turn. The events of all its lines are in memory together.
pub const PIECE: usize = 16384;

/// Writes the text and nothing else, and flushes. Fails if a write or the flush fails, or a write
/// takes no byte.
fn send<P: Peer>(peer: &mut P, text: &[u8]) -> Result<(), TurnFault>
    requires { (P.state peer.old).write_failed ≡ false }
    ensures ok { OnOk result (HasSentText (P.state peer.old) text.now (P.state peer.new)) }
    ensures fault { IfErr result (λ fault. fault ≡ TurnFault.Write) }
    ensures part { OnErr result (HasSentPart (P.state peer.old) text.now (P.state peer.new)) }
{
    let mut written = 0;
    while written < text.len() {
        let Ok(n) = peer.write(&text[written..]) else {
            return Err(TurnFault::Write);
        };
        if n == 0 {
            return Err(TurnFault::Write);
        }
        written += n;
    }
    match peer.flush() {
        Ok(()) => Ok(()),
        Err(_) => Err(TurnFault::Write),
    }
}

/// Plays an event, and appends its answer. Ticks are played in steps if the decorator shows these. If memory runs
/// out, the text is unchanged.
#[tactic(auto, using(crate::proofs::StepLemmas::kept_answer))]
fn play<W: Wheel + Drop, D: Decorator<W>>(
    session: &mut Session<W>,
    decorator: &D,
    event: &Event,
    text: &mut Vec<u8>,
) -> Result<(), OutOfMemory>
    ensures whole { OnOk result (HasGrownByAnswer (D.adds decorator.now) session.old.player (event.now ∷ []) session.new.player
        text.old.items text.new.items) }
    ensures nothing { OnErr result (text.new.items ≡ text.old.items) }
{
    if decorator.shows_steps() {
        match *event {
            Event::Ticks { count } => return play_steps(session, decorator, count, text),
            Event::TicksTo { tick } => return play_steps_to(session, decorator, tick, text),
            _ => {}
        }
    }
    session.play_one(event, text)
}

/// Plays an event, and appends its answer and what is added to it. If memory runs out, at most the answer is appended.
fn answer_one<W: Wheel + Drop, D: Decorator<W>>(
    session: &mut Session<W>,
    decorator: &D,
    event: &Event,
    text: &mut Vec<u8>,
) -> Result<(), OutOfMemory>
    ensures whole { OnOk result (GrowsBy (HasAnsweredEvents (D.adds decorator.now) session.old.player (event.now ∷ []) session.new.player)
        text.old.items text.new.items) }
    ensures part { OnErr result ((later : List Event) → GrowsBy (HasAnsweredPart (D.adds decorator.now) session.old.player
        (event.now ∷ later)) text.old.items text.new.items) }
{
    let serial = session.player.facility().next_serial();
    play(session, decorator, event, text)?;
    let answered = text.len();
    match decorator.decorate(serial, text, session.player.facility()) {
        Ok(()) => Ok(()),
        Err(_) => {
            // Out of memory: the answer is written all the same.
            text.truncate(answered);
            Err(OutOfMemory)
        }
    }
}

/// Appends what comes after a read of these events, which were played. If memory runs out, the text is unchanged.
fn end_read<W: Wheel + Drop, D: Decorator<W>>(
    session: &Session<W>,
    decorator: &D,
    events: &[Event],
    text: &mut Vec<u8>,
) -> Result<(), OutOfMemory>
    ensures whole { OnOk result (GrowsBy (EndsRead (D.adds decorator.now) events.now session.now.player) text.old.items text.new.items) }
    ensures nothing { OnErr result (text.new.items ≡ text.old.items) }
{
    if events.is_empty() {
        return Ok(());
    }
    let answers = text.len();
    match decorator.decorate_read(text, session.player.facility()) {
        Ok(()) => Ok(()),
        Err(_) => {
            // Out of memory: the answers are written all the same.
            text.truncate(answers);
            Err(OutOfMemory)
        }
    }
}

/// Plays the events of one read, and writes and flushes the answers, what is added after each, and what comes after the
/// read: at once, or one by one if the decorator asks for that. If memory runs out, what is answered is written all
/// the same.
fn serve_events<P: Peer, W: Wheel + Drop, D: Decorator<W>>(
    session: &mut Session<W>,
    peer: &mut P,
    decorator: &D,
    events: &[Event],
    text: &mut Vec<u8>,
) -> Result<(), TurnFault>
    requires { AreGood (P.state peer.old) }
    ensures served { OnOk result (HasSentBut (HasAnsweredRead (D.adds decorator.now) session.old.player events.now session.new.player) []
        true (P.state peer.old) (P.state peer.new)) }
    ensures good { OnOk result (AreGood (P.state peer.new)) }
    ensures fault { IfErr result (λ fault. StopsTurn (D.adds decorator.now) fault events.now session.old.player
        (P.state peer.old) (P.state peer.new)) }
{
    let each_line = decorator.sends_each_line();
    text.clear();
    for event in events {
        let Ok(()) = answer_one(session, decorator, event, text) else {
            send(peer, text)?;
            return Err(TurnFault::OutOfMemory);
        };
        if !each_line {
            continue;
        }
        send(peer, text)?;
        text.clear();
    }
    let Ok(()) = end_read(session, decorator, events, text) else {
        send(peer, text)?;
        return Err(TurnFault::OutOfMemory);
    };
    send(peer, text)?;
    Ok(())
}

/// Tells the peer the state, if it wants it. The errors are `Read`, if the peer fails, and out of memory.
fn tell_state<P: Peer, W: Wheel + Drop>(
    alloc: Global,
    session: &mut Session<W>,
    peer: &mut P,
    text: &mut Vec<u8>,
) -> Result<(), ServeFault>
    requires { AreGood (P.state peer.old) }
    ensures player { session.new.player ≡ session.old.player }
    ensures told { OnOk result (HasTold (dump_text session.old.player) (P.state peer.old) (P.state peer.new)) }
    ensures good { OnOk result (AreGood (P.state peer.new)) }
    ensures fault { IfErr result (λ fault. StopsTelling fault (dump_text session.old.player)
        (P.state peer.old) (P.state peer.new)) }
{
    if !peer.wants_state() {
        return Ok(());
    }
    text.clear();
    let Ok(()) = session.write_state(alloc, text) else {
        return Err(ServeFault::OutOfMemory);
    };
    match peer.keep_state(text) {
        Ok(()) => Ok(()),
        Err(_) => Err(ServeFault::Read),
    }
}

/// The stream ended: writes and flushes the end line, unless a line that has not ended is bad.
fn end_stream<P: Peer, W: Wheel + Drop, D: Decorator<W>, F: Write>(
    session: &Session<W>,
    peer: &mut P,
    _decorator: &D,
    cutter: &mut Cutter,
    faults: &mut Watched<F>,
    text: &mut Vec<u8>,
) -> Result<bool, ServeFault>
    requires good { AreGood (P.state peer.old) }
    requires ended { IsAtEnd (P.state peer.old).remaining }
    ensures { (on_bad : OnBadLine) (before : FacilityState) (start : Sides F) → IsSound before
        → HasServedSoFar (server_with on_bad (D.adds _decorator.now) before F.contents) cutter.old start
        (record { peer = P.state peer.old; faults = faults.old }) session.now.player
        → HasServedPeer (server_with on_bad (D.adds _decorator.now) before F.contents) start
        (record { peer = P.state peer.new; faults = faults.new }) result }
{
    let Ok(bad) = cutter.end(faults) else {
        return Err(ServeFault::OutOfMemory);
    };
    match bad {
        Some(line) => Err(ServeFault::Bad { line }),
        None => {
            text.clear();
            let Ok(()) = session.write_end(text) else {
                return Err(ServeFault::OutOfMemory);
            };
            send(peer, text)?;
            Ok(cutter.clean)
        }
    }
}

/// Answers each line as soon as it is whole, until the peer's end, and then writes the end line. Returns
/// whether no line was bad.
///
/// The text is the one that `run` writes for the same input, which may have any length here, with what the
/// decorator adds after the answers, and after the lines of each read. Before each read every whole line that came has been answered, and the
/// answers flushed. So it has when the peer is told the state, which is that after these lines.
///
/// With `OnBadLine::Stop` a bad line ends it as an error, and nothing is written to `faults`. With `Report`
/// what is written to the peer is the answer to the good lines alone, and a bad line is reported to `faults` by
/// its number, counted from 1 over all lines (2^64 - 1 stands for any later one), with a column and a reason that
/// `check` may give. The reports of one read are written before its answers: no clause says so. An error in reporting
/// is ignored, and ends the reports.
///
/// The peer may not have failed before. What is pending in the player's facility goes on.
pub fn serve<P: Peer, W: Wheel + Drop, D: Decorator<W>, F: Write>(
    alloc: Global,
    peer: &mut P,
    player: Player<W>,
    decorator: &D,
    on_bad: OnBadLine,
    faults: &mut Watched<F>,
) -> Result<bool, ServeFault>
    requires good { AreGood (P.state peer.old) }
    ensures { HasServedPeer (server_with on_bad (D.adds decorator.now) player F.contents)
        (record { peer = P.state peer.old; faults = faults.old })
        (record { peer = P.state peer.new; faults = faults.new }) result }
{
    player.facility().lemma_sound();
    let Ok(mut piece) = zeroed_buffer(alloc, PIECE) else {
        return Err(ServeFault::OutOfMemory);
    };
    let mut text = Vec::new(alloc);
    let mut session = Session::new(alloc, player);
    let mut cutter = Cutter::new(alloc, on_bad);
    for turned in 0..u64::MAX {
        tell_state(alloc, &mut session, peer, &mut text)?;
        let Ok(n) = peer.read(&mut piece) else {
            return Err(ServeFault::Read);
        };
        let Ok(bad) = cutter.take_in(&piece[..n], faults) else {
            return Err(ServeFault::OutOfMemory);
        };
        serve_events(&mut session, peer, decorator, &cutter.events, &mut text)?;
        if let Some(line) = bad {
            return Err(ServeFault::Bad { line });
        }
        if n == 0 {
            return end_stream(&session, peer, decorator, &mut cutter, faults, &mut text);
        }
    }
    Err(ServeFault::TooLong)
}
