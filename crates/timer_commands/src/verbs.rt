//! What is done with a facility: play a script, answer lines, or show where their timers are.
//!
//! It is done over any wheel: `schemes` makes the wheel, and hands the facility over.
ghost use Rattle.std.specs.Prelude.{◌≡◌, [], false};
ghost use Rattle.timer_script.specs.Watched.{has_failed};
ghost use Rattle.timer_script.specs.Service.{AreGood, server_with};
ghost use Rattle.timer_commands.specs.Serving.{ServerEnds};
ghost use Rattle.timer_commands.specs.Subcommands.{HasDone, no_memory_of};
ghost use Rattle.timer_commands.specs.Wakeups.{AddsWakeupsIf};

use crate::ending::Ending;
use crate::fault::Fault;
use crate::render::{Placement, push_shown, push_wakeup};
use crate::shows::Shows;
use std::alloc::Global;
use std::io::{Read, Write};
use timer_base::{OutOfMemory, Wheel};
use timer_facility::{Facility, Player};
use timer_script::{
    Decorator, OnBadLine, Peer, RunFault, ServeFault, Streams, Undecorated, Watched, run, serve,
};

/// What is done with a facility.
#[derive(Clone, Copy, Debug, PartialEq, Eq)]
pub enum Verb {
    /// Plays a whole script, and writes its text.
    Play,
    /// Answers lines as they come, and with `wakeups` reports after those of each read when to wake up next.
    Serve { on_bad: OnBadLine, wakeups: bool },
    /// Answers lines as they come, and shows after each where the timers are.
    Show(Shows),
}

impl Verb {
    /// Out of memory, as it is returned by this verb.
    pub fn out_of_memory(&self) -> Fault
        ensures { result ≡ no_memory_of self.now }
    {
        match self {
            Verb::Play => Fault::Run(RunFault::OutOfMemory),
            Verb::Serve { .. } | Verb::Show(_) => Fault::Serve(ServeFault::OutOfMemory),
        }
    }
}

/// Shows where the timers are. At a tick that it covers, an answer is followed by the clock, the counts if they are
/// wanted, and the placement, which `render` draws. If moves are wanted, ticks are played in steps, and those of each
/// follow it.
#[derive(Drop)]
struct Placements {
    shows: Shows,
}

impl<W: Wheel + Placement + Drop> Decorator<W> for Placements {
    ghost use Rattle.timer_commands.specs.Indented.{AddsPictures};
    ghost use Rattle.timer_commands.specs.IndentedLaws.{pictures_are_lawful};

    ghost adds = { λ placements. AddsPictures placements.shows };

    // The pictures for the lines of one read might not fit into memory.
    fn sends_each_line(&self) -> bool {
        true
    }

    fn decorate(
        &self,
        serial: u64,
        text: &mut Vec<u8>,
        facility: &Facility<W>,
    ) -> Result<(), OutOfMemory> {
        if self.shows.covers(facility.now()) {
            push_shown(
                text,
                facility.wheel(),
                self.shows.counts,
                self.shows.after(serial),
            )
        } else {
            Ok(())
        }
    }

    fn decorate_read(
        &self,
        _text: &mut Vec<u8>,
        _facility: &Facility<W>,
    ) -> Result<(), OutOfMemory> {
        Ok(())
    }

    fn shows_steps(&self) -> bool {
        self.shows.moves
    }

    // Of the buckets below this one, none has a timer. So those that have one after the step got it from there.
    fn before_step(&self, facility: &Facility<W>) -> usize {
        facility.wheel().first_bucket()
    }

    fn decorate_step(
        &self,
        before: usize,
        text: &mut Vec<u8>,
        facility: &Facility<W>,
    ) -> Result<(), OutOfMemory> {
        if self.shows.covers(facility.now()) {
            facility
                .wheel()
                .push_moves(text, before, self.shows.of_moves())
        } else {
            Ok(())
        }
    }

    ghost is_lawful = { λ placements. pictures_are_lawful placements.shows };
}

/// Reports when to wake up, once for each read: a tick until which nothing expires, if something is pending. Then the
/// line is `wakeup TICK`, and else `wakeup never`. One is enough: whoever waits for an answer has sent no more lines.
struct Wakeups;

impl<W: Wheel + Drop> Decorator<W> for Wakeups {
    ghost use Rattle.std.specs.Prelude.{◌≡◌, ◌++◌, OnOk};
    ghost use Rattle.timer_script.specs.Decorator.{HasGrown, HasGrownAfterRead, IsNothing, after_is_lawful};
    ghost use Rattle.timer_commands.specs.Wakeups.{AddsWakeups, AddsWakeOf, IsWakeup};

    ghost adds = { λ wakeups. AddsWakeups };

    fn sends_each_line(&self) -> bool {
        false
    }

    fn decorate(
        &self,
        _serial: u64,
        _text: &mut Vec<u8>,
        _facility: &Facility<W>,
    ) -> Result<(), OutOfMemory> {
        Ok(())
    }

    fn decorate_read(&self, text: &mut Vec<u8>, facility: &Facility<W>) -> Result<(), OutOfMemory>
        ensures added { OnOk result (HasGrownAfterRead AddsWakeups facility.now.state text.old.items text.new.items) }
        ensures kept { HasGrown text.old.items text.new.items }
        // The tick is after the present one, and at most the first pending deadline.
        ensures wakeup { OnOk result (AddsWakeOf (W.wakes facility.now.state.layout facility.now.state.now
            facility.now.state.pending) text.old.items text.new.items) }
    {
        push_wakeup(text, facility.quiet_until())
    }

    ghost is_lawful = { λ wakeups. after_is_lawful IsNothing IsWakeup };
}

/// Does it. An error is returned, and not reported. `faults` gets the reports of `serve` alone.
pub fn do_verb<R: Read, S: Write, F: Write, W: Wheel + Placement + Drop>(
    alloc: Global,
    verb: Verb,
    facility: Facility<W>,
    streams: &mut Streams<R, S>,
    faults: &mut Watched<F>,
) -> Result<Ending, Fault>
    requires reader_good { has_failed streams.old.reader ≡ false }
    requires writer_good { has_failed streams.old.writer ≡ false }
    requires pending { facility.state.pending ≡ [] }
    requires waiting { facility.waiting ≡ [] }
    ensures { HasDone verb facility.state
        (record { remaining = R.remaining; contents = S.contents; reports = F.contents })
        (record { streams = streams.old; faults = faults.old })
        (record { streams = streams.new; faults = faults.new }) result }
{
    match verb {
        Verb::Play => match run(alloc, &mut streams.reader, &mut streams.writer, facility) {
            Ok(()) => Ok(Ending::Done),
            Err(fault) => Err(Fault::Run(fault)),
        },
        Verb::Serve { on_bad, wakeups } => {
            let player = Player::open(alloc, facility);
            talk(alloc, player, on_bad, wakeups, streams, faults)
        }
        Verb::Show(shows) => {
            let player = Player::open(alloc, facility);
            let placements = Placements { shows };
            serve_with(alloc, player, &placements, OnBadLine::Stop, streams, faults)
        }
    }
}

/// Answers lines as they come, with wake-ups or without.
pub fn talk<P: Peer, F: Write, W: Wheel + Drop>(
    alloc: Global,
    player: Player<W>,
    on_bad: OnBadLine,
    wakeups: bool,
    peer: &mut P,
    faults: &mut Watched<F>,
) -> Result<Ending, Fault>
    requires { AreGood (P.state peer.old) }
    ensures { ServerEnds (server_with on_bad (AddsWakeupsIf wakeups) player F.contents)
        (record { peer = P.state peer.old; faults = faults.old })
        (record { peer = P.state peer.new; faults = faults.new }) result }
{
    if wakeups {
        serve_with(alloc, player, &Wakeups, on_bad, peer, faults)
    } else {
        serve_with(alloc, player, &Undecorated, on_bad, peer, faults)
    }
}

/// Serves with this decorator.
fn serve_with<P: Peer, F: Write, W: Wheel + Drop, D: Decorator<W>>(
    alloc: Global,
    player: Player<W>,
    decorator: &D,
    on_bad: OnBadLine,
    peer: &mut P,
    faults: &mut Watched<F>,
) -> Result<Ending, Fault>
    requires { AreGood (P.state peer.old) }
    ensures { ServerEnds (server_with on_bad (D.adds decorator.now) player F.contents)
        (record { peer = P.state peer.old; faults = faults.old })
        (record { peer = P.state peer.new; faults = faults.new }) result }
{
    match serve(alloc, peer, player, decorator, on_bad, faults) {
        Ok(true) => Ok(Ending::Done),
        Ok(false) => Ok(Ending::Skipped),
        Err(fault) => Err(Fault::Serve(fault)),
    }
}
