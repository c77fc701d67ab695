//! Plays lists of events.
//!
//! Memory for all that an event can produce is reserved before the event: one out for a request, a handle for one that
//! makes a timer, and one notice for each pending timer. After that only the facility's own call can fail,
//! which then has changed nothing. So an event is played whole or not at all.
ghost use Rattle.std.specs.Prelude.{◌≡◌, ◌<◌, ◌≤◌, ◌⊎◌, ◌+◌, ◌*◌, ◌∷◌, false, [], length, take, IfSome, IfOk, IfErr, OnErr, OnOk, vec_len, vec_capacity};
ghost use Rattle.timer_facility.specs.Played.{IsPlayed, AddsRun, most_outs, TakesMemory};
ghost use Rattle.timer_facility.specs.Handles.{AreRecorded};
ghost use Rattle.timer_facility.specs.State.{FacilityState, IsSound};
ghost use Rattle.timer_facility.specs.Run.{bare_state};
ghost use Rattle.timer_facility.specs.Saved.{lines_read, saved_of, state_lines};
ghost use Rattle.timer_facility.specs.Restored.{IsUnused, limits_of, restored, IsConfigured, GoesOnAs};
ghost use Rattle.timer_facility.specs.declared.saved.Stage.TheVariants as stages;
ghost use Rattle.timer_facility.specs.Types.{SPARE, Timer};

use crate::config::Checked;
use crate::event::{Event, Out, PlayStop};
use crate::facility::Facility;
use crate::handing_out::{hand_out, make_room, pass_ticks};
use crate::handles::Handles;
use crate::request::{CloseFault, Request};
use crate::saved::SavedState;
use std::alloc::Global;
use std::marker::Model;
use timer_base::{Handle, OutOfMemory, Wheel};

mod requests;

/// A facility whose events are played from lists.
///
/// It keeps the handle of each pending timer, so that a stop or a restart can name one by its serial: at
/// most two handles for each pending timer, and 64 more, however long it plays.
#[derive(Drop)]
pub struct Player<W: Wheel + Drop> {
    facility: Facility<W>,
    handles: Handles,
    alloc: Global,
}

impl<W: Wheel + Drop> Model for Player<W> {
    ghost use Rattle.timer_facility.specs.State.{FacilityState};
    ghost use Rattle.timer_facility.specs.Handles.{IsPlayer};

    ghost Value = { FacilityState };

    ghost view = { λ p. p.facility.state };

    ghost invariant = { λ p. IsPlayer p.facility p.handles.list.items };
}

impl<W: Wheel + Drop> Player<W> {
    /// A player of this facility, in which no timer is pending and nothing waits. Does not allocate.
    pub fn open(alloc: Global, facility: Facility<W>) -> Player<W>
        requires pending { facility.state.pending ≡ [] }
        requires waiting { facility.waiting ≡ [] }
        ensures { result ≡ facility.state }
    {
        Player {
            facility,
            handles: Handles::new(alloc),
            alloc,
        }
    }

    /// A player whose state is the one that was read from the lines of a dump, over an empty wheel whose clock is at its
    /// tick. Clients of which the lines say nothing begin at the first number. The only error is out of memory.
    ///
    /// If the lines are those of a facility with as many clients, this capacity and this last tick, the player returns
    /// the same outs for every list of events as that facility would have, except for places.
    pub fn restore(
        alloc: Global,
        checked: Checked,
        wheel: W,
        saved: &SavedState,
    ) -> Result<Player<W>, OutOfMemory>
        requires whole { saved.now.stage ≡ stages.Whole }
        requires unused { IsUnused (W.state wheel) }
        requires now { (W.state wheel).now ≡ saved.now.saved.now }
        requires limits { saved.now.limits ≡ limits_of checked (W.state wheel).last_tick }
        requires keeps { (timer : Timer) → W.keeps timer }
        ensures state { IfOk result (λ player. bare_state player ≡ restored checked (W.state wheel).last_tick saved.now.saved) }
        ensures goes_on { IfOk result (λ player. (s : FacilityState) → IsSound s
            → IsConfigured checked (W.state wheel).last_tick s → lines_read saved.now ≡ state_lines (saved_of s)
            → GoesOnAs s player) }
    {
        let (facility, handles) = Facility::restore(alloc, checked, wheel, saved)?;
        Ok(Player {
            facility,
            handles: Handles::of(handles),
            alloc,
        })
    }

    /// The facility. Nothing waits in it. Does not allocate.
    pub fn facility(&self) -> &Facility<W>
        ensures state { result.now.state ≡ self.now }
        ensures waiting { result.now.waiting ≡ [] }
    {
        &self.facility
    }

    /// The handles that it keeps, in order of starting: those of the pending timers, and some of timers
    /// that are no longer pending. Does not allocate.
    pub fn handles(&self) -> &[Handle]
        ensures recorded { AreRecorded result.now self.now }
        ensures few { length result.now ≤ 2 * length self.now.pending + SPARE }
    {
        self.handles.as_slice()
    }

    /// Plays the events one after another, and returns their outs in order.
    ///
    /// The only error is out of memory. The event at which it stops changed nothing: `play` may be called
    /// again with that event and the rest.
    pub fn play(&mut self, events: &[Event]) -> Result<Vec<Out>, PlayStop>
        ensures played { IfOk result (λ outs. IsPlayed self.old events.now outs.items self.new) }
        ensures within { IfErr result (λ stop. stop.done < length events.now) }
        ensures stopped { IfErr result (λ stop. IsPlayed self.old
            (take stop.done events.now) stop.outs.items self.new) }
    {
        self.facility.lemma_sound();
        let mut outs = Vec::new(self.alloc);
        for (i, event) in events.iter().enumerate() {
            match self.play_one(*event, &mut outs) {
                Ok(()) => {}
                Err(_) => return Err(PlayStop { done: i, outs }),
            }
        }
        Ok(outs)
    }

    /// Plays one event, and appends its outs.
    ///
    /// The only error is out of memory, and then nothing changes: the event may be played again. Memory may run out for
    /// the outs, for a start or a restart that makes a timer, and for a close without a reserve.
    pub fn play_one(&mut self, event: Event, outs: &mut Vec<Out>) -> Result<(), OutOfMemory>
        ensures ok { OnOk result (AddsRun self.old event outs.old.items outs.new.items self.new) }
        ensures state { OnErr result (self.new ≡ self.old) }
        ensures outs { OnErr result (outs.new.items ≡ outs.old.items) }
        ensures memory { OnErr result ((vec_capacity outs.old < vec_len outs.old + most_outs self.old event)
            ⊎ TakesMemory self.old event) }
    {
        match event {
            Event::Start {
                client,
                number,
                interval,
                action,
            } => {
                outs.reserve(1)?;
                let out = self.play_start(client, number, interval, action)?;
                outs.push_reserved(out);
                Ok(())
            }
            Event::StartAt {
                client,
                number,
                deadline,
                action,
            } => self.play_for_a_tick(client, number, Request::StartAt { deadline, action }, outs),
            Event::Stop {
                client,
                number,
                serial,
            } => {
                outs.reserve(1)?;
                let out = self.play_stop(client, number, serial);
                outs.push_reserved(out);
                Ok(())
            }
            Event::Restart {
                client,
                number,
                serial,
                interval,
                action,
            } => {
                outs.reserve(1)?;
                let out = self.play_restart(client, number, serial, interval, action)?;
                outs.push_reserved(out);
                Ok(())
            }
            Event::RestartAt {
                client,
                number,
                serial,
                deadline,
                action,
            } => self.play_restart_at(client, number, serial, deadline, action, outs),
            Event::Ticks { count } => self.play_ticks(count, outs),
            Event::TicksTo { tick } => self.play_ticks_to(tick, outs),
            Event::Close => self.play_close(outs),
            Event::Dump => self.play_dump(outs),
        }
    }

    /// The out of a close, if it is refused: the facility is closed already. Does not allocate.
    #[inline(always)]
    #[tactic(auto, using(crate::proofs::PlayedLemmas::adds_unchanged))]
    pub fn refused_close(&self) -> Option<Out>
        ensures { IfSome result (λ out. AddsRun self.now Event.Close [] (out ∷ []) self.now) }
    {
        if self.facility.is_closed() {
            Some(Out::CloseRefused)
        } else {
            None
        }
    }

    /// Plays the ticks that are left until a tick, up to the first that is refused.
    fn play_ticks_to(&mut self, tick: u64, outs: &mut Vec<Out>) -> Result<(), OutOfMemory>
        ensures ok { OnOk result (AddsRun self.old
            (Event.TicksTo tick) outs.old.items outs.new.items self.new) }
        ensures state { OnErr result (self.new ≡ self.old) }
        ensures outs { OnErr result (outs.new.items ≡ outs.old.items) }
        ensures memory { OnErr result (vec_capacity outs.old < vec_len outs.old + (length self.old.pending + 1)) }
    {
        let left = tick.saturating_sub(self.facility.now());
        self.play_ticks(left, outs)
    }

    /// Plays `count` ticks, up to the first that is refused.
    fn play_ticks(&mut self, count: u64, outs: &mut Vec<Out>) -> Result<(), OutOfMemory>
        ensures ok { OnOk result (AddsRun self.old
            (Event.Ticks count) outs.old.items outs.new.items self.new) }
        ensures state { OnErr result (self.new ≡ self.old) }
        ensures outs { OnErr result (outs.new.items ≡ outs.old.items) }
        ensures memory { OnErr result (vec_capacity outs.old < vec_len outs.old + (length self.old.pending + 1)) }
    {
        make_room(&self.facility, outs)?;
        pass_ticks(&mut self.facility, count, outs);
        self.handles.forget(&self.facility);
        Ok(())
    }

    /// Looks at the state: its outs are the lines of a dump.
    fn play_dump(&self, outs: &mut Vec<Out>) -> Result<(), OutOfMemory>
        ensures ok { OnOk result (AddsRun self.now Event.Dump outs.old.items outs.new.items self.now) }
        ensures outs { OnErr result (outs.new.items ≡ outs.old.items) }
        ensures memory { OnErr result ((vec_capacity outs.old
            < vec_len outs.old + (length self.now.numbers + length self.now.pending + 2))
            ⊎ (0 < length self.now.pending)) }
    {
        self.facility.dump(self.alloc, outs)
    }

    /// Plays the close. The timers that it returns come after its own out.
    fn play_close(&mut self, outs: &mut Vec<Out>) -> Result<(), OutOfMemory>
        ensures ok { OnOk result (AddsRun self.old Event.Close outs.old.items outs.new.items self.new) }
        ensures state { OnErr result (self.new ≡ self.old) }
        ensures outs { OnErr result (outs.new.items ≡ outs.old.items) }
        ensures memory { OnErr result ((vec_capacity outs.old < vec_len outs.old + (length self.old.pending + 1))
            ⊎ (self.old.has_room ≡ false)) }
    {
        make_room(&self.facility, outs)?;
        match self.facility.close() {
            Ok(count) => {
                outs.push_reserved(Out::Closed { count });
                hand_out(&mut self.facility, outs);
                self.handles.forget(&self.facility);
                Ok(())
            }
            Err(CloseFault::Closed) => {
                outs.push_reserved(Out::CloseRefused);
                Ok(())
            }
            Err(CloseFault::OutOfMemory) => Err(OutOfMemory),
        }
    }
}
