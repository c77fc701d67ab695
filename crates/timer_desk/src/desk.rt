//! The owner's desk: one facility, and for each client its line and its backlog.
ghost use Rattle.std.specs.Prelude.{◌≡◌, ◌<◌, ◌≤◌, ◌⊎◌, [], ◌∷◌, length, get_or, true, IfOk, IfErr, OnOk, OnErr, slice_set, vec_len};
ghost use Rattle.timer_facility.specs.State.{IsSound, with_room_made};
ghost use Rattle.timer_facility.specs.Facility.{NoRoomToClose, with_nothing_waiting};
ghost use Rattle.timer_desk.specs.Flush.{FlushesClient};
ghost use Rattle.timer_desk.specs.Member.{IsKept};
ghost use Rattle.timer_desk.specs.Desk.{DeskState, opened_desk, ReturnsArguments, at_rest, clients_of, backlog_at, IsIdle, AllIdle, LeavesAlone, ReportHolds, event_report};

use crate::backlog::Backlog;
use crate::constructor::{MAX_ROOM, MIN_ROOM, OpenFault, empty_backlogs};
use crate::dispatch::hand_out;
use crate::inlet::Inlet;
use crate::report::{Done, Served};
use crate::word::Numbered;
use std::alloc::{AllocError, Global};
use std::marker::Model;
use std::mem;
use timer_base::{OutOfMemory, Wheel};
use timer_facility::{CloseFault, Facility, TickFault};

/// A facility and its clients' lines.
#[derive(Drop)]
pub struct Desk<W: Wheel + Drop, I: Inlet + Drop> {
    pub(crate) facility: Facility<W>,
    pub(crate) inlets: Vec<I>,
    // The backlog of each client, in the order of `inlets`.
    pub(crate) backlogs: Vec<Backlog>,
    pub(crate) alloc: Global,
    // The memory of an earlier report, which the next turn uses.
    pub(crate) kept: Vec<Done>,
}

impl<W: Wheel + Drop, I: Inlet + Drop> Model for Desk<W, I> {
    ghost use Rattle.timer_desk.specs.Desk.{DeskState, IsDesk};

    ghost Value = { DeskState I };

    ghost view = { λ d. record {
      facility = d.facility.state;
      inlets = d.inlets.items;
      backlogs = d.backlogs.items;
    } };

    ghost invariant = { λ d. IsDesk I.kind d.facility d.inlets.items d.backlogs.items };
}

impl<W: Wheel + Drop, I: Inlet + Drop> Desk<W, I> {
    /// Opens a desk over this facility, in which no timer is pending and nothing waits, and these lines,
    /// one for each client. Each outbox has room for `room` words.
    pub fn open(
        alloc: Global,
        facility: Facility<W>,
        inlets: Vec<I>,
        room: usize,
    ) -> Result<Desk<W, I>, OpenFault<W, I>>
        requires pending { facility.state.pending ≡ [] }
        requires waiting { facility.waiting ≡ [] }
        requires clients { vec_len inlets ≡ length facility.state.numbers }
        ensures ok { IfOk result (λ desk. desk ≡ opened_desk facility.state inlets.items room) }
        ensures room { IfOk result (λ _. (MIN_ROOM ≤ room) × (room ≤ MAX_ROOM)) }
        ensures err { IfErr result (ReturnsArguments room facility inlets.items) }
    {
        if room < MIN_ROOM || room > MAX_ROOM {
            return Err(OpenFault::Room(facility, inlets));
        }
        match empty_backlogs(alloc, inlets.len(), room) {
            Ok(backlogs) => Ok(Desk {
                facility,
                inlets,
                backlogs,
                alloc,
                kept: Vec::new(alloc),
            }),
            Err(_) => Err(OpenFault::OutOfMemory(facility, inlets)),
        }
    }

    /// The facility, in which nothing waits. Does not allocate.
    pub fn facility(&self) -> &Facility<W>
        ensures { result.now ≡ with_nothing_waiting self.now.facility }
    {
        &self.facility
    }

    /// The invariant of every desk: each client of the facility has its line and its backlog, whose outbox has room
    /// for a notice of each of its pending timers; and a held request is the last one that was taken. The call does
    /// nothing.
    pub fn lemma_invariant(&self)
        ensures kept { IsKept I.kind (at_rest self.now) }
        ensures sound { IsSound self.now.facility }
        ensures clients { clients_of self.now ≡ length self.now.facility.numbers }
    {
        self.facility.lemma_sound();
    }

    /// The number of clients. Does not allocate.
    pub fn clients(&self) -> usize
        ensures { result ≡ clients_of self.now }
    {
        self.inlets.len()
    }

    /// Makes room for as many timers as the facility may hold, as `Facility::reserve` does. The only error is out of
    /// memory, and then nothing changes. After it no close runs out of memory, and no serve over lines that don't
    /// allocate.
    pub fn reserve(&mut self) -> Result<(), OutOfMemory>
        ensures ok { OnOk result (self.new ≡ record self.old { facility = with_room_made self.old.facility }) }
        ensures err { OnErr result (self.new ≡ self.old) }
    {
        self.facility.reserve()
    }

    /// The number of words in the outbox of client c. Does not allocate.
    pub fn outbox_len(&self, c: usize) -> usize
        requires { c < clients_of self.now }
        ensures { result ≡ length (backlog_at self.now c).outbox }
    {
        self.backlogs[c].len()
    }

    /// The held request of client c: it ran out of memory, and is retried. Does not allocate.
    pub fn held(&self, c: usize) -> Option<Numbered>
        requires { c < clients_of self.now }
        ensures { result ≡ (backlog_at self.now c).held }
    {
        self.backlogs[c].held()
    }

    /// Serves client c once: takes the held request, or else the next one of its line, to the facility,
    /// and pushes the word for it to the back of the client's outbox. If a timer is due with it, its notice is
    /// pushed next.
    ///
    /// `NoRoom` is tested first, and then nothing was taken. The facility allocates only for a start
    /// that it accepts.
    #[inline(always)]
    pub fn serve(&mut self, c: usize) -> Served
        requires { c < clients_of self.old }
        ensures report { ReportHolds I.kind (event_report self.old.facility (Done.Served c result)) self.old self.new }
        ensures alone { LeavesAlone I.kind result self.old self.new }
    {
        let served = self.backlogs[c].serve(&mut self.inlets[c], &mut self.facility, c);
        hand_out(&mut self.facility, &mut self.backlogs);
        served
    }

    /// Moves words from client c's outbox into its line until none is left or the line does not take one,
    /// and returns how many it moved. Does not allocate unless the line does.
    pub fn flush(&mut self, c: usize) -> usize
        requires { c < clients_of self.old }
        ensures report { ReportHolds I.kind (Done.Flushed c result ∷ []) self.old self.new }
        ensures flushes { FlushesClient I.kind c result self.old self.new }
        ensures stopped { (i : I) → ((backlog_at self.new c).outbox ≡ [])
            ⊎ (I.kind.is_full (get_or self.new.inlets c i) ⊎ (I.kind.put_may_refuse ≡ true)) }
    {
        self.backlogs[c].flush(&mut self.inlets[c])
    }

    /// Advances the clock by one tick, and pushes each notice to the back of its client's outbox. Does
    /// not allocate.
    ///
    /// A refusal changes nothing.
    pub fn tick(&mut self) -> Result<(), TickFault>
        ensures report { ReportHolds I.kind (event_report self.old.facility (Done.Ticked result)) self.old self.new }
        ensures err { OnErr result (self.new ≡ self.old) }
    {
        let result = self.facility.tick();
        hand_out(&mut self.facility, &mut self.backlogs);
        result
    }

    /// Passes at least one and at most `limit` ticks, ends at the first that hands out something, and returns
    /// how many. Pushes each notice to the back of its client's outbox. Does not allocate.
    ///
    /// A refusal changes nothing.
    pub fn ticks(&mut self, limit: u64) -> Result<u64, TickFault>
        requires { 0 < limit }
        ensures report { let passed = Done.Passed limit result in
            ReportHolds I.kind (event_report self.old.facility passed) self.old self.new }
        ensures err { OnErr result (self.new ≡ self.old) }
    {
        let result = self.facility.ticks(limit);
        hand_out(&mut self.facility, &mut self.backlogs);
        result
    }

    /// Closes the facility, pushes each notice to the back of its client's outbox, and returns how many
    /// timers are returned.
    ///
    /// A refusal changes nothing: after `OutOfMemory`, which a closed facility never returns, it may be repeated.
    /// After a `reserve` that returned Ok, it is never out of memory.
    pub fn close(&mut self) -> Result<u64, CloseFault>
        ensures report { ReportHolds I.kind (event_report self.old.facility (Done.Closed result)) self.old self.new }
        ensures room { IfErr result (NoRoomToClose self.old.facility) }
        ensures err { OnErr result (self.new ≡ self.old) }
    {
        let result = self.facility.close();
        hand_out(&mut self.facility, &mut self.backlogs);
        result
    }

    /// Gives client c another line, and returns the one that it had. Nothing may be held of the client, and its
    /// outbox must be empty. Its timers stay pending, and its request numbers go on. Does not allocate.
    pub fn replace_line(&mut self, c: usize, inlet: I) -> I
        requires client { c < clients_of self.old }
        requires idle { IsIdle (backlog_at self.old c) }
        ensures desk { self.new ≡ record self.old { inlets = slice_set self.old.inlets c inlet } }
        ensures old { (i : I) → result ≡ get_or self.old.inlets c i }
    {
        mem::replace(&mut self.inlets[c], inlet)
    }

    /// Gives back the facility and the lines, unchanged. Nothing may be held, and all outboxes must be empty.
    /// Does not allocate.
    pub fn end(self) -> (Facility<W>, Vec<I>)
        requires { AllIdle self }
        ensures facility { result.0 ≡ with_nothing_waiting self.facility }
        ensures inlets { result.1.items ≡ self.inlets }
    {
        let Desk {
            facility,
            inlets,
            backlogs: _,
            alloc: _,
            kept: _,
        } = self;
        (facility, inlets)
    }
}
