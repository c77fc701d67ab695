//! A peer whose lines are in a journal, on the disk, before a server is given them.
//!
//!     server <-- lines -- JournaledPeer <-- bytes -- peer
//!            -- text -->    |     ^     -- text -->
//!                         append  | recovered lines
//!                           v     |
//!                           journal
//!
//! First the server is given the lines that were recovered. Its answers were written before the crash, so they are
//! swallowed. At the next read the peer is told how much was recovered, and the answers that it has not seen.
//! From then on what the server writes goes to the peer, and each read adds a group of whole lines to the journal.
//! After so many lines the journal begins anew with the state (`snapshot`).
ghost use Rattle.std.specs.Prelude.{◌≡◌, ◌≤◌, ◌<◌, ◌+◌, ◌-◌, ◌++◌, ◌∷◌, ℕ, [], List, true, false, length, take, drop, is_ok, OnOk, IfErr, Some, None, IsSome};
ghost use Rattle.std.specs.Io.KnownBytes.{prepend_known, Keeps, IsAtEnd};
ghost use Rattle.std.proofs.Props.{props};
ghost use Rattle.std.specs.Coded.{Π_prop};
ghost use Rattle.timer_script.specs.Script.{HasNoFeed};
ghost use Rattle.timer_script.specs.Peer.{Gives, Takes, Flushes, KeepsState};
ghost use Rattle.timer_script.specs.Service.{came_of, gone_of};
ghost use Rattle.timer_journal.specs.Device.{LeavesOnly};
ghost use Rattle.timer_journal.specs.Format.{groups_of};
ghost use Rattle.timer_journal.specs.Journal.{IsBeforeOrAfter, IsBeforeOrAnew, text_of};
ghost use Rattle.timer_durable.specs.Answers.{answers_in, counted as counted_on, answered, begun_in, unseen_of, greeting_of, IsSeenWithin};
ghost use Rattle.timer_durable.specs.Beginning.{preamble_of, IsCounted};
ghost use Rattle.timer_durable.specs.Durable.{AtFirst, origin_of, state_over, came_since, last_told, totals_of, IsCounting, IsWanted, IsReplaying, HasReplayed, HasGreeted, IsAtEnd-prop, HasNoFeed-prop, IsReplaying-prop, HasReplayed-prop};

mod answering;
mod fetching;
mod giving;
mod snapshot;

use crate::beginning::{Beginning, Kept};
use crate::calls::{Calls, First};
use crate::fault::KeepFault;
use crate::pieces::send;
use crate::replay::{counted, greeting};
use std::alloc::Global;
use std::io;
use timer_journal::{Device, Journal};
use timer_script::Peer;

/// How a journal is kept, and what its caller has seen.
#[derive(Drop)]
pub struct Keeping {
    /// The options of the server, as the first line of the journal says them.
    pub options: Vec<u8>,
    /// After so many lines the journal begins anew with the state.
    pub every: Option<u64>,
    /// The caller has seen so many answers, if it says how many.
    pub seen: Option<u64>,
}

/// A peer and its journal.
#[derive(Drop)]
pub struct JournaledPeer<P: Peer, D: Device + Drop> {
    peer: P,
    journal: Journal<D>,
    alloc: Global,
    keeping: Keeping,
    /// What there was before the lines that were recovered, before the journal's beginning, and so far.
    start: Beginning,
    beginning: Beginning,
    so_far: Beginning,
    /// Lines that the journal keeps. The server was given so many bytes of them.
    lines: Vec<u8>,
    given: usize,
    /// What came behind the last line feed. At the end of the stream the server is given it too.
    front: Vec<u8>,
    told: usize,
    has_ended: bool,
    /// The lines that were recovered are played.
    is_live: bool,
    /// The answers to them that the caller has not seen.
    unseen: Vec<u8>,
    /// The first byte of the line that the server is writing, if its end has not come.
    begun: Option<u8>,
    calls: Calls,
    /// The states that the journal began with.
    states: Calls,
    first: First,
    /// The calls before the peer was told what was recovered, and those that told it.
    recovered: Calls,
    greeted: Calls,
    read_failed: bool,
    write_failed: bool,
    fault: Option<KeepFault>,
    ghost given_in: { given ≤ length lines.items },
    ghost told_in: { told ≤ length front.items },
    ghost untold: { has_ended ≡ false → told ≡ 0 },
    ghost ended: { has_ended ≡ true → IsAtEnd (P.state peer).remaining } by { Π_prop (λ _. IsAtEnd-prop (P.state peer).remaining) },
    ghost unended: { has_ended ≡ true → HasNoFeed front.items } by { Π_prop (λ _. HasNoFeed-prop front.items) },
    ghost ended_alive: { has_ended ≡ true → journal.is_dead ≡ false },
    /// Once the journal has failed, nothing is to be given.
    ghost dead: { journal.is_dead ≡ true → drop given lines.items ≡ [] } by { Prim.hlevel props },
    /// The journal says its options, what came before its beginning and the state there. Behind that are the lines that
    /// came since, and those that are to be given, but for a last line without its end.
    ghost kept: { journal.is_dead ≡ false → text_of (D.seen journal.device) ++ take told front.items
        ≡ preamble_of keeping.options.items beginning (last_told states.so_far)
        ++ (came_since calls.so_far ++ drop given lines.items) } by { Prim.hlevel props },
    /// Once the lines that were recovered are played, counts are kept for snapshots alone.
    ghost lines_are: { IsCounting is_live keeping.every → so_far.lines ≡ counted_on start.lines (came_of calls.so_far ++ drop given lines.items) },
    ghost answers_are: { IsCounting is_live keeping.every → so_far.answers ≡ answered start.answers (gone_of calls.so_far) },
    ghost begun_is: { IsCounting is_live keeping.every → begun ≡ begun_in (gone_of calls.so_far) } by { Prim.hlevel props },
    ghost early: { is_live ≡ false → IsReplaying (origin_of start keeping.seen first.at) (P.state peer).contents calls.so_far
        (drop given lines.items) has_ended (gone_of greeted.so_far) } by { Π_prop (λ _. IsReplaying-prop _ _ _ _ _ _) },
    ghost live: { is_live ≡ true → HasReplayed (origin_of start keeping.seen first.at) (P.state peer).contents calls.so_far
        recovered.so_far (gone_of greeted.so_far) read_failed } by { Π_prop (λ _. HasReplayed-prop _ _ _ _ _ _) },
    ghost swallowed: { is_live ≡ false → unseen.items ≡ unseen_of start.answers keeping.seen (gone_of calls.so_far) } by { Prim.hlevel props },
}

impl<P: Peer, D: Device + Drop> JournaledPeer<P, D> {
    /// Over a journal that was opened, with what it keeps.
    pub fn new(
        alloc: Global,
        peer: P,
        journal: Journal<D>,
        kept: Kept,
        keeping: Keeping,
    ) -> JournaledPeer<P, D>
        ghost at: { AtFirst }
        requires at { at ≡ record { contents = (P.state peer).contents; lines = kept.lines.items } }
        requires alive { journal.is_dead ≡ false }
        requires counted { IsCounted kept.beginning }
        requires kept { text_of (D.seen journal.device)
            ≡ preamble_of keeping.options.items kept.beginning kept.state.items ++ kept.lines.items }
        ensures state { ⟦<JournaledPeer<P, D> as Peer>⟧.state result ≡ state_over kept.lines.items [] (P.state peer) [] false false
            (origin_of kept.beginning keeping.seen at) }
        ensures peer { result.peer ≡ peer }
        ensures journal { result.journal ≡ journal }
        ensures keeping { result.keeping ≡ keeping }
        ensures start { (result.start ≡ kept.beginning) × (result.beginning ≡ kept.beginning) }
        ensures early { result.is_live ≡ false }
    {
        let Kept {
            beginning,
            state,
            lines,
        } = kept;
        let mut states = Calls::new();
        states.told(&state);
        let so_far = Beginning {
            lines: counted(beginning.lines, &lines),
            answers: beginning.answers,
        };
        let first = First::new();
        JournaledPeer {
            peer,
            journal,
            alloc,
            keeping,
            start: beginning,
            beginning,
            so_far,
            lines,
            given: 0,
            front: Vec::new(alloc),
            told: 0,
            has_ended: false,
            is_live: false,
            unseen: Vec::new(alloc),
            begun: None,
            calls: Calls::new(),
            states,
            first,
            recovered: Calls::new(),
            greeted: Calls::new(),
            read_failed: false,
            write_failed: false,
            fault: None,
        }
    }

    /// Why it failed, if that was not a write to the peer.
    pub fn fault(&self) -> Option<KeepFault>
        ensures { result ≡ self.now.fault }
    {
        self.fault
    }

    /// Gives the peer and the journal back.
    pub fn into_parts(self) -> (P, Journal<D>)
        ensures peer { result.0 ≡ self.peer }
        ensures journal { result.1 ≡ self.journal }
    {
        (self.peer, self.journal)
    }

    /// Tells the peer what was recovered, and the answers that it has not seen, unless that was done. From then on it is
    /// written to.
    fn greet(&mut self) -> Result<(), KeepFault>
        requires given { drop self.old.given self.old.lines.items ≡ [] }
        ensures greeted { HasGreeted (P.state self.old.peer).contents (P.state self.new.peer).contents self.old.is_live self.new.is_live
            (is_ok result) (greeting_of self.old.start self.old.keeping.seen (came_of self.old.calls.so_far) (gone_of self.old.calls.so_far)) }
        // It is told only if the answers that it has seen are among those that there were.
        ensures seen { self.old.is_live ≡ false → self.new.is_live ≡ true → IsSeenWithin self.old.keeping.seen self.old.start.answers
            (self.old.start.answers + answers_in (gone_of self.old.calls.so_far)) }
        ensures live { OnOk result (self.new.is_live ≡ true) }
        ensures reading { OnOk result (self.new.read_failed ≡ self.old.read_failed) }
        ensures remaining { (P.state self.new.peer).remaining ≡ (P.state self.old.peer).remaining }
        ensures same { (self.new.journal ≡ self.old.journal) × (self.new.lines ≡ self.old.lines) × (self.new.given ≡ self.old.given)
            × (self.new.front ≡ self.old.front) × (self.new.told ≡ self.old.told) × (self.new.has_ended ≡ self.old.has_ended)
            × (self.new.keeping ≡ self.old.keeping) × (self.new.start ≡ self.old.start) × (self.new.beginning ≡ self.old.beginning)
            × (self.new.calls ≡ self.old.calls) × (self.new.first ≡ self.old.first)
            × (self.new.write_failed ≡ self.old.write_failed) }
    {
        if self.is_live {
            return Ok(());
        }
        let before = self.start.answers;
        let text = greeting(
            self.alloc,
            self.so_far,
            before,
            self.keeping.seen,
            &self.unseen,
        )?;
        self.recovered = self.calls.copied();
        self.is_live = true;
        match send(&mut self.peer, &text, &mut self.greeted) {
            Ok(()) => Ok(()),
            Err(fault) => {
                self.read_failed = true;
                Err(fault)
            }
        }
    }

    /// Sees to it that there is something to give, unless the stream is at its end.
    fn prepare(&mut self, piece: &mut [u8]) -> Result<(), KeepFault>
        ensures bytes { Keeps
            (prepend_known (drop self.old.given self.old.lines.items ++ drop self.old.told self.old.front.items) (P.state self.old.peer).remaining)
            (prepend_known (drop self.new.given self.new.lines.items ++ drop self.new.told self.new.front.items) (P.state self.new.peer).remaining) }
        ensures ready { OnOk result (0 < length piece.old → drop self.new.given self.new.lines.items ≡ [] → self.new.has_ended ≡ true) }
        ensures greeted { HasGreeted (P.state self.old.peer).contents (P.state self.new.peer).contents self.old.is_live self.new.is_live
            (is_ok result) (greeting_of self.old.start self.old.keeping.seen (came_of self.old.calls.so_far) (gone_of self.old.calls.so_far)) }
        // It is told only if the answers that it has seen are among those that there were.
        ensures seen { self.old.is_live ≡ false → self.new.is_live ≡ true → IsSeenWithin self.old.keeping.seen self.old.start.answers
            (self.old.start.answers + answers_in (gone_of self.old.calls.so_far)) }
        ensures same { (self.new.keeping ≡ self.old.keeping) × (self.new.start ≡ self.old.start) × (self.new.beginning ≡ self.old.beginning)
            × (self.new.calls ≡ self.old.calls) × (self.new.first ≡ self.old.first)
            × (self.new.write_failed ≡ self.old.write_failed) }
        ensures reading { OnOk result (self.new.read_failed ≡ self.old.read_failed) }
        ensures crash { self.old.journal.is_dead ≡ false → (lines : List ℕ) × LeavesOnly D.moment D.left_since
            self.old.journal.device self.new.journal.device (IsBeforeOrAfter (groups_of (D.seen self.old.journal.device)) lines) }
    {
        if piece.is_empty() {
            return Ok(());
        }
        if self.given < self.lines.len() {
            return Ok(());
        }
        if self.has_ended {
            return Ok(());
        }
        self.greet()?;
        self.fetch(piece)
    }
}

impl<P: Peer, D: Device + Drop> Peer for JournaledPeer<P, D> {
    ghost state = { λ j. state_over (drop j.given j.lines.items) (drop j.told j.front.items) (P.state j.peer) j.calls.so_far
        j.read_failed j.write_failed (origin_of j.start j.keeping.seen j.first.at) };

    fn read(&mut self, piece: &mut [u8]) -> io::Result<usize>
        ensures gives { Gives (state_over (drop self.old.given self.old.lines.items) (drop self.old.told self.old.front.items) (P.state self.old.peer)
            self.old.calls.so_far self.old.read_failed self.old.write_failed
            (origin_of self.old.start self.old.keeping.seen self.old.first.at))
            result piece.new
            (state_over (drop self.new.given self.new.lines.items) (drop self.new.told self.new.front.items) (P.state self.new.peer)
            self.new.calls.so_far self.new.read_failed self.new.write_failed
            (origin_of self.new.start self.new.keeping.seen self.new.first.at)) }
        // The journal has a group more, or not. A crash at any moment leaves it with the group or without.
        ensures crash { self.old.journal.is_dead ≡ false → (lines : List ℕ) × LeavesOnly D.moment D.left_since
            self.old.journal.device self.new.journal.device (IsBeforeOrAfter (groups_of (D.seen self.old.journal.device)) lines) }
        // The peer is told what was recovered, once all of it is played.
        ensures greeted { HasGreeted (P.state self.old.peer).contents (P.state self.new.peer).contents self.old.is_live self.new.is_live
            (is_ok result) (greeting_of self.old.start self.old.keeping.seen (came_of self.old.calls.so_far) (gone_of self.old.calls.so_far)) }
        // It is told only if the answers that it has seen are among those that there were.
        ensures seen { self.old.is_live ≡ false → self.new.is_live ≡ true → IsSeenWithin self.old.keeping.seen self.old.start.answers
            (self.old.start.answers + answers_in (gone_of self.old.calls.so_far)) }
    {
        match self.prepare(piece) {
            Ok(()) => Ok(self.give(piece)),
            Err(fault) => {
                self.fault = Some(fault);
                self.read_failed = true;
                self.calls.came(&[]);
                Err(io::ErrorKind::Other.into())
            }
        }
    }

    fn write(&mut self, piece: &[u8]) -> io::Result<usize>
        ensures takes { Takes (state_over (drop self.old.given self.old.lines.items) (drop self.old.told self.old.front.items) (P.state self.old.peer)
            self.old.calls.so_far self.old.read_failed self.old.write_failed
            (origin_of self.old.start self.old.keeping.seen self.old.first.at))
            result piece.now
            (state_over (drop self.new.given self.new.lines.items) (drop self.new.told self.new.front.items) (P.state self.new.peer)
            self.new.calls.so_far self.new.read_failed self.new.write_failed
            (origin_of self.new.start self.new.keeping.seen self.new.first.at)) }
        ensures live { self.old.is_live ≡ true → Takes (P.state self.old.peer) result piece.now (P.state self.new.peer) }
        ensures swallowed { self.old.is_live ≡ false → self.new.peer ≡ self.old.peer }
        ensures same { (self.new.journal ≡ self.old.journal) × (self.new.is_live ≡ self.old.is_live) }
    {
        if self.is_live {
            self.write_on(piece)
        } else {
            self.swallow(piece)
        }
    }

    fn flush(&mut self) -> io::Result<()>
        ensures flushes { Flushes
            (state_over (drop self.old.given self.old.lines.items) (drop self.old.told self.old.front.items) (P.state self.old.peer)
            self.old.calls.so_far self.old.read_failed self.old.write_failed
            (origin_of self.old.start self.old.keeping.seen self.old.first.at))
            result
            (state_over (drop self.new.given self.new.lines.items) (drop self.new.told self.new.front.items) (P.state self.new.peer)
            self.new.calls.so_far self.new.read_failed self.new.write_failed
            (origin_of self.new.start self.new.keeping.seen self.new.first.at)) }
        ensures live { self.old.is_live ≡ true → Flushes (P.state self.old.peer) result (P.state self.new.peer) }
        ensures swallowed { self.old.is_live ≡ false → self.new.peer ≡ self.old.peer }
        ensures same { (self.new.journal ≡ self.old.journal) × (self.new.is_live ≡ self.old.is_live) }
    {
        self.calls.flushed();
        if !self.is_live {
            return Ok(());
        }
        let result = self.peer.flush();
        if result.is_err() {
            self.write_failed = true;
        }
        result
    }

    fn wants_state(&self) -> bool
        ensures yes { result ≡ true → IsWanted self.now.keeping.every self.now.is_live self.now.has_ended self.now.journal.is_dead
            (drop self.now.given self.now.lines.items) (self.now.so_far.lines - self.now.beginning.lines) }
        ensures no { IsWanted self.now.keeping.every self.now.is_live self.now.has_ended self.now.journal.is_dead
            (drop self.now.given self.now.lines.items) (self.now.so_far.lines - self.now.beginning.lines) → result ≡ true }
    {
        self.wants()
    }

    fn keep_state(&mut self, text: &[u8]) -> io::Result<()>
        ensures keeps { KeepsState (state_over (drop self.old.given self.old.lines.items) (drop self.old.told self.old.front.items)
            (P.state self.old.peer) self.old.calls.so_far self.old.read_failed self.old.write_failed
            (origin_of self.old.start self.old.keeping.seen self.old.first.at))
            result text.now
            (state_over (drop self.new.given self.new.lines.items) (drop self.new.told self.new.front.items) (P.state self.new.peer)
            self.new.calls.so_far self.new.read_failed self.new.write_failed
            (origin_of self.new.start self.new.keeping.seen self.new.first.at)) }
        // The journal begins with this state, and with the counts of all that came and went before.
        ensures begun { OnOk result (text_of (D.seen self.new.journal.device) ≡ preamble_of self.old.keeping.options.items
            (totals_of self.old.start (came_of self.old.calls.so_far) (gone_of self.old.calls.so_far)) text.now) }
        // It is not kept unless it is wanted: lines that are to be given would be lost.
        ensures wanted { OnOk result (IsWanted self.old.keeping.every self.old.is_live self.old.has_ended self.old.journal.is_dead
            (drop self.old.given self.old.lines.items) (self.old.so_far.lines - self.old.beginning.lines)) }
        // A crash at any moment leaves the journal as it was, or as it begins anew.
        ensures crash { self.old.journal.is_dead ≡ false → LeavesOnly D.moment D.left_since self.old.journal.device
            self.new.journal.device (IsBeforeOrAnew (groups_of (D.seen self.old.journal.device)) (preamble_of self.old.keeping.options.items
            (totals_of self.old.start (came_of self.old.calls.so_far) (gone_of self.old.calls.so_far)) text.now)) }
        ensures same { (self.new.peer ≡ self.old.peer) × (self.new.is_live ≡ self.old.is_live) }
    {
        match self.begin_anew(text) {
            Ok(()) => Ok(()),
            Err(fault) => {
                self.fault = Some(fault);
                self.read_failed = true;
                Err(io::ErrorKind::Other.into())
            }
        }
    }
}
