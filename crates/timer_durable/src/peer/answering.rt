//! Text that goes to the peer, or is swallowed.
ghost use Rattle.std.specs.Prelude.{◌≡◌, ◌++◌, true, false, drop};
ghost use Rattle.timer_script.specs.Peer.{Takes};
ghost use Rattle.timer_durable.specs.Durable.{origin_of, state_over};

use super::JournaledPeer;
use crate::pieces::{taken, takes_nothing};
use crate::replay::{answered, answered_if, push_unseen};
use std::io;
use timer_journal::Device;
use timer_script::Peer;

impl<P: Peer, D: Device + Drop> JournaledPeer<P, D> {
    /// Writes to the peer.
    pub(super) fn write_on(&mut self, piece: &[u8]) -> io::Result<usize>
        requires { self.old.is_live ≡ true }
        ensures takes { Takes (state_over (drop self.old.given self.old.lines.items) (drop self.old.told self.old.front.items) (P.state self.old.peer)
            self.old.calls.so_far self.old.read_failed self.old.write_failed
            (origin_of self.old.start self.old.keeping.seen self.old.first.at))
            result piece.now
            (state_over (drop self.new.given self.new.lines.items) (drop self.new.told self.new.front.items) (P.state self.new.peer)
            self.new.calls.so_far self.new.read_failed self.new.write_failed
            (origin_of self.new.start self.new.keeping.seen self.new.first.at)) }
        ensures live { Takes (P.state self.old.peer) result piece.now (P.state self.new.peer) }
        ensures same { (self.new.journal ≡ self.old.journal) × (self.new.is_live ≡ self.old.is_live) }
    {
        let result = self.peer.write(piece);
        let text = taken(&result, piece);
        let every = self.keeping.every;
        let (answers, begun) = answered_if(every, self.so_far.answers, self.begun, text);
        self.so_far.answers = answers;
        self.begun = begun;
        self.calls.went(text);
        self.write_failed = self.write_failed || takes_nothing(&result, piece);
        result
    }

    /// Takes an answer to a line that was recovered.
    pub(super) fn swallow(&mut self, piece: &[u8]) -> io::Result<usize>
        requires { self.old.is_live ≡ false }
        ensures takes { Takes (state_over (drop self.old.given self.old.lines.items) (drop self.old.told self.old.front.items) (P.state self.old.peer)
            self.old.calls.so_far self.old.read_failed self.old.write_failed
            (origin_of self.old.start self.old.keeping.seen self.old.first.at))
            result piece.now
            (state_over (drop self.new.given self.new.lines.items) (drop self.new.told self.new.front.items) (P.state self.new.peer)
            self.new.calls.so_far self.new.read_failed self.new.write_failed
            (origin_of self.new.start self.new.keeping.seen self.new.first.at)) }
        ensures peer { self.new.peer ≡ self.old.peer }
        ensures same { (self.new.journal ≡ self.old.journal) × (self.new.is_live ≡ self.old.is_live) }
    {
        let before = self.so_far.answers;
        match push_unseen(
            &mut self.unseen,
            self.keeping.seen,
            before,
            self.begun,
            piece,
        ) {
            Ok(()) => {
                let (answers, begun) = answered(before, self.begun, piece);
                self.so_far.answers = answers;
                self.begun = begun;
                self.calls.went(piece);
                Ok(piece.len())
            }
            Err(fault) => {
                self.fault = Some(fault.into());
                self.write_failed = true;
                self.calls.went(&[]);
                Err(io::ErrorKind::Other.into())
            }
        }
    }
}
