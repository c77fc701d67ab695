//! What the server is given: lines that the journal keeps, and at the end of the stream what came behind the last one.
ghost use Rattle.std.specs.Prelude.{◌≡◌, ◌≤◌, ◌<◌, ◌++◌, ◌∷◌, [], true, min, length, take, drop};
ghost use Rattle.std.specs.Io.KnownBytes.{prepend_known, Consumes, IsAtEnd};
ghost use Rattle.timer_script.specs.Peer.{Came};

use super::JournaledPeer;
use crate::pieces::copy_front;
use timer_journal::Device;
use timer_script::Peer;

impl<P: Peer, D: Device + Drop> JournaledPeer<P, D> {
    /// Gives the server lines that the journal keeps.
    pub(super) fn give_lines(&mut self, piece: &mut [u8]) -> usize
        ensures count { result ≡ min (length (drop self.old.given self.old.lines.items)) (length piece.old) }
        ensures bytes { Consumes
            (prepend_known (drop self.old.given self.old.lines.items ++ drop self.old.told self.old.front.items) (P.state self.old.peer).remaining)
            (prepend_known (drop self.new.given self.new.lines.items ++ drop self.new.told self.new.front.items) (P.state self.new.peer).remaining)
            (take result piece.new) }
        ensures noted { self.new.calls.so_far ≡ self.old.calls.so_far ++ Came (take result piece.new) ∷ [] }
        ensures same { (self.new.peer ≡ self.old.peer) × (self.new.journal ≡ self.old.journal) × (self.new.is_live ≡ self.old.is_live)
            × (self.new.unseen ≡ self.old.unseen) × (self.new.read_failed ≡ self.old.read_failed)
            × (self.new.write_failed ≡ self.old.write_failed) × (self.new.start ≡ self.old.start)
            × (self.new.keeping ≡ self.old.keeping) × (self.new.first ≡ self.old.first) }
    {
        let n = copy_front(&self.lines[self.given..], piece);
        self.given += n;
        self.calls.came(&piece[..n]);
        n
    }

    /// Gives the server what came behind the last line feed.
    pub(super) fn give_front(&mut self, piece: &mut [u8]) -> usize
        requires given { drop self.old.given self.old.lines.items ≡ [] }
        requires ended { self.old.has_ended ≡ true }
        ensures within { result ≤ length piece.old }
        ensures bytes { Consumes
            (prepend_known (drop self.old.given self.old.lines.items ++ drop self.old.told self.old.front.items) (P.state self.old.peer).remaining)
            (prepend_known (drop self.new.given self.new.lines.items ++ drop self.new.told self.new.front.items) (P.state self.new.peer).remaining)
            (take result piece.new) }
        ensures end { result ≡ 0 → 0 < length piece.old → IsAtEnd
            (prepend_known (drop self.new.given self.new.lines.items ++ drop self.new.told self.new.front.items) (P.state self.new.peer).remaining) }
        ensures noted { self.new.calls.so_far ≡ self.old.calls.so_far ++ Came (take result piece.new) ∷ [] }
        ensures same { (self.new.peer ≡ self.old.peer) × (self.new.journal ≡ self.old.journal) × (self.new.is_live ≡ self.old.is_live)
            × (self.new.unseen ≡ self.old.unseen) × (self.new.read_failed ≡ self.old.read_failed)
            × (self.new.write_failed ≡ self.old.write_failed) × (self.new.start ≡ self.old.start)
            × (self.new.keeping ≡ self.old.keeping) × (self.new.first ≡ self.old.first) }
    {
        let n = copy_front(&self.front[self.told..], piece);
        self.told += n;
        self.calls.came(&piece[..n]);
        n
    }

    /// Gives the server what is there.
    pub(super) fn give(&mut self, piece: &mut [u8]) -> usize
        requires ready { 0 < length piece.old → drop self.old.given self.old.lines.items ≡ [] → self.old.has_ended ≡ true }
        ensures within { result ≤ length piece.old }
        ensures bytes { Consumes
            (prepend_known (drop self.old.given self.old.lines.items ++ drop self.old.told self.old.front.items) (P.state self.old.peer).remaining)
            (prepend_known (drop self.new.given self.new.lines.items ++ drop self.new.told self.new.front.items) (P.state self.new.peer).remaining)
            (take result piece.new) }
        ensures end { result ≡ 0 → 0 < length piece.old → IsAtEnd
            (prepend_known (drop self.new.given self.new.lines.items ++ drop self.new.told self.new.front.items) (P.state self.new.peer).remaining) }
        ensures noted { self.new.calls.so_far ≡ self.old.calls.so_far ++ Came (take result piece.new) ∷ [] }
        ensures same { (self.new.peer ≡ self.old.peer) × (self.new.journal ≡ self.old.journal) × (self.new.is_live ≡ self.old.is_live)
            × (self.new.unseen ≡ self.old.unseen) × (self.new.read_failed ≡ self.old.read_failed)
            × (self.new.write_failed ≡ self.old.write_failed) × (self.new.start ≡ self.old.start)
            × (self.new.keeping ≡ self.old.keeping) × (self.new.first ≡ self.old.first) }
    {
        if self.given == self.lines.len() && self.has_ended {
            self.give_front(piece)
        } else {
            self.give_lines(piece)
        }
    }
}
