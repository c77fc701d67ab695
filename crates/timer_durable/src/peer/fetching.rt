//! Lines are read, and added to the journal, before they are to be given.
ghost use Rattle.std.specs.Prelude.{◌≡◌, ◌≤◌, ◌<◌, ◌+◌, ◌++◌, ℕ, [], List, true, false, length, take, drop, OnOk};
ghost use Rattle.timer_journal.specs.Device.{LeavesOnly};
ghost use Rattle.timer_journal.specs.Format.{groups_of};
ghost use Rattle.timer_journal.specs.Journal.{IsBeforeOrAfter};
ghost use Rattle.timer_durable.specs.Durable.{HasReadOn};

use super::JournaledPeer;
use crate::bytes::read_lines;
use crate::fault::KeepFault;
use crate::replay::counted_if;
use timer_journal::{Device, JournalFault};
use timer_script::Peer;

impl<P: Peer, D: Device + Drop> JournaledPeer<P, D> {
    /// Adds the first bytes of the front to the journal. Then they are to be given.
    fn keep(&mut self, len: usize) -> Result<(), KeepFault>
        requires live { self.old.is_live ≡ true }
        requires given { drop self.old.given self.old.lines.items ≡ [] }
        requires early { self.old.has_ended ≡ false }
        requires within { len ≤ length self.old.front.items }
        ensures bytes { drop self.new.given self.new.lines.items ++ self.new.front.items ≡ self.old.front.items }
        ensures due { OnOk result (drop self.new.given self.new.lines.items ≡ take len self.old.front.items) }
        ensures early { self.new.has_ended ≡ false }
        ensures same { (self.new.peer ≡ self.old.peer) × (self.new.is_live ≡ self.old.is_live) × (self.new.unseen ≡ self.old.unseen)
            × (self.new.keeping ≡ self.old.keeping) × (self.new.start ≡ self.old.start) × (self.new.beginning ≡ self.old.beginning)
            × (self.new.calls ≡ self.old.calls) × (self.new.read_failed ≡ self.old.read_failed)
            × (self.new.write_failed ≡ self.old.write_failed) × (self.new.first ≡ self.old.first) }
        ensures crash { self.old.journal.is_dead ≡ false → LeavesOnly D.moment D.left_since self.old.journal.device
            self.new.journal.device (IsBeforeOrAfter (groups_of (D.seen self.old.journal.device)) (take len self.old.front.items)) }
    {
        let lines = Vec::from_slice(self.alloc, &self.front[..len])?;
        let front = Vec::from_slice(self.alloc, &self.front[len..])?;
        self.journal.append(self.alloc, &lines)?;
        self.so_far.lines = counted_if(self.keeping.every, self.so_far.lines, &lines);
        self.lines = lines;
        self.given = 0;
        self.front = front;
        Ok(())
    }

    /// Reads the next lines, and adds them to the journal. At the end of the stream there may be none.
    pub(super) fn fetch(&mut self, piece: &mut [u8]) -> Result<(), KeepFault>
        requires live { self.old.is_live ≡ true }
        requires given { drop self.old.given self.old.lines.items ≡ [] }
        requires early { self.old.has_ended ≡ false }
        requires room { 0 < length piece.old }
        ensures bytes { HasReadOn (P.state self.old.peer) self.old.front.items (P.state self.new.peer)
            (drop self.new.given self.new.lines.items ++ drop self.new.told self.new.front.items) }
        ensures ready { OnOk result (drop self.new.given self.new.lines.items ≡ [] → self.new.has_ended ≡ true) }
        ensures same { (self.new.is_live ≡ self.old.is_live) × (self.new.unseen ≡ self.old.unseen)
            × (self.new.keeping ≡ self.old.keeping) × (self.new.start ≡ self.old.start) × (self.new.beginning ≡ self.old.beginning)
            × (self.new.calls ≡ self.old.calls) × (self.new.read_failed ≡ self.old.read_failed)
            × (self.new.write_failed ≡ self.old.write_failed) × (self.new.first ≡ self.old.first) }
        ensures crash { self.old.journal.is_dead ≡ false → (lines : List ℕ) × LeavesOnly D.moment D.left_since
            self.old.journal.device self.new.journal.device (IsBeforeOrAfter (groups_of (D.seen self.old.journal.device)) lines) }
    {
        if self.journal.is_dead() {
            return Err(KeepFault::Journal(JournalFault::Dead));
        }
        let len = read_lines(&mut self.peer, piece, &mut self.front)?;
        if len == 0 {
            self.has_ended = true;
            return Ok(());
        }
        self.keep(len)
    }
}
