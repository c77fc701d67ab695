//! The journal begins anew with the state, so that it does not grow for ever and a start does not replay it all.
ghost use Rattle.std.specs.Prelude.{◌≡◌, ◌-◌, ◌++◌, [], true, false, drop, OnOk, IsErrOf};
ghost use Rattle.timer_script.specs.Peer.{told_in};
ghost use Rattle.timer_script.specs.Service.{came_of, gone_of};
ghost use Rattle.timer_journal.specs.Device.{LeavesOnly};
ghost use Rattle.timer_journal.specs.Format.{groups_of};
ghost use Rattle.timer_journal.specs.Journal.{IsBeforeOrAnew, text_of};
ghost use Rattle.timer_durable.specs.Beginning.{preamble_of};
ghost use Rattle.timer_durable.specs.Durable.{IsWanted, totals_of};
ghost use Rattle.timer_durable.specs.declared.fault.KeepFault.TheVariants.{Unwanted};

use super::JournaledPeer;
use crate::beginning::preamble;
use crate::fault::KeepFault;
use timer_base::LAST;
use timer_journal::Device;
use timer_script::Peer;

impl<P: Peer, D: Device + Drop> JournaledPeer<P, D> {
    /// All lines that the journal keeps were given, and there may be more.
    fn is_idle(&self) -> bool
        ensures yes { result ≡ true → (self.now.is_live ≡ true) × (self.now.has_ended ≡ false) × (self.now.journal.is_dead ≡ false)
            × (drop self.now.given self.now.lines.items ≡ []) }
        ensures no { self.now.is_live ≡ true → self.now.has_ended ≡ false → self.now.journal.is_dead ≡ false
            → drop self.now.given self.now.lines.items ≡ [] → result ≡ true }
    {
        self.is_live && !self.has_ended && !self.journal.is_dead() && self.given == self.lines.len()
    }

    /// Whether the state is wanted: enough lines came since the journal's beginning, and all of them were given.
    pub(super) fn wants(&self) -> bool
        ensures yes { result ≡ true → IsWanted self.now.keeping.every self.now.is_live self.now.has_ended self.now.journal.is_dead
            (drop self.now.given self.now.lines.items) (self.now.so_far.lines - self.now.beginning.lines) }
        ensures no { IsWanted self.now.keeping.every self.now.is_live self.now.has_ended self.now.journal.is_dead
            (drop self.now.given self.now.lines.items) (self.now.so_far.lines - self.now.beginning.lines) → result ≡ true }
    {
        match self.keeping.every {
            Some(every) => self.is_idle()
                && self.so_far.lines.saturating_sub(self.beginning.lines) >= every,
            None => false,
        }
    }

    /// The journal begins anew: what came so far is counted, and this is the text of the state. After an error it is as
    /// it was, or dead.
    pub(super) fn begin_anew(&mut self, text: &[u8]) -> Result<(), KeepFault>
        ensures begun { OnOk result (text_of (D.seen self.new.journal.device) ≡ preamble_of self.old.keeping.options.items
            (totals_of self.old.start (came_of self.old.calls.so_far) (gone_of self.old.calls.so_far)) text.now) }
        ensures wanted { OnOk result (IsWanted self.old.keeping.every self.old.is_live self.old.has_ended self.old.journal.is_dead
            (drop self.old.given self.old.lines.items) (self.old.so_far.lines - self.old.beginning.lines)) }
        ensures unwanted { IsErrOf result Unwanted → IsWanted self.old.keeping.every self.old.is_live self.old.has_ended
            self.old.journal.is_dead (drop self.old.given self.old.lines.items) (self.old.so_far.lines - self.old.beginning.lines) → ⊥ }
        ensures noted { self.new.calls.so_far ≡ self.old.calls.so_far ++ told_in result text.now }
        ensures same { (self.new.peer ≡ self.old.peer) × (self.new.keeping ≡ self.old.keeping) × (self.new.start ≡ self.old.start)
            × (self.new.so_far ≡ self.old.so_far) × (self.new.lines ≡ self.old.lines) × (self.new.given ≡ self.old.given)
            × (self.new.front ≡ self.old.front) × (self.new.told ≡ self.old.told) × (self.new.has_ended ≡ self.old.has_ended)
            × (self.new.is_live ≡ self.old.is_live) × (self.new.unseen ≡ self.old.unseen)
            × (self.new.read_failed ≡ self.old.read_failed) × (self.new.write_failed ≡ self.old.write_failed)
            × (self.new.first ≡ self.old.first) }
        ensures crash { self.old.journal.is_dead ≡ false → LeavesOnly D.moment D.left_since self.old.journal.device
            self.new.journal.device (IsBeforeOrAnew (groups_of (D.seen self.old.journal.device)) (preamble_of self.old.keeping.options.items
            (totals_of self.old.start (came_of self.old.calls.so_far) (gone_of self.old.calls.so_far)) text.now)) }
    {
        if !self.wants() {
            return Err(KeepFault::Unwanted);
        }
        let so_far = self.so_far;
        if so_far.lines > LAST || so_far.answers > LAST {
            return Err(KeepFault::TooMany);
        }
        let first = preamble(self.alloc, &self.keeping.options, so_far, text)?;
        self.journal.begin_anew(self.alloc, &first)?;
        self.beginning = so_far;
        self.states.told(text);
        self.calls.told(text);
        Ok(())
    }
}
