//! What was done to a file so far, which no memory holds: only clauses read it.
ghost use Rattle.std.specs.Prelude.{◌≡◌, ◌++◌, ◌∷◌, [], List};
ghost use Rattle.std.specs.Borrow.{ftrue};
ghost use Rattle.timer_journal.specs.Device.{Only};
ghost use Rattle.timer_journal.specs.Host.{Step, Found, Wrote, Cut, Synced, WroteInPart, CutInPart, LostSync, Refused, Replaced, RenameFailed, NotReplaced, held_after, left_after};

use std::marker::{Model, PhantomData};

/// A list of steps.
#[derive(Drop)]
pub struct Record {
    marker: PhantomData<u8>,
    pub ghost steps: { List Step },
}

impl Model for Record {
    ghost also_owns = { λ _. ftrue };
}

impl Record {
    pub fn new() -> Record
        ensures { result.steps ≡ [] }
    {
        Record {
            marker: PhantomData,
        }
    }

    /// These bytes were read, and are on the disk.
    pub fn found(&mut self, bytes: &[u8])
        ensures { self.new.steps ≡ self.old.steps ++ Found bytes.now ∷ [] }
    {
        self.note(&[], bytes);
    }

    pub fn wrote(&mut self, at: usize, bytes: &[u8])
        ensures { self.new.steps ≡ self.old.steps ++ Wrote at bytes.now ∷ [] }
    {
        self.note(&[at as u64], bytes);
    }

    pub fn wrote_in_part(&mut self, at: usize, bytes: &[u8])
        ensures { self.new.steps ≡ self.old.steps ++ WroteInPart at bytes.now ∷ [] }
    {
        self.note(&[at as u64], bytes);
    }

    pub fn cut(&mut self, len: usize)
        ensures { self.new.steps ≡ self.old.steps ++ Cut len ∷ [] }
    {
        self.note(&[len as u64], &[]);
    }

    pub fn cut_in_part(&mut self, len: usize)
        ensures { self.new.steps ≡ self.old.steps ++ CutInPart len ∷ [] }
    {
        self.note(&[len as u64], &[]);
    }

    pub fn synced(&mut self)
        ensures { self.new.steps ≡ self.old.steps ++ Synced ∷ [] }
    {
        self.note(&[], &[]);
    }

    pub fn lost_sync(&mut self)
        ensures { self.new.steps ≡ self.old.steps ++ LostSync ∷ [] }
    {
        self.note(&[], &[]);
    }

    pub fn refused(&mut self)
        ensures { self.new.steps ≡ self.old.steps ++ Refused ∷ [] }
    {
        self.note(&[], &[]);
    }

    /// A file with these bytes took the place of this one. Its own record says that they were on the disk before.
    pub fn replaced(&mut self, _by: &Record, bytes: &[u8])
        requires held { held_after _by.now.steps ≡ bytes.now }
        requires durable { Only bytes.now (left_after _by.now.steps) }
        ensures { self.new.steps ≡ self.old.steps ++ Replaced bytes.now ∷ [] }
    {
        self.note(&[], bytes);
    }

    /// It may have taken the place of this one, or not.
    pub fn rename_failed(&mut self, _by: &Record, bytes: &[u8])
        requires held { held_after _by.now.steps ≡ bytes.now }
        requires durable { Only bytes.now (left_after _by.now.steps) }
        ensures { self.new.steps ≡ self.old.steps ++ RenameFailed bytes.now ∷ [] }
    {
        self.note(&[], bytes);
    }

    /// There was no whole file to take the place of this one.
    pub fn not_replaced(&mut self)
        ensures { self.new.steps ≡ self.old.steps ++ NotReplaced ∷ [] }
    {
        self.note(&[], &[]);
    }

    fn note(&mut self, _numbers: &[u64], _bytes: &[u8])
        ghost step: { Step }
        ensures { self.new.steps ≡ self.old.steps ++ step ∷ [] }
    {}
}
