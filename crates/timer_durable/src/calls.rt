//! The calls of a peer so far, and what there was at first, which no memory holds: only clauses read them.
ghost use Rattle.std.specs.Prelude.{◌≡◌, ◌++◌, ◌∷◌, [], List};
ghost use Rattle.std.specs.Borrow.{ftrue};
ghost use Rattle.timer_script.specs.Peer.{PeerCall, Came, Went, Flush, Told};
ghost use Rattle.timer_durable.specs.Durable.{AtFirst};

use std::marker::{Model, PhantomData};

/// A list of calls.
#[derive(Drop)]
pub struct Calls {
    marker: PhantomData<u8>,
    pub ghost so_far: { List PeerCall },
}

impl Model for Calls {
    ghost also_owns = { λ _. ftrue };
}

impl Calls {
    pub fn new() -> Calls
        ensures { result.so_far ≡ [] }
    {
        Calls::of()
    }

    /// The same calls once more.
    pub fn copied(&self) -> Calls
        ghost calls: { List PeerCall }
        requires { calls ≡ self.now.so_far }
        ensures { result.so_far ≡ calls }
    {
        Calls::of()
    }

    fn of() -> Calls
        ghost calls: { List PeerCall }
        ensures { result.so_far ≡ calls }
    {
        Calls {
            marker: PhantomData,
        }
    }

    /// A read gave these bytes.
    pub fn came(&mut self, bytes: &[u8])
        ensures { self.new.so_far ≡ self.old.so_far ++ Came bytes.now ∷ [] }
    {
        self.note(bytes);
    }

    /// A write took these bytes.
    pub fn went(&mut self, bytes: &[u8])
        ensures { self.new.so_far ≡ self.old.so_far ++ Went bytes.now ∷ [] }
    {
        self.note(bytes);
    }

    /// What went was flushed.
    pub fn flushed(&mut self)
        ensures { self.new.so_far ≡ self.old.so_far ++ Flush ∷ [] }
    {
        self.note(&[]);
    }

    /// The state was kept as this text.
    pub fn told(&mut self, text: &[u8])
        ensures { self.new.so_far ≡ self.old.so_far ++ Told text.now ∷ [] }
    {
        self.note(text);
    }

    fn note(&mut self, _bytes: &[u8])
        ghost call: { PeerCall }
        ensures { self.new.so_far ≡ self.old.so_far ++ call ∷ [] }
    {}
}

/// What a peer had taken and what its journal kept when a process began.
#[derive(Drop)]
pub struct First {
    marker: PhantomData<u8>,
    pub ghost at: { AtFirst },
}

impl Model for First {
    ghost also_owns = { λ _. ftrue };
}

impl First {
    pub fn new() -> First
        ghost at: { AtFirst }
        ensures { result.at ≡ at }
    {
        First {
            marker: PhantomData,
        }
    }
}
