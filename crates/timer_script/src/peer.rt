//! What a server talks with: it reads from it, writes to it, and flushes what it wrote.
//!
//! A reader and a writer alone cannot say in which order they were called. A peer is both, so a
//! contract over it can say that an answer was flushed before more was read. A peer that keeps what came can be
//! told the state from time to time, to keep that in its place.
ghost use Rattle.std.specs.Prelude.{Option, List, ℕ};
ghost use Rattle.timer_script.specs.Peer.{PeerState, Gives, Takes, Flushes, KeepsState};

use std::io;

/// The other side of a conversation. Each call may fail, and may be made again.
pub trait Peer {
    /// What is known of it.
    ghost state: { Self → PeerState };

    /// Reads once into the piece, and returns how many bytes came.
    fn read(&mut self, piece: &mut [u8]) -> io::Result<usize>
        ensures { Gives (state self.old) result piece.new (state self.new) };

    /// Writes once, and returns how many bytes were taken.
    fn write(&mut self, piece: &[u8]) -> io::Result<usize>
        ensures { Takes (state self.old) result piece.now (state self.new) };

    /// Flushes what was written.
    fn flush(&mut self) -> io::Result<()>
        ensures { Flushes (state self.old) result (state self.new) };

    /// Whether it wants to be told the state before it is read again.
    fn wants_state(&self) -> bool;

    /// Keeps the state after all that came: the lines of a dump. An error counts as that of a read.
    fn keep_state(&mut self, text: &[u8]) -> io::Result<()>
        ensures { KeepsState (state self.old) result text.now (state self.new) };
}
