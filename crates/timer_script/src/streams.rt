//! A reader and a writer, as the two directions of a peer.
ghost use Rattle.std.specs.Prelude.{◌≡◌, false};
ghost use Rattle.timer_script.specs.Peer.{PeerState, Gives, Takes, Flushes, KeepsState};
ghost use Rattle.timer_script.specs.Streams.{streams_state};
ghost use Rattle.timer_script.specs.Watched.{inner_of, has_failed};

use crate::peer::Peer;
use crate::watched::Watched;
use std::io;
use std::io::{Read, Write};

/// What the program reads from and writes to.
#[derive(Drop)]
pub struct Streams<R, S> {
    pub reader: Watched<R>,
    pub writer: Watched<S>,
}

impl<R, S> Streams<R, S> {
    /// A reader and a writer that have not failed yet. Does not allocate.
    pub fn new(reader: R, writer: S) -> Streams<R, S>
        ensures reader { inner_of result.reader ≡ reader }
        ensures reader_good { has_failed result.reader ≡ false }
        ensures writer { inner_of result.writer ≡ writer }
        ensures writer_good { has_failed result.writer ≡ false }
    {
        Streams {
            reader: Watched::new(reader),
            writer: Watched::new(writer),
        }
    }
}

impl<R: Read, S: Write> Peer for Streams<R, S> {
    ghost state = { λ s. streams_state R.remaining S.contents s.reader s.writer };

    fn read(&mut self, piece: &mut [u8]) -> io::Result<usize> {
        self.reader.read(piece)
    }

    fn write(&mut self, piece: &[u8]) -> io::Result<usize> {
        self.writer.write(piece)
    }

    fn flush(&mut self) -> io::Result<()> {
        self.writer.flush()
    }

    fn wants_state(&self) -> bool {
        false
    }

    fn keep_state(&mut self, _text: &[u8]) -> io::Result<()> {
        Ok(())
    }
}
