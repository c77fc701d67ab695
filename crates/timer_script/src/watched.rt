//! A reader or a writer that remembers whether it failed.
//!
//! An error that was returned once may be gone at the next call. This latches the first failure, so a
//! contract can say that an error comes only if the reader or the writer itself failed. Each call makes one
//! call of the reader or the writer, with the whole piece, and nothing is retried. No clause counts those
//! calls, since `std` models a reader or a writer by its bytes alone. A test counts them.
ghost use Rattle.std.specs.Prelude.{◌≡◌, ◌||◌, ◌&&◌, ◌==◌, ◌<◌, not, false, length, is_ok, is_err};
ghost use Rattle.std.specs.Io.{ReadsAtMost, WritesAtMost};
ghost use Rattle.std.specs.Io.KnownBytes.{Keeps, ReadConsumes, WriteAppends};
ghost use Rattle.timer_script.specs.Watched.{took_nothing, inner_of, has_failed};

use std::io;
use std::io::{Read, Write};

/// Passes reads and writes on to `inner`, as they are, and keeps whether one failed.
#[derive(Drop)]
pub struct Watched<T> {
    inner: T,
    failed: bool,
}

impl<T> Watched<T> {
    /// A value that has not failed yet. Does not allocate.
    pub fn new(inner: T) -> Watched<T>
        ensures inner { inner_of result ≡ inner }
        ensures good { has_failed result ≡ false }
    {
        Watched {
            inner,
            failed: false,
        }
    }

    /// The value that was watched.
    pub fn into_inner(self) -> T
        ensures { result ≡ inner_of self }
    {
        self.inner
    }

    /// Whether an error was returned, or no byte was taken of a piece that wasn't empty.
    pub fn failed(&self) -> bool
        ensures { result ≡ has_failed self.now }
    {
        self.failed
    }
}

impl<T: Read> Read for Watched<T> {
    ghost remaining = { λ w. T.remaining (inner_of w) };

    fn read(&mut self, buf: &mut [u8]) -> io::Result<usize>
        ensures bound { ReadsAtMost result buf.new }
        ensures bytes { ReadConsumes (T.remaining (inner_of self.old))
            (T.remaining (inner_of self.new)) result buf.new }
        ensures failed { has_failed self.new ≡ (has_failed self.old || is_err result) }
    {
        let result = self.inner.read(buf);
        if result.is_err() {
            self.failed = true;
        }
        result
    }
}

impl<T: Write> Write for Watched<T> {
    ghost contents = { λ w. T.contents (inner_of w) };

    fn write(&mut self, buf: &[u8]) -> io::Result<usize>
        ensures bound { WritesAtMost result buf.now }
        ensures bytes { WriteAppends (T.contents (inner_of self.old))
            (T.contents (inner_of self.new)) result buf.now }
        ensures failed { has_failed self.new ≡ (has_failed self.old || took_nothing result buf.now) }
    {
        let result = self.inner.write(buf);
        match &result {
            Ok(n) => {
                if *n == 0 && !buf.is_empty() {
                    self.failed = true;
                }
            }
            Err(_) => self.failed = true,
        }
        result
    }

    fn flush(&mut self) -> io::Result<()>
        ensures bytes { Keeps (T.contents (inner_of self.old)) (T.contents (inner_of self.new)) }
        ensures failed { has_failed self.new ≡ (has_failed self.old || is_err result) }
    {
        let result = self.inner.flush();
        if result.is_err() {
            self.failed = true;
        }
        result
    }
}
