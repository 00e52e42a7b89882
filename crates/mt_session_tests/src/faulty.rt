//! A reader or writer that reads or writes little at a time, and fails when it is asked to.

ghost use Rattle.std.specs.Prelude.{◌≡◌, ◌<◌, ◌≤◌};
ghost use Rattle.std.specs.Io.{ReadsAtMost, WritesAtMost};
ghost use Rattle.std.specs.Io.KnownBytes.{ReadConsumes, WriteAppends, Keeps};

use std::io;
use std::io::{ErrorKind, Read, Write};

/// A reader or writer whose calls read or write a bounded number of bytes each, and fail from a given call on.
#[derive(Drop)]
pub struct Faulty<T> {
    inner: T,
    most: usize,
    left: Option<u64>,
}

impl<T> Faulty<T> {
    /// Returns a reader or writer of `inner` whose calls read or write at most `most` bytes each (one byte if `most` is
    /// 0). If `good` is `None`, no call fails. Otherwise the first `good` calls don't fail, and all later ones do. A
    /// flush is not counted, and never fails but as `inner` does.
    pub fn new(inner: T, most: usize, good: Option<u64>) -> Faulty<T>
        ensures { result.inner ≡ inner }
    {
        Faulty {
            inner,
            most,
            left: good,
        }
    }

    /// Returns the inner reader or writer.
    pub fn inner(&self) -> &T
        ensures { result.now ≡ self.now.inner }
    {
        &self.inner
    }

    // Whether this call is to fail. Counts the call.
    fn fails(&mut self) -> bool
        ensures { self.new.inner ≡ self.old.inner }
    {
        match self.left {
            None => false,
            Some(0) => true,
            Some(left) => {
                self.left = Some(left - 1);
                false
            }
        }
    }

    // Returns how many of `bytes` bytes a call reads or writes.
    fn part(&self, bytes: usize) -> usize
        ensures within { result ≤ bytes }
        ensures some { 0 < bytes → 0 < result }
    {
        bytes.min(self.most.max(1))
    }
}

impl<R: Read> Read for Faulty<R> {
    ghost remaining = { λ s. R.remaining s.inner };

    fn read(&mut self, buf: &mut [u8]) -> io::Result<usize>
        ensures bound { ReadsAtMost result buf.new }
        ensures bytes { ReadConsumes (R.remaining self.old.inner) (R.remaining self.new.inner) result
            buf.new }
    {
        if self.fails() {
            return Err(io::Error::from(ErrorKind::Other));
        }
        let part = self.part(buf.len());
        self.inner.read(&mut buf[..part])
    }
}

impl<W: Write> Write for Faulty<W> {
    ghost contents = { λ s. W.contents s.inner };

    fn write(&mut self, buf: &[u8]) -> io::Result<usize>
        ensures bound { WritesAtMost result buf.now }
        ensures bytes { WriteAppends (W.contents self.old.inner) (W.contents self.new.inner) result
            buf.now }
    {
        if self.fails() {
            return Err(io::Error::from(ErrorKind::Other));
        }
        let part = self.part(buf.len());
        self.inner.write(&buf[..part])
    }

    fn flush(&mut self) -> io::Result<()>
        ensures { Keeps (W.contents self.old.inner) (W.contents self.new.inner) }
    {
        self.inner.flush()
    }
}
